//! Laws of ledgers between commits, proved: each body is empty, and the contract is the law.
ghost use Rattle.gs_commit.specs.Laws.{LedgersSayTheDead, RestoredIsSame, StagingKeeps};
ghost use Rattle.gs_commit.specs.Laws.{LedgerIsRetirable};
ghost use Rattle.gs_commit.specs.Laws.{EmptyHasLedger, EmptyHasNoDead, LeafIsNoUpload};

/// A pool with a ledger over the dead nodes of another has the same dead nodes.
pub fn ledgers_say_what_is_dead()
    ensures { LedgersSayTheDead }
{}

/// A change that was taken back leaves every ledger, the waste and what each root means.
pub fn restored_pools_keep_ledgers()
    ensures { RestoredIsSame }
{}

/// An upload changes in place, beside every ledger, and the waste stays.
pub fn staging_keeps_ledgers()
    ensures { StagingKeeps }
{}

/// The trees of current graphs and of open uploads of a ledger can be retired.
pub fn roots_of_ledgers_can_be_retired()
    ensures { LedgerIsRetirable }
{}

/// A pool without a node has a ledger without a tree, where no version is pinned.
pub fn an_empty_pool_has_an_empty_ledger()
    ensures ledger { EmptyHasLedger }
    ensures dead { EmptyHasNoDead }
{}

/// A leaf among the uploads stands for none, so a Delete ends as a PUT of a leaf does.
pub fn a_leaf_is_no_upload()
    ensures { LeafIsNoUpload }
{}
