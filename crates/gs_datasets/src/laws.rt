//! Laws of versions, proved: each body is empty, and the contract is the law.
ghost use Rattle.gs_datasets.specs.Datasets.{GraphsAreOfVersions, NoneIsMissing, SizesAreCounts};
ghost use Rattle.gs_datasets.specs.Datasets.{TriplesAreCounted, NamesAreCounted, NoVersions};
ghost use Rattle.gs_datasets.specs.Writes.{OneIsSet, NameIsTaken, AllStay, OneIsApart};
ghost use Rattle.gs_datasets.specs.Trees.{LedgerKeeps, LedgerHasSets, OthersStay, OthersStayBeside};
ghost use Rattle.gs_datasets.specs.Trees.{GraphsStay, PlaceIsEmptied, PlaceIsFilled, KeysOutlast};

/// The versions of all graphs stand for a dataset: its graphs, its sizes and its names are theirs.
pub fn versions_stand_for_a_dataset()
    ensures at { GraphsAreOfVersions }
    ensures there { NoneIsMissing }
    ensures size { SizesAreCounts }
    ensures triples { TriplesAreCounted }
    ensures names { NamesAreCounted }
    ensures none { NoVersions }
{}

/// A write of one target changes its graph alone, however the pool grew beside it, where each number
/// that has a term keeps it.
pub fn writes_change_one_graph()
    ensures set { OneIsSet }
    ensures take { NameIsTaken }
    ensures stay { AllStay }
    ensures parts { OneIsApart }
{}

/// In the pool of a ledger, the trees of graphs, uploads and reads are there, and are sets of keys.
pub fn ledgers_keep_trees()
    ensures trees { LedgerKeeps }
    ensures sets { LedgerHasSets }
    ensures others { OthersStay }
    ensures beside { OthersStayBeside }
    ensures graphs { GraphsStay }
{}

/// A tree that stands at a place of a list comes out of it, and another goes in.
pub fn trees_go_by_place()
    ensures out { PlaceIsEmptied }
    ensures into { PlaceIsFilled }
{}

/// A tree of keys whose numbers have terms stands for the same graph where each number keeps its term.
pub fn keyed_trees_outlast_new_terms()
    ensures { KeysOutlast }
{}
