//! Laws of the ledger, proved: each body is empty, and the contract is the law.
ghost use Rattle.std.specs.Prelude.{◌∷◌, List};
ghost use Rattle.gs_pool.specs.Pool.{Nodes};
ghost use Rattle.gs_tree.specs.Tree.{Tree};
ghost use Rattle.gs_versions.specs.Pins.{Pins, IsNeeded};
ghost use Rattle.gs_ledger.specs.Entries.{Dead};
ghost use Rattle.gs_ledger.specs.Marks.{dead_at};
ghost use Rattle.gs_ledger.specs.Ledger.{IsLedger};
ghost use Rattle.gs_ledger.specs.Changes.{AreSameDead, FreesTop};
ghost use Rattle.gs_ledger.specs.Keeping.{OrderMeansNothing, PutKeeps, CancelKeeps, CopyKeeps, StageKeeps};
ghost use Rattle.gs_ledger.specs.Keeping.{PinKeeps, UnpinKeeps, PutJoins, CancelJoins, CopyJoins};
ghost use Rattle.gs_ledger.specs.Laws.{Counts as CountsNodes, StageBirths, CopyBirths, PutBirths, NeededStay, MayGo};

/// The nodes in use are the triples of the current graphs, those of the open uploads, and the waste,
/// which is what the marks of the pool say.
pub fn nodes_are_counted()
    ensures { (p : Nodes) (v : Pins) (graphs uploads : List Tree) (reads : List (List Tree))
        (dead : List Dead) → IsLedger p v graphs uploads reads dead → CountsNodes p graphs uploads dead }
{}

/// Where a dead node is freed that neither the current version nor a pinned one needs, every tree of
/// a current graph, of an open upload and of a read stands as it stood.
pub fn needed_nodes_stay()
    ensures { (p q : Nodes) (v : Pins) (graphs uploads : List Tree) (reads : List (List Tree))
        (d : Dead) (dead : List Dead)
        → IsLedger p v graphs uploads reads (d ∷ dead) → FreesTop p q d → (IsNeeded v d.birth d.death → ⊥)
        → NeededStay p q v graphs uploads reads }
{}

/// And the ledger goes on: one node fewer is in use, and its lifetime is out of the waste.
pub fn what_no_version_needs_may_go()
    ensures { (p q : Nodes) (v : Pins) (graphs uploads : List Tree) (reads : List (List Tree))
        (d : Dead) (dead : List Dead)
        → IsLedger p v graphs uploads reads (d ∷ dead) → FreesTop p q d → (IsNeeded v d.birth d.death → ⊥)
        → MayGo p q v graphs uploads reads d dead }
{}

/// Each step of a store carries its ledger, and no step rests on an order of its parts.
pub fn steps_keep_the_ledger()
    ensures order { OrderMeansNothing }
    ensures put { PutKeeps }
    ensures cancel { CancelKeeps }
    ensures copy { CopyKeeps }
    ensures stage { StageKeeps }
    ensures pin { PinKeeps }
    ensures unpin { UnpinKeeps }
{}

/// What the steps of a store make of the waste is what the law of waste says of them.
pub fn steps_join_the_waste()
    ensures put { PutJoins }
    ensures cancel { CancelJoins }
    ensures copy { CopyJoins }
{}

/// The dead nodes of a ledger are those that the marks of its pool say.
pub fn marks_say_what_is_dead()
    ensures { (p : Nodes) (v : Pins) (graphs uploads : List Tree) (reads : List (List Tree))
        (dead : List Dead) → IsLedger p v graphs uploads reads dead → AreSameDead dead (dead_at p) }
{}

/// Where nodes are made for the next commit alone, each other birth of an upload or a graph was there, and what a commit takes out keeps
/// its births.
pub fn births_go_on()
    ensures stage { StageBirths }
    ensures copy { CopyBirths }
    ensures put { PutBirths }
{}
