//! Laws of histories, proved: the body is empty, and the contract is the law.
ghost use Rattle.std.specs.Prelude.{ℕ, Bool, List};
ghost use Rattle.gs_model.specs.Graphs.{Graph};
ghost use Rattle.gs_term.specs.declared.patterns.Pattern.{Pattern as APattern};
ghost use Rattle.gs_event.specs.Solutions.{instances_of, ListsInstances};
ghost use Rattle.gs_event.specs.declared.events.Event.{Event as AnEvent};
ghost use Rattle.gs_event.specs.declared.answers.Answer.{Answer as AnAnswer};
ghost use Rattle.gs_event.specs.declared.updates.Op.{Op as AnOp};
ghost use Rattle.gs_event.specs.Datasets.{Dataset};
ghost use Rattle.gs_event.specs.Names.{new_name, IsLeastFree};
ghost use Rattle.gs_event.specs.Operations.{Operation, Setting};
ghost use Rattle.gs_event.specs.Verdicts.{IsDecided};
ghost use Rattle.gs_event.specs.Waste.{Shown};
ghost use Rattle.gs_event.specs.NodesInUse.{AddsUp, GoesOneWay, TakesFew, GivesBack};
ghost use Rattle.gs_event.specs.Histories.{Start, History};
ghost use Rattle.gs_event.specs.Continuing.{ViewGoesOn, PinsGoOn, StepsGoOn};

/// What is shown after one more answer that fits is the next view.
pub fn view_goes_on()
    ensures { (start : Start) (h : History) → ViewGoesOn start h }
{}

/// After one more answer that fits, the pins are the next ones.
pub fn pinned_goes_on()
    ensures { (start : Start) (h : History) (s : Shown) → PinsGoOn start h s }
{}

/// Steps from a value that shows what a legal history says make a legal history, and end in a
/// value that shows what it says.
pub fn steps_are_legal()
    ensures { (start : Start) (before : History) (s t : Shown) → StepsGoOn start before s t }
{}

/// The name that the store makes up for a request is free, and has the least number that is.
pub fn new_name_is_free()
    ensures { (base : List ℕ) (m : Dataset) (r : ℕ) → IsLeastFree base m r (new_name base m r) }
{}

/// What the counts decide of a PUT, a POST, a new graph, a PATCH or a DELETE is what the abstract
/// store says of it: its status, and the counts after it.
pub fn verdict_is_the_stores()
    ensures { (w : Setting) (m : Dataset) (commit : ℕ) (q : Operation) → IsDecided w m commit q }
{}

/// The instances that are found of some patterns in a graph are those under their solutions, and no
/// others.
pub fn instances_are_found()
    ensures { (g : Graph) (patterns : List APattern) → ListsInstances g patterns (instances_of g patterns) }
{}

/// The triples that a graph had and those that came are those that it has after an update and those
/// that went; an INSERT DATA takes none out, and a DELETE adds none.
pub fn updates_add_up()
    ensures sum { (g : Graph) (ops : List AnOp) → AddsUp g ops }
    ensures one_way { (g : Graph) (op : AnOp) → GoesOneWay g op }
{}

/// How many nodes and records a step takes into use: an Open at most one, a stage at most one for each of
/// its triples, a PUT that took effect none, a POST and a new graph at most 260 for each triple of the
/// upload, a PATCH at most 260 for each triple that comes or goes, and any other event none. What a
/// Reclaim frees is no more in use.
pub fn steps_take_few()
    ensures few { (old : Shown) (e : AnEvent) (a : AnAnswer) (new : Shown) → TakesFew old e a new }
    ensures back { (old : Shown) (n freed : ℕ) (left : Bool) (new : Shown) → GivesBack old n freed left new }
{}
