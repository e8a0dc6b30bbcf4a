//! Laws of pages, proved: the body is empty, and the contract is the law.
ghost use Rattle.std.specs.Prelude.{ℕ};
ghost use Rattle.gs_event.specs.Operations.{Setting};
ghost use Rattle.gs_event.specs.Conditions.{State};
ghost use Rattle.gs_chronicle.specs.Pages.{Decided, PageView};
ghost use Rattle.gs_chronicle.specs.Replays.{ReplaysOn};

/// A page that replays to a state, with one more call that has the abstract store's status there,
/// replays to the state after it.
pub fn page_replays_on()
    ensures { (w : Setting) (start most_rows most_triples : ℕ) (p : PageView) (m : State) (d : Decided)
        → ReplaysOn w start most_rows most_triples p m d }
{}
