//! What a connection asks of a store.
use gs_event::{Answer, Event};

/// What takes one event at a time, and answers it: a store, or a way to one that others use too.
pub trait Door {
    ghost use Rattle.gs_event.specs.declared.events.Event.{Event as AnEvent};
    ghost use Rattle.gs_event.specs.declared.answers.Answer.{Answer as AnAnswer};
    ghost use Rattle.gs_door.specs.Kinds.{IsOfKind};

    /// From one state this answer to this event may come, and then the other state is.
    ghost Gives: { Self → AnEvent → AnAnswer → Self → Type 0 };

    /// Takes one event, and answers it. A refused event is dropped, with its lists.
    fn event(&mut self, event: Event) -> Answer
        ensures gives { Gives self.old event result self.new }
        ensures kind { IsOfKind event result };

    /// The seed under which readers hash labels of blank nodes: a number that strangers do not know, or 0
    /// where there is none. It shows in nothing but time.
    fn seed(&self) -> u64 {
        0
    }
}
