//! A store takes one event at a time; a run takes a list of them.
ghost use Rattle.std.specs.Prelude.{◌≡◌, IfOk, IfErr, OnErr};
ghost use Rattle.gs_event.specs.Runs.{Runs};

use gs_event::{Answer, Event};
use gs_model::Refusal;
use std::alloc::Global;

/// What takes one event at a time, and answers it.
pub trait EventStore {
    ghost use Rattle.gs_event.specs.declared.events.Event.{Event as AnEvent};
    ghost use Rattle.gs_event.specs.declared.answers.Answer.{Answer as AnAnswer};

    /// Which value comes after an event and its answer.
    ghost Takes: { Self → AnEvent → AnAnswer → Self → Type 0 };

    /// Takes one event.
    fn step(&mut self, event: &Event) -> Answer
        ensures takes { Takes self.old event.now result self.new };
}

/// Takes events in order. Room for all answers is made before the first event, so `NoMemory`
/// changes nothing.
pub fn run<S: EventStore>(
    alloc: Global,
    store: &mut S,
    events: &[Event],
) -> Result<Vec<Answer>, Refusal>
    ensures ran { IfOk result (λ answers. Runs S.Takes store.old events.now answers.items store.new) }
    ensures refused { IfErr result (λ refusal. refusal ≡ Refusal.NoMemory) }
    ensures kept { OnErr result (store.new ≡ store.old) }
{
    let Ok(mut answers) = Vec::with_capacity(alloc, events.len()) else {
        return Err(Refusal::NoMemory);
    };
    for event in events {
        let answer = store.step(event);
        answers.push_reserved(answer);
    }
    Ok(answers)
}
