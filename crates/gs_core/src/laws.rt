//! A law of the door of a store, proved: the body is empty, and the contract is the law.
ghost use Rattle.std.specs.Prelude.{◌↔◌};
ghost use Rattle.gs_event.specs.declared.events.Event.{Event as AnEvent};
ghost use Rattle.gs_event.specs.declared.answers.Answer.{Answer as AnAnswer};
ghost use Rattle.gs_event.specs.Steps.{Steps};
ghost use Rattle.gs_event.specs.Waste.{Shown};

use crate::stores::Store;
use gs_door::Door;

/// For the door that a store is to itself, `Gives` holds exactly where `Steps` of the abstract store
/// does.
pub fn store_door_takes_steps()
    ensures { (old : Shown) (e : AnEvent) (a : AnAnswer) (new : Shown)
        → ⟦<Store as Door>⟧.Gives old e a new ↔ Steps old e a new }
{}
