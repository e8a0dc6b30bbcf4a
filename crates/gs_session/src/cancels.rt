//! The steps that give up what is open.
ghost use Rattle.std.specs.Prelude.{◌≡◌, ◌++◌, ℕ, List, Bool, true};
ghost use Rattle.gs_event.specs.declared.events.Action.TheVariants as act;
ghost use Rattle.gs_session.specs.Outcomes.{Stops, AfterCancel};
ghost use Rattle.gs_session.specs.Steps.{Does};

use crate::outcomes::{Next, after_cancel, stop};
use crate::setups::Setup;
use gs_door::Door;
use gs_event::Action;

/// What is open is cancelled, and the connection ends.
pub fn leave<D: Door>(setup: &Setup, door: &mut D) -> Next
    ensures { Does D.Gives setup.now.seat door.old act.Cancel door.new (λ answer. Stops result) }
{
    setup.act(Action::Cancel, door);
    stop(setup.alloc)
}

/// What is open is cancelled, and the reply says why.
pub fn cancel<D: Door>(setup: &Setup, status: u16, closes: bool, door: &mut D) -> Next
    ensures { Does D.Gives setup.now.seat door.old act.Cancel door.new
        (λ answer. AfterCancel status closes answer result) }
{
    let answer = setup.act(Action::Cancel, door);
    after_cancel(setup.alloc, status, closes, &answer)
}
