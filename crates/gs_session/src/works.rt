//! One step of a session.
ghost use Rattle.gs_event.specs.declared.events.Action.TheVariants as act;
ghost use Rattle.gs_session.specs.declared.phases.Phase.TheVariants.{Serving};
ghost use Rattle.gs_session.specs.Outcomes.{AfterCancel, want_status, want_closes};
ghost use Rattle.gs_session.specs.Steps.{Does, DoesStep};

use crate::bodies::{send, skip};
use crate::buffers::Buffer;
use crate::cancels::{cancel, leave};
use crate::heads::next_head;
use crate::opens::open;
use crate::outcomes::Next;
use crate::patches::patch;
use crate::phases::{Phase, Want, Work};
use crate::setups::Setup;
use crate::steps::Step;
use crate::uploads::{commit, upload};
use gs_door::Door;
use gs_verdict::Asked;

/// What there is no more of, the reply says, once what is open is cancelled.
fn fail<D: Door>(setup: &Setup, asked: &Asked, want: Want, door: &mut D) -> Next
    ensures { Does D.Gives setup.now.seat door.old act.Cancel door.new
        (λ answer. AfterCancel (want_status want) (want_closes asked.now want) answer result) }
{
    match want {
        Want::Memory => cancel(setup, 503, true, door),
        Want::Numbers => cancel(setup, 507, asked.closes, door),
    }
}

/// One step of a request that is served.
fn work<D: Door>(
    setup: &Setup,
    input: &mut Buffer,
    ended: bool,
    asked: Asked,
    work: Work,
    door: &mut D,
) -> Step
    ensures { DoesStep D.Gives setup.now ended (Serving asked work) input.old door.old
        result input.new door.new }
{
    match work {
        Work::Opening => open(setup, asked, door),
        Work::Skipping(transfer) => skip(setup, input, ended, asked, transfer, door),
        Work::Uploading(reading, transfer) => {
            upload(setup, input, ended, asked, reading, transfer, door)
        }
        Work::Committing => Step::Made(commit(setup, asked, door)),
        Work::Patching(request, body, transfer) => {
            patch(setup, input, ended, asked, request, body, transfer, door)
        }
        Work::Failing(want) => Step::Made(fail(setup, &asked, want, door)),
        Work::Sending => Step::Made(send(setup, asked, Vec::new(setup.alloc), door)),
        Work::Cutting => Step::Made(leave(setup, door)),
    }
}

/// One step: at most one event.
pub fn step<D: Door>(
    setup: &Setup,
    input: &mut Buffer,
    ended: bool,
    phase: Phase,
    door: &mut D,
) -> Step
    ensures { DoesStep D.Gives setup.now ended phase input.old door.old result input.new door.new }
{
    match phase {
        Phase::Between => next_head(setup, input),
        Phase::Serving(asked, now) => work(setup, input, ended, asked, now, door),
        Phase::Over => Step::Wait(Phase::Over),
    }
}
