//! The steps of a patch: its body is kept, read once it is whole, and its operations take effect.
ghost use Rattle.std.specs.Prelude.{◌≡◌, ◌≤◌, ◌<◌, ◌++◌, ℕ, List, Vec, Bool, length, take};
ghost use Rattle.std.specs.declared.alloc.Global.{Global as AGlobal};
ghost use Rattle.gs_event.specs.declared.events.Action.TheVariants as act;
ghost use Rattle.gs_transfer.specs.Cuts as cut;
ghost use Rattle.gs_transfer.specs.Views.{cut_of};
ghost use Rattle.gs_transfer.specs.declared.places.Transfer.{Transfer as ATransfer};
ghost use Rattle.gs_session.specs.declared.phases.Phase.TheVariants.{Serving};
ghost use Rattle.gs_session.specs.declared.phases.Work.TheVariants.{Patching};
ghost use Rattle.gs_session.specs.Outcomes.{AfterCommitPatch};
ghost use Rattle.gs_session.specs.Steps.{Does, GivesData, Rests, DoesStep};

use crate::buffers::Buffer;
use crate::cancels::{cancel, leave};
use crate::outcomes::{Next, after_commit_patch, silently};
use crate::phases::{Phase, Want, Work};
use crate::setups::Setup;
use crate::steps::Step;
use gs_door::Door;
use gs_event::{Action, Op};
use gs_model::Refusal;
use gs_transfer::{Part, Transfer};
use gs_update::read_update_seeded;
use gs_verdict::Asked;

/// So many bytes of data are kept.
fn keep(
    setup: &Setup,
    input: &mut Buffer,
    count: usize,
    asked: Asked,
    request: u64,
    mut body: Vec<u8>,
    transfer: Transfer,
) -> Step
    requires within { count ≤ length input.old }
    ensures { (e : Bool) (t : ATransfer) → 0 < count
        → GivesData t transfer input.old (take count input.old) count
        → Rests setup.now e (Serving asked (Patching request body t)) input.old result input.new }
{
    let kept = body.extend_from_slice(&input.as_slice()[..count]);
    input.skip(count);
    let work = match kept {
        Ok(()) => Work::Patching(request, body, transfer),
        Err(_) => Work::Failing(Want::Memory),
    };
    Step::Silent(silently(setup.alloc, Phase::Serving(asked, work)))
}

/// The operations of a patch take effect.
fn commit<D: Door>(setup: &Setup, asked: Asked, operations: Vec<Op>, door: &mut D) -> Next
    ensures { Does D.Gives setup.now.seat door.old (act.CommitPatch operations) door.new
        (λ answer. AfterCommitPatch asked answer result) }
{
    let answer = setup.act(Action::CommitPatch(operations), door);
    after_commit_patch(setup.alloc, asked, &answer)
}

/// The body is over: it is read, and takes effect, or it is no update that is served.
fn finish<D: Door>(setup: &Setup, asked: Asked, request: u64, body: &[u8], door: &mut D) -> Step
    ensures { (e : Bool) (b : List ℕ) (t : ATransfer) (v : Vec ℕ AGlobal) → v.items ≡ body.now
        → ((y : List ℕ) → cut_of t (b ++ y) ≡ cut.ends (cut.Whole (b ++ y)))
        → DoesStep D.Gives setup.now e (Serving asked (Patching request v t)) b door.old result b door.new }
{
    let base = setup.site.text_base(&asked.graph);
    match read_update_seeded(setup.alloc, request, base, door.seed(), body) {
        Ok(operations) => Step::Made(commit(setup, asked, operations, door)),
        Err(refusal) => match refusal {
            Refusal::NoMemory => Step::Silent(silently(
                setup.alloc,
                Phase::Serving(asked, Work::Failing(Want::Memory)),
            )),
            Refusal::NotInProfile => Step::Made(cancel(setup, 422, asked.closes, door)),
            _ => Step::Made(cancel(setup, 400, asked.closes, door)),
        },
    }
}

/// The next bytes of a patch's body.
pub fn patch<D: Door>(
    setup: &Setup,
    input: &mut Buffer,
    ended: bool,
    asked: Asked,
    request: u64,
    body: Vec<u8>,
    mut transfer: Transfer,
    door: &mut D,
) -> Step
    ensures { DoesStep D.Gives setup.now ended (Serving asked (Patching request body transfer))
        input.old door.old result input.new door.new }
{
    match transfer.next(input.as_slice()) {
        Part::Data(count) => keep(setup, input, count, asked, request, body, transfer),
        Part::Passed(count) => {
            input.skip(count);
            Step::Silent(silently(
                setup.alloc,
                Phase::Serving(asked, Work::Patching(request, body, transfer)),
            ))
        }
        Part::End => finish(setup, asked, request, body.as_slice(), door),
        Part::Fault(status) => Step::Made(cancel(setup, status, true, door)),
        Part::More => {
            if ended {
                Step::Made(leave(setup, door))
            } else {
                Step::Wait(Phase::Serving(asked, Work::Patching(request, body, transfer)))
            }
        }
    }
}
