//! The steps of an upload: its body is read, what it gives is staged, and it is committed.
ghost use Rattle.std.specs.Prelude.{◌≡◌, ◌≤◌, ◌<◌, ◌++◌, ℕ, List, Bool, length, take};
ghost use Rattle.gs_event.specs.declared.events.Action.TheVariants as act;
ghost use Rattle.gs_transfer.specs.Cuts as cut;
ghost use Rattle.gs_transfer.specs.Views.{cut_of};
ghost use Rattle.gs_transfer.specs.declared.places.Transfer.{Transfer as ATransfer};
ghost use Rattle.gs_session.specs.declared.phases.Phase.TheVariants.{Serving};
ghost use Rattle.gs_session.specs.declared.phases.Work.TheVariants.{Uploading};
ghost use Rattle.gs_session.specs.Outcomes.{AfterStage, AfterCommit};
ghost use Rattle.gs_session.specs.Steps.{Does, GivesData, DoesStep};

use crate::buffers::Buffer;
use crate::cancels::{cancel, leave};
use crate::outcomes::{Next, after_commit, after_stage, silently};
use crate::phases::{Phase, Want, Work};
use crate::setups::Setup;
use crate::steps::Step;
use gs_door::Door;
use gs_event::Action;
use gs_transfer::{Part, Transfer};
use gs_triple_lists::TripleList;
use gs_upload::{Reading, TextReader};
use gs_verdict::Asked;

/// The reading of an upload's body.
pub type Upload = Reading<TextReader>;

/// What was read is staged; then the work goes on.
fn stage<D: Door>(
    setup: &Setup,
    asked: Asked,
    mut triples: TripleList,
    work: Work,
    door: &mut D,
) -> Next
    ensures { Does D.Gives setup.now.seat door.old (act.Stage triples) door.new
        (λ answer. AfterStage asked work answer result) }
{
    // The store takes them in any order, only slower, so a refusal is passed over.
    let _ = triples.put_in_order();
    let answer = setup.act(Action::Stage(triples), door);
    after_stage(setup.alloc, asked, work, &answer)
}

/// The upload is committed.
pub fn commit<D: Door>(setup: &Setup, asked: Asked, door: &mut D) -> Next
    ensures { Does D.Gives setup.now.seat door.old act.Commit door.new
        (λ answer. AfterCommit asked answer result) }
{
    let answer = setup.act(Action::Commit, door);
    after_commit(setup.alloc, asked, &answer)
}

/// So many bytes of data are read.
fn feed<D: Door>(
    setup: &Setup,
    input: &mut Buffer,
    count: usize,
    asked: Asked,
    mut reading: Upload,
    transfer: Transfer,
    door: &mut D,
) -> Step
    requires within { count ≤ length input.old }
    ensures { (e : Bool) (t : ATransfer) → 0 < count
        → GivesData t transfer input.old (take count input.old) count
        → DoesStep D.Gives setup.now e (Serving asked (Uploading reading t)) input.old door.old result input.new door.new }
{
    let mut triples = TripleList::new(setup.alloc);
    let fed = reading.feed(&input.as_slice()[..count], &mut triples);
    input.skip(count);
    match fed {
        Err(_) => {
            Work::Uploading(reading, transfer).give_back();
            Step::Silent(silently(
                setup.alloc,
                Phase::Serving(asked, Work::Failing(Want::Memory)),
            ))
        }
        Ok(()) => {
            let work = Work::Uploading(reading, transfer);
            if triples.is_empty() {
                Step::Silent(silently(setup.alloc, Phase::Serving(asked, work)))
            } else {
                Step::Made(stage(setup, asked, triples, work, door))
            }
        }
    }
}

/// The body is over: its last triples are staged, or the Commit is due, or the body has a fault.
fn finish<D: Door>(setup: &Setup, asked: Asked, reading: Upload, door: &mut D) -> Step
    ensures { (e : Bool) (b : List ℕ) (t : ATransfer)
        → ((y : List ℕ) → cut_of t (b ++ y) ≡ cut.ends (cut.Whole (b ++ y)))
        → DoesStep D.Gives setup.now e (Serving asked (Uploading reading t)) b door.old result b door.new }
{
    let mut triples = TripleList::new(setup.alloc);
    match reading.finish(&mut triples) {
        Err(_) => Step::Silent(silently(
            setup.alloc,
            Phase::Serving(asked, Work::Failing(Want::Memory)),
        )),
        Ok(Some(_)) => Step::Made(cancel(setup, 400, asked.closes, door)),
        Ok(None) => {
            if triples.is_empty() {
                Step::Silent(silently(setup.alloc, Phase::Serving(asked, Work::Committing)))
            } else {
                Step::Made(stage(setup, asked, triples, Work::Committing, door))
            }
        }
    }
}

/// The next bytes of an upload's body.
pub fn upload<D: Door>(
    setup: &Setup,
    input: &mut Buffer,
    ended: bool,
    asked: Asked,
    reading: Upload,
    mut transfer: Transfer,
    door: &mut D,
) -> Step
    ensures { DoesStep D.Gives setup.now ended (Serving asked (Uploading reading transfer))
        input.old door.old result input.new door.new }
{
    match transfer.next(input.as_slice()) {
        Part::Data(count) => feed(setup, input, count, asked, reading, transfer, door),
        Part::Passed(count) => {
            input.skip(count);
            Step::Silent(silently(
                setup.alloc,
                Phase::Serving(asked, Work::Uploading(reading, transfer)),
            ))
        }
        Part::End => finish(setup, asked, reading, door),
        Part::Fault(status) => {
            Work::Uploading(reading, transfer).give_back();
            Step::Made(cancel(setup, status, true, door))
        }
        Part::More => {
            if ended {
                Work::Uploading(reading, transfer).give_back();
                Step::Made(leave(setup, door))
            } else {
                Step::Wait(Phase::Serving(asked, Work::Uploading(reading, transfer)))
            }
        }
    }
}
