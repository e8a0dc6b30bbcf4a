//! The steps of a request whose body is dropped: a removal, a look or a read.
ghost use Rattle.std.specs.Prelude.{◌≡◌, ◌++◌, ℕ, List, Bool};
ghost use Rattle.gs_event.specs.declared.events.Action.TheVariants as act;
ghost use Rattle.gs_transfer.specs.Cuts as cut;
ghost use Rattle.gs_transfer.specs.Views.{cut_of};
ghost use Rattle.gs_transfer.specs.declared.places.Transfer.{Transfer as ATransfer};
ghost use Rattle.gs_session.specs.declared.phases.Phase.TheVariants.{Serving};
ghost use Rattle.gs_session.specs.declared.phases.Work.TheVariants.{Skipping};
ghost use Rattle.gs_session.specs.Outcomes.{AfterDelete, AfterLook, AfterPin, AfterPiece};
ghost use Rattle.gs_session.specs.Steps.{Does, DoesStep};

use crate::buffers::Buffer;
use crate::outcomes::{
    Next, after_delete, after_look, after_piece, after_pin, reply, silently, stop,
};
use crate::phases::{Phase, Work};
use crate::plans::{Plan, plan_of};
use crate::setups::Setup;
use crate::steps::Step;
use gs_door::Door;
use gs_event::{Action, Scope};
use gs_reply::ReplyNote;
use gs_term::Target;
use gs_transfer::{Part, Transfer};
use gs_verdict::Asked;

/// A graph is removed, on the condition that the request has.
fn delete<D: Door>(
    setup: &Setup,
    asked: &Asked,
    target: Target,
    since: Option<u64>,
    door: &mut D,
) -> Next
    ensures { Does D.Gives setup.now.seat door.old (act.Delete target since) door.new
        (λ answer. AfterDelete asked.now answer result) }
{
    let answer = setup.act(Action::Delete(target, since), door);
    after_delete(setup.alloc, asked, &answer)
}

/// A graph is looked at, or all are.
fn look<D: Door>(setup: &Setup, asked: &Asked, scope: Scope, door: &mut D) -> Next
    ensures { Does D.Gives setup.now.seat door.old (act.Head scope) door.new
        (λ answer. AfterLook asked.now answer result) }
{
    let answer = setup.act(Action::Head(scope), door);
    after_look(setup.alloc, asked, &answer)
}

/// A read of a graph begins, or of all of them.
fn pin<D: Door>(setup: &Setup, asked: Asked, scope: Scope, door: &mut D) -> Next
    ensures { Does D.Gives setup.now.seat door.old (act.Pin scope) door.new
        (λ answer. AfterPin asked answer result) }
{
    let answer = setup.act(Action::Pin(scope), door);
    after_pin(setup.alloc, asked, &answer)
}

/// The body is over: what the request asks for is asked of the store.
fn ask<D: Door>(setup: &Setup, asked: Asked, door: &mut D) -> Step
    ensures { (e : Bool) (b : List ℕ) (t : ATransfer)
        → ((y : List ℕ) → cut_of t (b ++ y) ≡ cut.ends (cut.Whole (b ++ y)))
        → DoesStep D.Gives setup.now e (Serving asked (Skipping t)) b door.old result b door.new }
{
    match plan_of(&asked) {
        Ok(Plan::Delete(target, since)) => {
            Step::Made(delete(setup, &asked, target, since, door))
        }
        Ok(Plan::Look(scope)) => Step::Made(look(setup, &asked, scope, door)),
        Ok(Plan::Read(scope)) => Step::Made(pin(setup, asked, scope, door)),
        // There was no memory for the name. (Another plan never drops its body.)
        _ => Step::Silent(reply(setup.alloc, 503, ReplyNote::Nothing, true)),
    }
}

/// The next bytes of a body that is dropped.
pub fn skip<D: Door>(
    setup: &Setup,
    input: &mut Buffer,
    ended: bool,
    asked: Asked,
    mut transfer: Transfer,
    door: &mut D,
) -> Step
    ensures { DoesStep D.Gives setup.now ended (Serving asked (Skipping transfer))
        input.old door.old result input.new door.new }
{
    match transfer.next(input.as_slice()) {
        Part::Data(count) | Part::Passed(count) => {
            input.skip(count);
            Step::Silent(silently(setup.alloc, Phase::Serving(asked, Work::Skipping(transfer))))
        }
        Part::End => ask(setup, asked, door),
        Part::Fault(status) => Step::Silent(reply(setup.alloc, status, ReplyNote::Nothing, true)),
        Part::More => {
            if ended {
                Step::Silent(stop(setup.alloc))
            } else {
                Step::Wait(Phase::Serving(asked, Work::Skipping(transfer)))
            }
        }
    }
}

/// The next piece of a read. What was due is said before it.
pub fn send<D: Door>(setup: &Setup, asked: Asked, due: Vec<u8>, door: &mut D) -> Next
    ensures { Does D.Gives setup.now.seat door.old (act.Piece setup.now.piece) door.new
        (λ answer. AfterPiece asked due.items answer result) }
{
    let answer = setup.act(Action::Piece(setup.piece), door);
    after_piece(setup.alloc, asked, due, answer)
}
