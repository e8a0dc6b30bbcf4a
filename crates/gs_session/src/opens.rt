//! The step that opens an upload or a patch.
ghost use Rattle.std.specs.Prelude.{◌≡◌, ℕ, List, Bool};
ghost use Rattle.gs_event.specs.declared.events.Action.TheVariants as act;
ghost use Rattle.gs_talk.specs.Bodies.{document_language as language_of_type};
ghost use Rattle.gs_session.specs.declared.phases.Phase.TheVariants.{Serving};
ghost use Rattle.gs_session.specs.declared.phases.Work.TheVariants.{Opening};
ghost use Rattle.gs_session.specs.Outcomes.{ReceivesBody, AfterOpen, AfterOpenPatch};
ghost use Rattle.gs_session.specs.Steps.{Does, DoesStep};

use crate::heads::{greeting, transfer_of};
use crate::outcomes::{Next, after_refusal, reply};
use crate::phases::{Phase, Want, Work};
use crate::plans::{Plan, plan_of};
use crate::setups::Setup;
use crate::steps::Step;
use gs_door::Door;
use gs_event::{Action, Answer, UploadKind};
use gs_names::Media;
use gs_reply::ReplyNote;
use gs_term::Target;
use gs_upload::{Language, Reading};
use gs_verdict::Asked;

/// The language of a document's type.
fn language_of(media: Media) -> Language
    ensures { result ≡ language_of_type media }
{
    match media {
        Media::Turtle => Language::Turtle,
        _ => Language::NTriples,
    }
}

/// The reading of an upload's body is begun.
fn receive(setup: &Setup, asked: &Asked, request: u64, seed: u64) -> Work
    ensures { ReceivesBody setup.now.site asked.now request result }
{
    let base = setup.site.text_base(&asked.graph);
    match Reading::new(setup.alloc, language_of(asked.body), request, base, seed) {
        Ok(reading) => Work::Uploading(reading, transfer_of(asked)),
        Err(_) => Work::Failing(Want::Memory),
    }
}

/// An upload is opened, on the condition that the request has.
fn open_upload<D: Door>(
    setup: &Setup,
    asked: Asked,
    kind: UploadKind,
    since: Option<u64>,
    greeting: Vec<u8>,
    door: &mut D,
) -> Next
    ensures { Does D.Gives setup.now.seat door.old (act.Open kind since) door.new
        (λ answer. AfterOpen setup.now.site asked greeting.items answer result) }
{
    match setup.act(Action::Open(kind, since), door) {
        Answer::Opened(request) => {
            let work = receive(setup, &asked, request, door.seed());
            Next {
                phase: Phase::Serving(asked, work),
                said: greeting,
            }
        }
        answer => after_refusal(setup.alloc, &asked, &answer),
    }
}

/// A patch is opened, on such a condition.
fn open_patch<D: Door>(
    setup: &Setup,
    asked: Asked,
    target: Target,
    since: Option<u64>,
    greeting: Vec<u8>,
    door: &mut D,
) -> Next
    ensures { Does D.Gives setup.now.seat door.old (act.OpenPatch target since) door.new
        (λ answer. AfterOpenPatch asked greeting.items answer result) }
{
    match setup.act(Action::OpenPatch(target, since), door) {
        Answer::Opened(request) => {
            let transfer = transfer_of(&asked);
            let body = Vec::new(setup.alloc);
            Next {
                phase: Phase::Serving(asked, Work::Patching(request, body, transfer)),
                said: greeting,
            }
        }
        answer => after_refusal(setup.alloc, &asked, &answer),
    }
}

/// What a request's body is for is opened.
pub fn open<D: Door>(setup: &Setup, asked: Asked, door: &mut D) -> Step
    ensures { (e : Bool) (b : List ℕ)
        → DoesStep D.Gives setup.now e (Serving asked Opening) b door.old result b door.new }
{
    let Ok(greeting) = greeting(setup.alloc, asked.awaits_continue) else {
        return Step::Silent(reply(setup.alloc, 503, ReplyNote::Nothing, true));
    };
    match plan_of(&asked) {
        Ok(Plan::Upload(kind, since)) => {
            Step::Made(open_upload(setup, asked, kind, since, greeting, door))
        }
        Ok(Plan::Patch(target, since)) => {
            Step::Made(open_patch(setup, asked, target, since, greeting, door))
        }
        // There was no memory for the name. (Another plan opens nothing.)
        _ => Step::Silent(reply(setup.alloc, 503, ReplyNote::Nothing, true)),
    }
}
