//! What each seat has open.
ghost use Rattle.std.specs.Prelude.{◌≡◌, map, true, false, IfSome};
ghost use Rattle.gs_small_triples.specs.Small.{small_triples};
ghost use Rattle.gs_chronicle.specs.KeptOps.{brings, kept_brings};
ghost use Rattle.gs_audit.specs.Forms.{staged_by, committed_by, counts, IsFormOf};
ghost use Rattle.gs_audit.specs.Slots.{slot_phase, slot_count, CanStage, CanTake, MayLack, NotesAction};

use crate::forms::Form;
use gs_chronicle::{KeptOp, OpenPatch, OpenUpload, Request};
use gs_event::{Action, Answer, Event};
use gs_small_triples::SmallTriples;
use std::alloc::Global;
use std::mem;

/// What a seat has open that a page will store once it is committed.
#[derive(Debug, Drop)]
pub enum Slot {
    /// Nothing, or a read.
    Empty,
    /// An upload, with what was staged.
    Upload(OpenUpload),
    /// A patch of a graph.
    Patch(OpenPatch),
}

/// The small form of the list that an event stages, if that is the form.
fn list_form(event: &Event, form: Option<Form>) -> Option<SmallTriples>
    requires { IfSome form (IsFormOf event.now) }
    ensures { IfSome result (λ s. small_triples s ≡ staged_by event.now) }
{
    match form {
        Some(Form::List(small)) => Some(small),
        _ => None,
    }
}

/// How the operations are kept that an event commits, if that is the form.
fn ops_form(event: &Event, form: Option<Form>) -> Option<Vec<KeptOp>>
    requires { IfSome form (IsFormOf event.now) }
    ensures { IfSome result (λ v. map kept_brings v.items ≡ map brings (committed_by event.now)) }
{
    match form {
        Some(Form::Ops(forms)) => Some(forms),
        _ => None,
    }
}

impl Slot {
    /// Makes room for what the event brings, which counts as so many triples, with its form where there is
    /// one. False where that was refused.
    pub fn make_room(&mut self, event: &Event, form: Option<Form>, count: usize) -> bool
        requires form { IfSome form (IsFormOf event.now) }
        requires count { count ≡ counts event.now }
        ensures phase { slot_phase self.new ≡ slot_phase self.old }
        ensures count { slot_count self.new ≡ slot_count self.old }
        ensures room { result ≡ true → CanTake self.new event.now }
        ensures refused { result ≡ false → MayLack (slot_phase self.old) event.now }
    {
        match self {
            Slot::Empty => true,
            Slot::Upload(upload) => match event {
                Event::Seat(_, Action::Stage(list)) => {
                    upload.make_room(list, list_form(event, form), count)
                }
                _ => true,
            },
            Slot::Patch(patch) => {
                patch.note_forms(ops_form(event, form), count);
                true
            }
        }
    }

    /// Takes note of an answer to an action, of which it takes what a page stores. What the call decided,
    /// and its status, if it decided anything.
    pub fn note(
        &mut self,
        alloc: Global,
        action: &mut Action,
        answer: &Answer,
    ) -> Option<(Request, u16)>
        requires { CanStage self.old action.old }
        ensures { NotesAction self.old action.old answer.now self.new result }
    {
        let (next, call) = after(mem::replace(self, Slot::Empty), alloc, action, answer);
        *self = next;
        call
    }
}

/// What a slot is after an answer to an action, and what the call decided. A list that goes to an open
/// upload stays with the action, and so do the triples of a patch that have a form.
fn after(
    slot: Slot,
    alloc: Global,
    action: &mut Action,
    answer: &Answer,
) -> (Slot, Option<(Request, u16)>)
    requires { CanStage slot action.old }
    ensures { NotesAction slot action.old answer.now result.0 result.1 }
{
    match slot {
        Slot::Empty => after_empty(alloc, mem::replace(action, Action::Cancel), answer),
        Slot::Upload(upload) => after_upload(upload, action, answer),
        Slot::Patch(patch) => after_patch(patch, action, answer),
    }
}

/// The same of an empty one.
fn after_empty(alloc: Global, action: Action, answer: &Answer) -> (Slot, Option<(Request, u16)>)
    ensures { NotesAction Slot.Empty action answer.now result.0 result.1 }
{
    match action {
        Action::Open(kind, since) => match answer {
            Answer::Opened(request) => {
                (
                    Slot::Upload(OpenUpload::new(alloc, kind, *request, since)),
                    None,
                )
            }
            _ => (Slot::Empty, None),
        },
        Action::OpenPatch(target, since) => match answer {
            Answer::Opened(request) => {
                (Slot::Patch(OpenPatch::new(target, *request, since)), None)
            }
            _ => (Slot::Empty, None),
        },
        Action::Delete(target, since) => match answer {
            Answer::Status(status, _, _) => {
                (Slot::Empty, Some((Request::Delete(target, since), *status)))
            }
            _ => (Slot::Empty, None),
        },
        Action::Head(scope) => match answer {
            Answer::Status(status, _, _) => (Slot::Empty, Some((Request::Head(scope), *status))),
            _ => (Slot::Empty, None),
        },
        Action::Pin(scope) => match answer {
            Answer::Pinned(status, _) => (Slot::Empty, Some((Request::Pin(scope), *status))),
            _ => (Slot::Empty, None),
        },
        Action::Stage(_)
        | Action::Commit
        | Action::CommitPatch(_)
        | Action::Piece(_)
        | Action::Cancel => (Slot::Empty, None),
    }
}

/// The same of one with an upload.
fn after_upload(
    mut upload: OpenUpload,
    action: &Action,
    answer: &Answer,
) -> (Slot, Option<(Request, u16)>)
    requires { CanStage (Slot.Upload upload) action.now }
    ensures { NotesAction (Slot.Upload upload) action.now answer.now result.0 result.1 }
{
    match action {
        Action::Stage(list) => match answer {
            Answer::Staged => {
                upload.stage(list);
                (Slot::Upload(upload), None)
            }
            _ => (Slot::Upload(upload), None),
        },
        Action::Commit => match answer {
            Answer::Status(status, _, _) => {
                (
                    Slot::Empty,
                    Some((Request::Upload(upload.closed()), *status)),
                )
            }
            _ => (Slot::Upload(upload), None),
        },
        Action::Cancel => match answer {
            Answer::Cancelled => (Slot::Empty, None),
            _ => (Slot::Upload(upload), None),
        },
        Action::Open(_, _)
        | Action::OpenPatch(_, _)
        | Action::CommitPatch(_)
        | Action::Delete(_, _)
        | Action::Head(_)
        | Action::Pin(_)
        | Action::Piece(_) => (Slot::Upload(upload), None),
    }
}

/// The same of one with a patch.
fn after_patch(
    patch: OpenPatch,
    action: &mut Action,
    answer: &Answer,
) -> (Slot, Option<(Request, u16)>)
    requires { CanStage (Slot.Patch patch) action.old }
    ensures { NotesAction (Slot.Patch patch) action.old answer.now result.0 result.1 }
{
    match action {
        Action::CommitPatch(ops) => match answer {
            Answer::Status(status, _, _) => {
                (
                    Slot::Empty,
                    Some((Request::Patch(patch.committed(ops)), *status)),
                )
            }
            _ => (Slot::Patch(patch), None),
        },
        Action::Cancel => match answer {
            Answer::Cancelled => (Slot::Empty, None),
            _ => (Slot::Patch(patch), None),
        },
        Action::Open(_, _)
        | Action::OpenPatch(_, _)
        | Action::Stage(_)
        | Action::Commit
        | Action::Delete(_, _)
        | Action::Head(_)
        | Action::Pin(_)
        | Action::Piece(_) => (Slot::Patch(patch), None),
    }
}
