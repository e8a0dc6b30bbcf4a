//! When a note is sent.
use crate::steps::{Step, event};
use crossbeam_channel::{Receiver, Sender, bounded};
use gs_core::Store;
use gs_door::Door;
use gs_event::{Answer, Event};
use gs_gates::{Note, NoteDoor, WAITING_NOTES};
use std::alloc::Global;
use std::sync::Wait;
use std::test::Fail;

/// A door that looks, as each event comes, whether a note was sent already.
#[derive(Drop)]
struct Watch<'a, D: Door, R: Wait> {
    rt: &'a R,
    notes: &'a Receiver<Note>,
    door: D,
    is_early: bool,
}

impl<'a, D: Door, R: Wait> Door for Watch<'a, D, R> {
    ghost Gives = { λ old e a new. D.Gives old.door e a new.door };

    fn event(&mut self, event: Event) -> Answer {
        if self.notes.try_recv(self.rt).is_ok() {
            self.is_early = true;
        }
        self.door.event(event)
    }
}

/// What a seat does, and whether a note follows. What is refused, as the seat does something else or
/// nothing, has none.
const STEPS: [(&str, Step, bool); 26] = [
    ("a commit of nothing", Step::Commit, false),
    ("an upload opens", Step::Open, false),
    ("triples come", Step::Stage, false),
    ("a delete within an upload", Step::Delete, false),
    ("the upload ends", Step::Commit, true),
    ("a read begins", Step::Pin, false),
    ("its first line", Step::Piece, false),
    ("its last line", Step::Piece, true),
    ("a line of no read", Step::Piece, false),
    ("another read begins", Step::Pin, false),
    ("it is given up", Step::Cancel, true),
    ("nothing is given up", Step::Cancel, false),
    ("a read of all graphs begins", Step::PinAll, false),
    ("the first line of all", Step::Piece, false),
    (
        "a question about all within their read",
        Step::HeadAll,
        false,
    ),
    ("the last line of all", Step::Piece, true),
    ("a line of no read of all", Step::Piece, false),
    ("another upload opens", Step::Open, false),
    ("it is given up, too", Step::Cancel, true),
    ("a patch opens", Step::OpenPatch, false),
    ("it ends", Step::CommitPatch, true),
    ("a patch of nothing", Step::CommitPatch, false),
    ("a question", Step::Head, false),
    ("a question about all", Step::HeadAll, false),
    ("a delete", Step::Delete, true),
    ("a question again", Step::Head, false),
];

/// Takes a step; whether a note follows exactly where one is due, and none came too early.
fn is_right<D: Door, R: Wait>(
    rt: &R,
    alloc: Global,
    notes: &Receiver<Note>,
    door: &mut NoteDoor<'_, Watch<'_, D, R>, R>,
    step: Step,
    is_due: bool,
) -> bool {
    let Ok(event) = event(alloc, 0, step) else {
        return false;
    };
    let _ = door.event(event);
    notes.try_recv(rt).is_ok() == is_due && !door.door.is_early
}

/// The first step with a note where none is due, with none where one is, or with one too early.
fn wrong_step<D: Door, R: Wait>(
    rt: &R,
    alloc: Global,
    notes: &Receiver<Note>,
    door: &mut NoteDoor<'_, Watch<'_, D, R>, R>,
) -> Option<&'static str> {
    for (name, step, is_due) in &STEPS {
        if !is_right(rt, alloc, notes, door, *step, *is_due) {
            return Some(name);
        }
    }
    None
}

/// Such a door to a store of one seat.
fn watched<'a, R: Wait>(
    rt: &'a R,
    alloc: Global,
    to_reclaimer: Sender<Note>,
    notes: &'a Receiver<Note>,
) -> Option<NoteDoor<'a, Watch<'a, Store, R>, R>> {
    let Ok(door) = Store::new(alloc, 1, "http://localhost") else {
        drop(to_reclaimer);
        return None;
    };
    Some(NoteDoor {
        rt,
        notes: to_reclaimer,
        door: Watch {
            rt,
            notes,
            door,
            is_early: false,
        },
    })
}

/// Lets go a door.
fn let_go<D: Door + Drop, R: Wait>(door: NoteDoor<'_, D, R>) {
    let NoteDoor { rt: _, notes, door } = door;
    drop(notes);
    drop(door);
}

/// The first wrong step at a store.
fn wrong_note<R: Wait>(rt: &R, alloc: Global) -> Option<&'static str> {
    let Ok((to_reclaimer, notes)) = bounded(alloc, 1) else {
        return Some("memory");
    };
    let Some(mut door) = watched(rt, alloc, to_reclaimer, &notes) else {
        return Some("memory");
    };
    let wrong = wrong_step(rt, alloc, &notes, &mut door);
    let_go(door);
    wrong
}

/// Whether a note is sent where one waited and was taken while the event was on its way.
fn is_sent_again<D: Door, R: Wait>(
    rt: &R,
    alloc: Global,
    notes: &Receiver<Note>,
    door: &mut NoteDoor<'_, Watch<'_, D, R>, R>,
) -> bool {
    let Ok(event) = event(alloc, 0, Step::Delete) else {
        return false;
    };
    let _ = door.notes.try_send(rt, Note);
    let _ = door.event(event);
    door.door.is_early && notes.try_recv(rt).is_ok()
}

/// The same, at a store.
fn is_followed_by_another<R: Wait>(rt: &R, alloc: Global) -> bool {
    let Ok((to_reclaimer, notes)) = bounded(alloc, 1) else {
        return false;
    };
    let Some(mut door) = watched(rt, alloc, to_reclaimer, &notes) else {
        return false;
    };
    let is_sent = is_sent_again(rt, alloc, &notes, &mut door);
    let_go(door);
    is_sent
}

/// Ends something a hundred times.
fn end_often<D: Door>(alloc: Global, door: &mut D) -> bool {
    for _ in 0..100 {
        let Ok(event) = event(alloc, 0, Step::Delete) else {
            return false;
        };
        let _ = door.event(event);
    }
    true
}

/// How many notes wait then, where nobody takes one.
fn notes_that_wait<R: Wait>(rt: &R, alloc: Global) -> Option<usize> {
    let (to_reclaimer, notes) = bounded(alloc, WAITING_NOTES).ok()?;
    let Ok(door) = Store::new(alloc, 1, "http://localhost") else {
        drop(to_reclaimer);
        drop(notes);
        return None;
    };
    let mut door = NoteDoor {
        rt,
        notes: to_reclaimer,
        door,
    };
    let is_done = end_often(alloc, &mut door);
    let_go(door);
    if is_done { Some(notes.len()) } else { None }
}

#[test]
fn one_note_stands_for_all_that_end(rt: HostRuntime) -> Result<(), Fail> {
    assert_eq!(rt; notes_that_wait(&rt, rt.alloc()), Some(1));
    Ok(())
}

#[test]
fn a_note_that_is_taken_before_the_end_is_followed_by_another(rt: HostRuntime) -> Result<(), Fail> {
    assert!(rt; is_followed_by_another(&rt, rt.alloc()));
    Ok(())
}

#[test]
fn a_note_follows_what_ends(rt: HostRuntime) -> Result<(), Fail> {
    assert_eq!(rt; wrong_note(&rt, rt.alloc()), None);
    Ok(())
}
