//! Which events take the turn of long reads.
use crate::steps::{Step, event};
use gs_core::Store;
use gs_door::Door;
use gs_event::{Answer, Event};
use gs_gates::TurnDoor;
use std::alloc::Global;
use std::sync::{Mutex, Wait};
use std::test::Fail;

/// A door that looks, as each event comes, whether the turn is taken.
#[derive(Drop)]
struct Probe<'a, D: Door> {
    turn: &'a Mutex<()>,
    door: D,
    is_taken: bool,
}

impl<'a, D: Door> Door for Probe<'a, D> {
    ghost Gives = { λ old e a new. D.Gives old.door e a new.door };

    fn event(&mut self, event: Event) -> Answer {
        self.is_taken = self.turn.try_lock().is_none();
        self.door.event(event)
    }
}

/// What a seat does, and whether it takes the turn: each piece that follows a piece does, also where it is
/// refused.
const STEPS: [(&str, Step, bool); 19] = [
    ("an upload opens", Step::Open, false),
    ("triples come", Step::Stage, false),
    ("the upload ends", Step::Commit, false),
    ("a read begins", Step::Pin, false),
    ("its first line", Step::Piece, false),
    ("its last line", Step::Piece, true),
    ("a line of no read", Step::Piece, true),
    ("a question", Step::Head, false),
    ("a line of no read after a question", Step::Piece, false),
    ("another read begins", Step::PinAll, false),
    ("the first line of all", Step::Piece, false),
    ("a question within the read", Step::HeadAll, false),
    ("the last line of all", Step::Piece, false),
    ("a third read begins", Step::Pin, false),
    ("its first line", Step::Piece, false),
    ("it is given up", Step::Cancel, false),
    ("a patch opens", Step::OpenPatch, false),
    ("it ends", Step::CommitPatch, false),
    ("a delete", Step::Delete, false),
];

/// Takes a step; whether the turn was taken meanwhile exactly where it is to be, and is given back.
fn is_right<R: Wait>(
    alloc: Global,
    turn: &Mutex<()>,
    door: &mut TurnDoor<'_, Probe<'_, Store>, R>,
    step: Step,
    is_due: bool,
) -> bool {
    let Ok(event) = event(alloc, 0, step) else {
        return false;
    };
    drop(door.event(event));
    door.door.is_taken == is_due && turn.try_lock().is_some()
}

/// The first step that takes the turn where it is not to, or does not where it is.
fn wrong_step<R: Wait>(
    alloc: Global,
    turn: &Mutex<()>,
    door: &mut TurnDoor<'_, Probe<'_, Store>, R>,
) -> Option<&'static str> {
    for (name, step, is_due) in &STEPS {
        if !is_right(alloc, turn, door, *step, *is_due) {
            return Some(name);
        }
    }
    None
}

/// Such a door to a store.
fn probed<'a, R: Wait>(
    rt: &'a R,
    turn: &'a Mutex<()>,
    door: Store,
) -> TurnDoor<'a, Probe<'a, Store>, R> {
    TurnDoor {
        rt,
        turn,
        is_reading: false,
        door: Probe {
            turn,
            door,
            is_taken: false,
        },
    }
}

/// The same at a new store.
fn wrong_turn<R: Wait>(rt: &R, alloc: Global) -> Option<&'static str> {
    let Ok(store) = Store::new(alloc, 1, "http://localhost") else {
        return Some("memory");
    };
    let turn = Mutex::new(());
    let mut door = probed(rt, &turn, store);
    let wrong = wrong_step(alloc, &turn, &mut door);
    let TurnDoor {
        rt: _,
        turn: _,
        is_reading: _,
        door: probe,
    } = door;
    drop(probe);
    wrong
}

#[test]
fn a_piece_that_follows_a_piece_takes_the_turn(rt: HostRuntime) -> Result<(), Fail> {
    assert_eq!(rt; wrong_turn(&rt, rt.alloc()), None);
    Ok(())
}
