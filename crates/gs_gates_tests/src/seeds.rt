//! A door has the seed of the one behind it.
ghost use Rattle.std.specs.Prelude.{◌≡◌};

use crossbeam_channel::{Receiver, Sender, bounded};
use gs_core::Store;
use gs_door::Door;
use gs_event::{Answer, Event};
use gs_gates::{GateDoor, Note, NoteDoor, OpenGate, TurnDoor};
use std::alloc::Global;
use std::sync::{Mutex, Wait};
use std::test::Fail;

/// A store with a seed.
#[derive(Drop)]
struct Seeded {
    store: Store,
    seed: u64,
}

impl Door for Seeded {
    ghost Gives = { λ old e a new. new ≡ new };

    fn event(&mut self, event: Event) -> Answer {
        self.store.event(event)
    }

    fn seed(&self) -> u64 {
        self.seed
    }
}

/// Lets the doors go.
fn let_go<R: Wait>(noted: NoteDoor<'_, GateDoor<'_, OpenGate, TurnDoor<'_, Seeded, R>>, R>) {
    let NoteDoor {
        rt: _,
        notes,
        door: gated,
    } = noted;
    let GateDoor {
        gate: _,
        seat: _,
        door: turned,
    } = gated;
    let TurnDoor {
        rt: _,
        turn: _,
        is_reading: _,
        door,
    } = turned;
    drop(notes);
    drop(door);
}

/// The seeds of a store, of one with this seed, and of the doors before that one.
fn seeds<R: Wait>(rt: &R, alloc: Global, seed: u64) -> Option<[u64; 5]> {
    let store = Store::new(alloc, 1, "http://localhost").ok()?;
    let first = store.seed();
    let (to_reclaimer, notes): (Sender<Note>, Receiver<Note>) = bounded(alloc, 1).ok()?;
    let seeded = Seeded { store, seed };
    let second = seeded.seed();
    let turn = Mutex::new(());
    let turned = TurnDoor {
        rt,
        turn: &turn,
        is_reading: false,
        door: seeded,
    };
    let third = turned.seed();
    let gate = OpenGate;
    let gated = GateDoor {
        gate: &gate,
        seat: 0,
        door: turned,
    };
    let fourth = gated.seed();
    let noted = NoteDoor {
        rt,
        notes: to_reclaimer,
        door: gated,
    };
    let fifth = noted.seed();
    let_go(noted);
    drop(notes);
    Some([first, second, third, fourth, fifth])
}

#[test]
fn a_door_has_the_seed_of_the_one_behind_it(rt: HostRuntime) -> Result<(), Fail> {
    assert_eq!(rt; seeds(&rt, rt.alloc(), 7), Some([0, 7, 7, 7, 7]));
    assert_eq!(rt; seeds(&rt, rt.alloc(), 11), Some([0, 11, 11, 11, 11]));
    Ok(())
}
