//! When a gate is called.
use crate::steps::{Step, event};
use gs_core::Store;
use gs_door::Door;
use gs_event::{Answer, Event};
use gs_gates::{Gate, GateDoor};
use std::alloc::Global;
use std::sync::atomic::{AtomicU64, Ordering};
use std::test::Fail;

/// Counts its calls, and those for another seat than the event's.
#[derive(Drop)]
struct Count {
    calls: AtomicU64,
    strange: AtomicU64,
}

impl Gate for Count {
    fn before(&self, seat: u16, event: &Event) {
        self.calls.fetch_add(1, Ordering::SeqCst);
        let is_own = match event {
            Event::Seat(own, _) => *own == seat,
            Event::Reclaim(_) => false,
        };
        if !is_own {
            self.strange.fetch_add(1, Ordering::SeqCst);
        }
    }
}

/// A door that looks, as each event comes, whether the gate was called exactly once for it.
#[derive(Drop)]
struct Behind<'a, D: Door> {
    gate: &'a Count,
    door: D,
    taken: u64,
    is_right: bool,
}

impl<'a, D: Door> Door for Behind<'a, D> {
    ghost Gives = { λ old e a new. D.Gives old.door e a new.door };

    fn event(&mut self, event: Event) -> Answer {
        self.taken = self.taken.saturating_add(1);
        if self.gate.calls.load(Ordering::SeqCst) != self.taken {
            self.is_right = false;
        }
        self.door.event(event)
    }
}

/// Each action once at least.
const STEPS: [(&str, Step); 15] = [
    ("open", Step::Open),
    ("stage", Step::Stage),
    ("commit", Step::Commit),
    ("pin", Step::Pin),
    ("first piece", Step::Piece),
    ("last piece", Step::Piece),
    ("pin all", Step::PinAll),
    ("cancel a read", Step::Cancel),
    ("open patch", Step::OpenPatch),
    ("commit patch", Step::CommitPatch),
    ("open again", Step::Open),
    ("cancel", Step::Cancel),
    ("head", Step::Head),
    ("head all", Step::HeadAll),
    ("delete", Step::Delete),
];

/// Takes a step of the second seat; whether the gate was called once for it, and in time, as for each
/// one before.
fn is_called<D: Door>(
    alloc: Global,
    door: &mut GateDoor<'_, Count, Behind<'_, D>>,
    step: Step,
) -> bool {
    let Ok(event) = event(alloc, 1, step) else {
        return false;
    };
    let _ = door.event(event);
    let calls = door.gate.calls.load(Ordering::SeqCst);
    door.gate.strange.load(Ordering::SeqCst) == 0 && calls == door.door.taken && door.door.is_right
}

/// The first step for which the gate was not called, or too late, twice, or for another seat.
fn wrong_step<D: Door>(
    alloc: Global,
    door: &mut GateDoor<'_, Count, Behind<'_, D>>,
) -> Option<&'static str> {
    for (name, step) in &STEPS {
        if !is_called(alloc, door, *step) {
            return Some(name);
        }
    }
    None
}

/// The same, at the second seat of a store.
fn wrong_call(alloc: Global) -> Option<&'static str> {
    let gate = Count {
        calls: AtomicU64::new(0),
        strange: AtomicU64::new(0),
    };
    let Ok(store) = Store::new(alloc, 2, "http://localhost") else {
        return Some("memory");
    };
    let mut door = GateDoor {
        gate: &gate,
        seat: 1,
        door: Behind {
            gate: &gate,
            door: store,
            taken: 0,
            is_right: true,
        },
    };
    let wrong = wrong_step(alloc, &mut door);
    let GateDoor {
        gate: _,
        seat: _,
        door,
    } = door;
    drop(door);
    wrong
}

#[test]
fn a_gate_is_called_before_each_event(rt: HostRuntime) -> Result<(), Fail> {
    assert_eq!(rt; wrong_call(rt.alloc()), None);
    Ok(())
}
