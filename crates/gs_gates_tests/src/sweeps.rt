//! That something is freed after each note, and a rest follows.
use crate::jobs::{Job, both};
use crossbeam_channel::{Receiver, Sender, bounded};
use gs_core::Store;
use gs_door::Door;
use gs_event::{Answer, Event};
use gs_gates::{Note, sweep_after};
use std::alloc::Global;
use std::cell::Cell;
use std::sync::Wait;
use std::test::Fail;
use std::thread::Threads;
use std::time::{Clock, Duration};
use std::{io, thread};

/// A door that counts how often it is asked to free 4,096 nodes.
#[derive(Drop)]
struct Counting<D: Door> {
    door: D,
    asked: u64,
}

impl<D: Door> Door for Counting<D> {
    ghost Gives = { λ old e a new. D.Gives old.door e a new.door };

    fn event(&mut self, event: Event) -> Answer {
        if matches!(event, Event::Reclaim(4_096)) {
            self.asked = self.asked.saturating_add(1);
        }
        self.door.event(event)
    }
}

/// Three notes, each after a rest, so that the reclaimer waits for it.
fn send_three<R: Wait + Clock>(rt: &R, to_reclaimer: Sender<Note>) {
    for _ in 0..3 {
        thread::sleep(rt, Duration::from_millis(20));
        let _ = to_reclaimer.send(rt, Note);
    }
}

/// How often the reclaimer asks, until no more notes can come.
fn asked<R: Wait + Clock>(rt: &R, notes: Receiver<Note>, store: Store) -> u64 {
    let mut door = Counting {
        door: store,
        asked: 0,
    };
    sweep_after(rt, notes, &mut door);
    let asked = door.asked;
    drop(door);
    asked
}

/// The reclaimer.
#[derive(Drop)]
struct Reclaimer<'a, R: Wait + Clock> {
    rt: &'a R,
    notes: Receiver<Note>,
    store: Store,
}

impl<'a, R: Wait + Clock> Job for Reclaimer<'a, R> {
    fn done(self) -> u64 {
        asked(self.rt, self.notes, self.store)
    }
}

/// A worker.
#[derive(Drop)]
struct Worker<'a, R: Wait + Clock> {
    rt: &'a R,
    to_reclaimer: Sender<Note>,
}

impl<'a, R: Wait + Clock> Job for Worker<'a, R> {
    fn done(self) -> u64 {
        send_three(self.rt, self.to_reclaimer);
        1
    }
}

/// How often it asks with three notes, at a store in which there is nothing to free; 0 where memory was
/// wanting.
fn asked_after_three<R: Threads + Wait + Clock + Sync>(rt: &R, alloc: Global) -> u64 {
    let Ok(store) = Store::new(alloc, 1, "http://localhost") else {
        return 0;
    };
    let Ok((to_reclaimer, notes)) = bounded(alloc, 1) else {
        drop(store);
        return 0;
    };
    let (times, _) = both(
        rt,
        Reclaimer { rt, notes, store },
        Worker { rt, to_reclaimer },
    );
    times
}

/// A clock that stands still, and sums up the rests.
#[derive(Drop)]
struct Resting<'a, R: Wait> {
    rt: &'a R,
    rested: Cell<Duration>,
}

impl<'a, R: Wait> Wait for Resting<'a, R> {}

impl<'a, R: Wait> Clock for Resting<'a, R> {
    fn monotonic(&self) -> io::Result<Duration> {
        Ok(Duration::ZERO)
    }

    fn since_1970(&self) -> io::Result<Duration> {
        Ok(Duration::ZERO)
    }

    fn sleep(&self, duration: Duration) {
        self.rested.set(self.rested.get().saturating_add(duration));
    }
}

/// A door that counts how often it is asked to free nodes after as many rests of a millisecond, the least
/// one, as it was asked before.
#[derive(Drop)]
struct Rested<'a, D: Door, R: Wait> {
    clock: &'a Resting<'a, R>,
    asked: u64,
    door: D,
}

impl<'a, D: Door, R: Wait> Door for Rested<'a, D, R> {
    ghost Gives = { λ old e a new. D.Gives old.door e a new.door };

    fn event(&mut self, event: Event) -> Answer {
        if matches!(event, Event::Reclaim(_))
            && self.clock.rested.get() == Duration::from_millis(self.asked)
        {
            self.asked = self.asked.saturating_add(1);
        }
        self.door.event(event)
    }
}

/// Three notes, as many as may wait, and no more can come.
fn three_notes<R: Wait>(rt: &R, alloc: Global) -> Option<Receiver<Note>> {
    let (to_reclaimer, notes) = bounded(alloc, 3).ok()?;
    for _ in 0..3 {
        let _ = to_reclaimer.try_send(rt, Note);
    }
    Some(notes)
}

/// What is wrong with three notes, at a store in which there is nothing to free: a sweep that does not come
/// when it should, or the rests in all.
fn wrong_part<R: Wait>(rt: &R, alloc: Global) -> Option<&'static str> {
    let Some(notes) = three_notes(rt, alloc) else {
        return Some("memory");
    };
    let Ok(door) = Store::new(alloc, 1, "http://localhost") else {
        drop(notes);
        return Some("memory");
    };
    let clock = Resting {
        rt,
        rested: Cell::new(Duration::ZERO),
    };
    let mut door = Rested {
        clock: &clock,
        asked: 0,
        door,
    };
    sweep_after(&clock, notes, &mut door);
    let asked = door.asked;
    drop(door);
    match asked {
        3 if clock.rested.get() == Duration::from_millis(3) => None,
        3 => Some("the last rest"),
        _ => Some("a sweep"),
    }
}

#[test]
fn each_sweep_is_followed_by_a_rest(rt: HostRuntime) -> Result<(), Fail> {
    assert_eq!(rt; wrong_part(&rt, rt.alloc()), None);
    Ok(())
}

#[test]
fn each_note_is_followed_by_a_sweep(rt: HostRuntime) -> Result<(), Fail> {
    assert_eq!(rt; asked_after_three(&rt, rt.alloc()), 3);
    Ok(())
}
