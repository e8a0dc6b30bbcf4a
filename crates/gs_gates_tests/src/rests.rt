//! How long the reclaimer rests after a sweep, by clocks that are not the system's.
ghost use Rattle.std.specs.Prelude.{◌≡◌};

use gs_core::Store;
use gs_door::Door;
use gs_event::{Answer, Event};
use gs_gates::sweep_and_rest;
use std::alloc::Global;
use std::cell::Cell;
use std::io;
use std::test::Fail;
use std::time::{Clock, Duration};

/// A clock that goes on by so many nanoseconds with each look at it, or cannot be read. It notes the
/// rest that was taken last.
#[derive(Drop)]
struct Stepping {
    step: Option<u64>,
    now: Cell<u64>,
    rest: Cell<Option<Duration>>,
}

impl Clock for Stepping {
    fn monotonic(&self) -> io::Result<Duration> {
        let Some(step) = self.step else {
            return Err(io::Error::from(io::ErrorKind::Other));
        };
        let now = self.now.get();
        self.now.set(now.saturating_add(step));
        Ok(Duration::from_nanos(now))
    }

    fn since_1970(&self) -> io::Result<Duration> {
        self.monotonic()
    }

    fn sleep(&self, duration: Duration) {
        self.rest.set(Some(duration));
    }
}

/// How many nanoseconds a sweep takes by its clock, and how many the rest after it.
const RESTS: [(&str, Option<u64>, u64); 5] = [
    ("a sweep of no time", Some(0), 1_000_000),
    ("of 50 microseconds", Some(50_000), 1_000_000),
    ("of a millisecond", Some(1_000_000), 16_000_000),
    (
        "of an hour, as where a clock jumps",
        Some(3_600_000_000_000),
        200_000_000,
    ),
    ("a clock that cannot be read", None, 1_000_000),
];

/// Whether a sweep that takes so long is followed by such a rest.
fn is_right<D: Door>(door: &mut D, step: Option<u64>, rest: u64) -> bool {
    let clock = Stepping {
        step,
        now: Cell::new(0),
        rest: Cell::new(None),
    };
    sweep_and_rest(&clock, door);
    clock.rest.get() == Some(Duration::from_nanos(rest))
}

/// The first wrong rest.
fn wrong_row<D: Door>(door: &mut D) -> Option<&'static str> {
    for (name, step, rest) in &RESTS {
        if !is_right(door, *step, *rest) {
            return Some(name);
        }
    }
    None
}

/// The same, at a store in which there is nothing to free.
fn wrong_rest(alloc: Global) -> Option<&'static str> {
    let Ok(mut store) = Store::new(alloc, 1, "http://localhost") else {
        return Some("memory");
    };
    let wrong = wrong_row(&mut store);
    drop(store);
    wrong
}

/// A door at which each try to free nodes moves this clock on by so many nanoseconds. So often it says then
/// that there is more to free.
#[derive(Drop)]
struct Slow<'a, D: Door> {
    clock: &'a Stepping,
    takes: u64,
    more: u64,
    door: D,
}

impl<'a, D: Door> Door for Slow<'a, D> {
    ghost Gives = { λ old e a new. new ≡ new };

    fn event(&mut self, event: Event) -> Answer {
        match event {
            Event::Reclaim(most) => {
                drop(self.door.event(Event::Reclaim(most)));
                let now = self.clock.now.get();
                self.clock.now.set(now.saturating_add(self.takes));
                let has_more = self.more > 0;
                self.more = self.more.saturating_sub(1);
                Answer::Reclaimed(1, has_more)
            }
            other => self.door.event(other),
        }
    }
}

/// After how many tries a sweep goes on, how many nanoseconds each takes, and how many the rest after it.
const SWEEPS: [(&str, u64, u64, u64); 8] = [
    ("a sweep of no time", 0, 0, 1_000_000),
    ("of a sixteenth of a millisecond", 0, 62_500, 1_000_000),
    ("of a nanosecond more", 0, 62_501, 1_000_016),
    ("of a millisecond", 0, 1_000_000, 16_000_000),
    ("of three tries", 2, 1_000_000, 48_000_000),
    (
        "of a nanosecond less than the next one",
        0,
        12_499_999,
        199_999_984,
    ),
    ("of an eightieth of a second", 0, 12_500_000, 200_000_000),
    ("of an hour", 0, 3_600_000_000_000, 200_000_000),
];

/// Whether a sweep of such tries is followed by such a rest.
fn is_over_the_sweep<D: Door>(door: &mut Slow<'_, D>, more: u64, takes: u64, rest: u64) -> bool {
    let clock = door.clock;
    clock.rest.set(None);
    door.more = more;
    door.takes = takes;
    sweep_and_rest(clock, door);
    clock.rest.get() == Some(Duration::from_nanos(rest))
}

/// The first wrong rest.
fn wrong_sweep<D: Door>(door: &mut Slow<'_, D>) -> Option<&'static str> {
    for (name, more, takes, rest) in &SWEEPS {
        if !is_over_the_sweep(door, *more, *takes, *rest) {
            return Some(name);
        }
    }
    None
}

/// The same, at a store in which there is nothing to free.
fn wrong_measure(alloc: Global) -> Option<&'static str> {
    let Ok(door) = Store::new(alloc, 1, "http://localhost") else {
        return Some("memory");
    };
    let clock = Stepping {
        step: Some(0),
        now: Cell::new(0),
        rest: Cell::new(None),
    };
    let mut door = Slow {
        clock: &clock,
        takes: 0,
        more: 0,
        door,
    };
    let wrong = wrong_sweep(&mut door);
    drop(door);
    wrong
}

#[test]
fn a_rest_is_measured_over_its_sweep(rt: HostRuntime) -> Result<(), Fail> {
    assert_eq!(rt; wrong_measure(rt.alloc()), None);
    Ok(())
}

#[test]
fn a_rest_follows_each_sweep(rt: HostRuntime) -> Result<(), Fail> {
    assert_eq!(rt; wrong_rest(rt.alloc()), None);
    Ok(())
}
