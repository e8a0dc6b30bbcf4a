//! When a number of failures is told, by clocks that are not the system's.
use crate::jobs::{Job, both};
use gs_gates::Counter;
use std::cell::Cell;
use std::io;
use std::sync::atomic::{AtomicU64, Ordering};
use std::test::*;
use std::thread::Threads;
use std::time::{Clock, Duration};

/// A clock that stands where it was set, in milliseconds, or cannot be read.
#[derive(Drop)]
struct Still {
    now: Cell<Option<u64>>,
}

impl Clock for Still {
    fn monotonic(&self) -> io::Result<Duration> {
        match self.now.get() {
            Some(now) => Ok(Duration::from_millis(now)),
            None => Err(io::Error::from(io::ErrorKind::Other)),
        }
    }

    fn since_1970(&self) -> io::Result<Duration> {
        self.monotonic()
    }

    fn sleep(&self, _duration: Duration) {}
}

/// When something happens, and what is told then. It is counted from 5,000 on.
const TIMES: [(Option<u64>, Option<u64>); 12] = [
    (Some(5_000), Some(1)),
    (Some(5_000), None),
    (Some(5_999), None),
    (Some(6_001), Some(3)),
    (Some(6_500), None),
    (None, None),
    (Some(7_002), Some(3)),
    (Some(7_000), None),
    (Some(3_607_000), Some(2)),
    (Some(3_607_999), None),
    (None, None),
    (Some(3_608_000), Some(3)),
];

/// The first of these that is wrong.
fn wrong_time(start: Option<u64>, times: &[(Option<u64>, Option<u64>)]) -> Option<usize> {
    let clock = Still {
        now: Cell::new(start),
    };
    let counter = Counter::new(&clock);
    for (at, (now, told)) in times.iter().enumerate() {
        clock.now.set(*now);
        if counter.count(&clock) != *told {
            return Some(at);
        }
    }
    None
}

/// Where the clock could not be read at first, only the first is told.
const BLIND: [(Option<u64>, Option<u64>); 3] = [
    (None, Some(1)),
    (Some(5_000), None),
    (Some(9_000), None),
];

/// A clock that goes on by a millisecond with each look, in any thread.
#[derive(Drop)]
struct Ticking {
    looks: AtomicU64,
}

impl Clock for Ticking {
    fn monotonic(&self) -> io::Result<Duration> {
        Ok(Duration::from_millis(self.looks.fetch_add(1, Ordering::SeqCst)))
    }

    fn since_1970(&self) -> io::Result<Duration> {
        self.monotonic()
    }

    fn sleep(&self, _duration: Duration) {}
}

/// How often something happens in each of two threads: in twenty seconds of their clock, so that a number
/// is told at most at once and twenty times more.
const TIMES_EACH: u64 = 10_000;

const MOST_NUMBERS: u64 = 21;

/// One of these threads, and how many numbers are told.
#[derive(Drop)]
struct Failing<'a> {
    clock: &'a Ticking,
    counter: &'a Counter,
    numbers: &'a AtomicU64,
}

impl<'a> Job for Failing<'a> {
    // The sum of the numbers that are told in it.
    fn done(self) -> u64 {
        let mut sum = 0u64;
        for _ in 0..TIMES_EACH {
            if let Some(many) = self.counter.count(self.clock) {
                self.numbers.fetch_add(1, Ordering::SeqCst);
                sum = sum.saturating_add(many);
            }
        }
        sum
    }
}

/// What is wrong where two threads count: too many numbers are told, or they and the one that is told a second
/// later do not sum up to what happened.
fn wrong_sum<R: Threads + Sync>(rt: &R) -> Option<&'static str> {
    let looks = AtomicU64::new(0);
    let clock = Ticking { looks };
    let counter = Counter::new(&clock);
    let numbers = AtomicU64::new(0);
    let (clock, counter, numbers) = (&clock, &counter, &numbers);
    let one = Failing {
        clock,
        counter,
        numbers,
    };
    let other = Failing {
        clock,
        counter,
        numbers,
    };
    let (first, second) = both(rt, one, other);
    let sum = first.saturating_add(second);
    clock.looks.fetch_add(1_000, Ordering::SeqCst);
    let last = counter.count(clock).unwrap_or(0);
    if numbers.load(Ordering::SeqCst) > MOST_NUMBERS {
        Some("how many numbers are told")
    } else if sum.saturating_add(last) != 2 * TIMES_EACH + 1 {
        Some("the sum of the numbers")
    } else {
        None
    }
}

#[test]
fn two_threads_tell_each_failure_once(rt: HostRuntime) -> Result<(), Fail> {
    assert_eq!(rt; wrong_sum(&rt), None);
    Ok(())
}

#[test]
fn a_number_is_told_once_a_second(rt: HostRuntime) -> Result<(), Fail> {
    assert_eq!(rt; wrong_time(Some(5_000), &TIMES), None);
    assert_eq!(rt; wrong_time(None, &BLIND), None);
    Ok(())
}
