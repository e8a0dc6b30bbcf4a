//! A number that is told now and then.
ghost use Rattle.std.specs.Prelude.{◌≡◌};
ghost use Rattle.gs_gates.specs.Decisions as spec;

use crate::limits::silence;
use std::sync::atomic::{AtomicU64, Ordering};
use std::time::{Clock, Instant};

/// For how many nanoseconds a count goes on, one at least, since 0 stands for no time; one where the clock
/// could not be read.
fn age(start: Option<Instant>, now: Option<Instant>) -> u64
    ensures { result ≡ spec.age start now }
{
    let (Some(start), Some(now)) = (start, now) else {
        return 1;
    };
    let nanoseconds = now.duration_since(start).as_nanos();
    u64::try_from(nanoseconds).unwrap_or(u64::MAX).max(1)
}

/// Whether a number may be told now, after one was told at that time, or none, for which 0 stands.
fn may_tell(told: u64, now: u64) -> bool
    ensures { result ≡ spec.may_tell told now }
{
    told == 0 || u128::from(now.saturating_sub(told)) >= silence().as_nanos()
}

/// Counts what happens again and again, in any thread, and tells the number at once and then no more than
/// once a second. What was not told waits for the next time that it happens.
#[derive(Drop)]
pub struct Counter {
    /// Since when it counts; none where the clock could not be read.
    start: Option<Instant>,
    /// After how many nanoseconds from then on a number was told last, one at least; 0 where none was.
    told: AtomicU64,
    /// How often it happened since then.
    count: AtomicU64,
}

impl Counter {
    /// One that counts from now on.
    pub fn new<K: Clock>(clock: &K) -> Counter {
        Counter {
            start: Instant::now(clock).ok(),
            told: AtomicU64::new(0),
            count: AtomicU64::new(0),
        }
    }

    /// Whether a number may be told now, in this thread alone.
    fn is_due<K: Clock>(&self, clock: &K) -> bool {
        let now = age(self.start, Instant::now(clock).ok());
        let told = self.told.load(Ordering::SeqCst);
        may_tell(told, now)
            && self
                .told
                .compare_exchange(told, now, Ordering::SeqCst, Ordering::SeqCst)
                .is_ok()
    }

    /// It happens once more. How often it did since a number was told, where one is told now.
    pub fn count<K: Clock>(&self, clock: &K) -> Option<u64> {
        self.count.fetch_add(1, Ordering::SeqCst);
        if !self.is_due(clock) {
            return None;
        }
        let many = self.count.swap(0, Ordering::SeqCst);
        if many > 0 { Some(many) } else { None }
    }
}
