//! Waits that end.
use std::sync::atomic::{AtomicU64, Ordering};
use std::thread;
use std::time::{Clock, Duration};

/// How many times one waits, each for a millisecond.
const TURNS: u32 = 10_000;

/// Whether so many were counted before the turns were over.
pub fn comes<K: Clock>(clock: &K, count: &AtomicU64, most: u64) -> bool {
    for _ in 0..TURNS {
        if count.load(Ordering::SeqCst) >= most {
            return true;
        }
        thread::sleep(clock, Duration::from_millis(1));
    }
    false
}
