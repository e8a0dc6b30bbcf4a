//! Two things that are done at the same time.
use std::io;
use std::thread::{Threads, join};

/// What is done beside something else.
pub trait Job {
    /// Does it, and counts what went well: where that is one thing, 1 or 0.
    fn done(self) -> u64;
}

/// Two jobs at the same time, and what each of them counts.
pub fn both<R: Threads, A: Job + Send + Drop, B: Job + Drop>(
    rt: &R,
    one: A,
    other: B,
) -> (u64, u64) {
    join(rt, move || one.done(), move || other.done())
}

/// 1 where all was as it must be.
pub fn one(right: io::Result<bool>) -> u64 {
    u64::from(matches!(right, Ok(true)))
}
