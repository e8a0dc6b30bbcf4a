//! One lock over a store with its page of history: passes, events, and the end.
#![tactic(auto)]

mod asked;
mod doors;
mod endings;
mod limits;
mod locked;
mod parts;
mod shared;
mod shared_stores;

pub use doors::PassDoor;
pub use endings::Ended;
pub use gs_pass::{CountedLedger, Pass, Receipt, Record, Room};
pub use limits::{PAGE_ENTRIES, PAGE_TRIPLES};
pub use parts::SharedParts;
pub use shared::{Shared, shared_parts};
pub use shared_stores::SharedStore;
