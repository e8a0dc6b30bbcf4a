//! Sets of keys as balanced trees over a pool: young nodes are written in place, older ones copied.
#![tactic(auto)]

mod balance;
mod orders;
mod reading;
mod removals;
mod room;
mod unions;

pub use orders::{KeyOrder, is_rising};
pub use reading::{after, contains, count, next_keys};
pub use removals::remove;
pub use unions::{Merged, build, insert, union};
