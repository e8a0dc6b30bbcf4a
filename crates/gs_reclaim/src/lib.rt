//! Giving back the nodes that no version needs.
#![tactic(auto)]

mod holders;
mod reclaims;
mod retiring;

pub use holders::follow_pins;
pub use reclaims::{Reclaimed, reclaim};
pub use retiring::retire_root;
