//! The door: one event in, one answer out.
#![tactic(auto)]

mod doors;

pub use doors::Door;
