//! What the operations of an update make of a graph's tree, by copies: all of it, or nothing.
#![tactic(auto)]

mod known;
mod operations;
mod patches;

pub use patches::{Draft, patch};
