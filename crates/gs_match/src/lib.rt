//! The instances of patterns in the graph of a root, found by walking ranges of keys.
#![tactic(auto)]

mod arrangement;
mod candidates;
mod found;
mod ranges;
mod search;
mod seeds;
mod solved;
mod sought;

pub use search::{solve, solve_counted};
pub use solved::Solved;
