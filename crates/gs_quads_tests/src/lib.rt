//! Tests of gs_quads: the lines of all graphs of a version, piece by piece, beside lines written by hand.
#![tactic(auto)]

mod calls;
#[cfg(test)]
mod many;
mod reads;
#[cfg(test)]
mod rows;
mod trees;

pub use calls::{all_made, put};
pub use reads::{can_read, pieces};
pub use trees::{Roots, two_trees};
