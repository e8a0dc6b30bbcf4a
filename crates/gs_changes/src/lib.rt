//! What a commit does to the tree of one graph: keys go in and out, and all of it is kept or taken back.
#![tactic(auto)]

mod additions;
mod endings;
mod removals;

pub use additions::add_keys;
pub use endings::{free_tree, retire_replaced, take_back};
pub use removals::{HalfDone, Pruned, remove_all};
