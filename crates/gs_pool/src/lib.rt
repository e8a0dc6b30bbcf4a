//! Nodes named by number, with lists through them: free, aside, retired.
#![tactic(auto)]

mod holds;
mod lists;
mod nodes;
mod places;
mod pools;
mod slots;
mod tails;

pub use nodes::{Key, Node, Retired};
pub use pools::Pool;
