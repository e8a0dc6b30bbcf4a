//! Names that a store makes up: each is the name of a graph, and can be refused for want of memory alone.
#![tactic(auto)]

mod names;

pub use names::made_name;
