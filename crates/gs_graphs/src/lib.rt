//! A graph as a sorted list of triples, and what the operations of an update make of it.
#![tactic(auto)]

mod graphs;
mod solutions;
mod updates;

pub use graphs::SortedGraph;
pub use updates::update;
