//! Plain graphs for a model of a store: sets of triples by number, what operations make of them, and the lines of all
//! graphs.
#![tactic(auto)]

mod finds;
mod graphs;
mod names;
mod sections;
mod sets;

pub use finds::edited;
pub use graphs::{Graph, Graphs};
pub use sections::{Cut, Section, quads_of};
pub use sets::Set;
