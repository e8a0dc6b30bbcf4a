//! Entries of versions of graphs, by number, and a set of numbers in the order of their graphs.
#![tactic(auto)]

mod ages;
mod entries;
mod indexes;
mod sets;

pub use entries::Entry;
pub use indexes::Index;
