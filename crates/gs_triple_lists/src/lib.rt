//! Lists of triples: each term mostly once, and three numbers a triple.
#![tactic(auto)]

mod candidates;
mod lists;
mod orders;
mod readers;
mod tables;

pub use lists::{TripleList, TripleNumbers};
pub use readers::{ListedTriple, ListedTriples};
