//! Bodies of N-Triples, read in pieces that are cut anywhere.
#![tactic(auto)]

mod characters;
mod closings;
mod cursor;
mod endings;
mod finals;
mod laws;
mod lines;
mod numbers;
mod parts;
mod reader;
mod runs;
mod tags;
mod taking;
mod wholes;

pub use laws::read_by_characters;
pub use reader::NTriplesReader;
