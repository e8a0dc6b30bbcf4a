//! A version of a graph: the root of its tree, and a count of its triples.
#![tactic(auto)]

mod versions;

pub use versions::GraphVersion;
