//! Reading of texts for tests: a body in pieces of any size, and the lines of its triples.
#![tactic(auto)]

mod lines;
mod pieces;
pub mod turtle;

pub use lines::{graph_lines_of, lines_of};
pub use pieces::{SIZES, feed};
