//! The next lines of a read of all graphs: a piece of them from a place, and the place of its last line.
#![tactic(auto)]

mod laws;
mod lines;
mod pieces;
mod runs;
mod walks;

pub use laws::{
    all_quads_are_the_datasets, calls_keep_versions, lines_are_as_many_as_triples,
    pieces_are_all_lines, quads_outlast_changes,
};
pub use pieces::{QuadPiece, next_quads};
