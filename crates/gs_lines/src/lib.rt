//! The next lines of a read: a piece of them from a cursor, and the cursor after it.
#![tactic(auto)]

mod laws;
mod lines;
mod pieces;

pub use laws::{all_lines_are_the_graphs, lines_outlast_changes};
pub use lines::add_lines;
pub use pieces::{Piece, add_keys, next_piece, room_for_keys};
