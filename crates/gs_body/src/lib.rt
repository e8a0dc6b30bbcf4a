//! What it means to read a body in pieces: the trait of the readers, its law, and a caller that stands on the law alone.
#![tactic(auto)]

mod bodies;
mod pieces;

pub use bodies::BodyReader;
pub use pieces::read_pieces;
