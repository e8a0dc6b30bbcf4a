//! Machines that turn symbols into outputs, stated once, and the first of them: from bytes to characters.
#![tactic(auto)]

mod decoder;
mod laws;

pub use decoder::{BAD, Decoder};
pub use laws::{text_has_one_longest_front, text_has_one_spelling};
