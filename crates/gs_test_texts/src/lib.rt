//! Texts of examples: the bytes that a line writes, and the line in which two texts differ.
#![tactic(auto)]

mod texts;

pub use texts::{other_line, push_bytes};
