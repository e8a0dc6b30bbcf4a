//! Lines of N-Triples and of N-Quads in their canonical form.
#![tactic(auto)]

mod lines;

pub use lines::{line, quad_line};
