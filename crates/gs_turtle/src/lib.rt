//! Bodies of Turtle, read in pieces that are cut anywhere.
#![tactic(auto)]

mod laws;
mod portions;
mod readers;

pub use laws::{body_is_read, faulty_body_is_read};
pub use readers::TurtleReader;
