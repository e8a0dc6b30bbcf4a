//! What a line of a schedule says.
#![tactic(auto)]

mod commands;
mod lines;
mod patches;
mod targets;
mod words;

pub use commands::{Command, read_command};
pub use words::split;
