//! What the words of a command line ask for, done over one connection of a graph store over HTTP.
#![tactic(auto)]

mod runs;
mod stops;

pub use gs_arguments::{Stop, Task, read_task};
pub use runs::{once, perform};
pub use stops::report;
