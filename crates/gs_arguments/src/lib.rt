//! What the words of the server's command line ask for.
#![tactic(auto)]

mod laws;
mod options;
mod stops;
mod tasks;
mod words;

pub use laws::{lines_for_help, lines_that_are_bad, lines_that_listen, lines_that_serve};
pub use options::help;
pub use stops::Stop;
pub use tasks::{Task, read_task};
