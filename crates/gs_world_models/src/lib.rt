//! A plain model of the protocol for a program that judges many connections: what writes make of graphs, and the
//! replies that are due.
#![tactic(auto)]

mod datasets;
mod dues;
mod replies;
mod rules;
mod states;

pub use datasets::{Dataset, Shown};
pub use dues::{Due, Reply};
pub use replies::{Showing, push_look, push_read, read_status, read_turns};
pub use rules::{Lie, Rules};
pub use states::{Asked, Effect, State};
