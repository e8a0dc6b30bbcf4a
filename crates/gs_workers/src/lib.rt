//! A worker of a server: it serves one connection after the other, by a plan, through its own pass.
#![tactic(auto)]

mod attending;
mod heads;
mod lines;
mod plans;
mod queues;
mod states;
mod ways;
mod workers;

pub use attending::attend;
pub use plans::ServicePlan;
pub use queues::{Queue, Waiting};
pub use workers::{limit_waits, work};
