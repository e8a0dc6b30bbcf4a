//! One connection: the bytes of requests in, events and the bytes of replies out.
#![tactic(auto)]

mod bodies;
mod buffers;
mod cancels;
mod heads;
mod laws;
mod opens;
mod outcomes;
mod patches;
mod phases;
mod plans;
mod serving;
mod sessions;
mod setups;
mod sites;
mod steps;
mod uploads;
mod works;
mod writing;

pub use laws::{fronts_at_any_time, stores_are_legal, stores_fit, stores_rest};
pub use serving::{ServeFault, serve};
pub use sessions::{Session, Turn};
pub use writing::write_text;
