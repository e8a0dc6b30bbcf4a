//! The run of a list of events over any store whose step is exact: proved once, for every store.
#![tactic(auto)]

mod runs;

pub use runs::{EventStore, run};
