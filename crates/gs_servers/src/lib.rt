//! A server, from its first connection to its last: it accepts connections, workers serve them, and one
//! thread reclaims.
#![tactic(auto)]

mod channels;
mod promises;
mod servers;

pub use gs_gates::{Counter, Failure, Gate, OpenGate};
pub use gs_shared::Ended;
pub use gs_workers::ServicePlan;
pub use servers::{serve_all, serve_within};
