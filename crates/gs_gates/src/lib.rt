//! What stands around the workers of a server: gates before their events, turns of long reads, notes after
//! events and the reclaimer whom these wake, the accept loop, the end of a connection, and how long is waited.
#![tactic(auto)]

mod accepting;
mod counters;
mod endings;
mod gates;
mod limits;
mod lingering;
mod notes;
mod reclaimers;
mod turns;

pub use accepting::accept_all;
pub use counters::Counter;
pub use gates::{Failure, Gate, GateDoor, OpenGate};
pub use limits::{
    ACCEPT_PAUSE_MILLISECONDS, IDLE_SECONDS, LINGER_SECONDS, PATIENCE_SECONDS, PLACES,
    RECLAIM_NODES, SHARE_MILLISECONDS, WAITING_NOTES, WAITING_PLACES, WAITING_STREAMS,
    WHOLE_SECONDS, idleness, patience, share, whole,
};
pub use lingering::{Others, linger};
pub use notes::{Note, NoteDoor};
pub use reclaimers::{reclaim, sweep_after, sweep_and_rest};
pub use turns::TurnDoor;
