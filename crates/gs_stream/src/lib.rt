//! The requests of a stream of bytes: where a head ends, and what the bytes from there on are.
#![tactic(auto)]

mod heads;
mod laws;

pub use heads::{HeadEnd, find_head, leading};
pub use laws::{requests_go_on, settled_heads_stay};
