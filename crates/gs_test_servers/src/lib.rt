//! A server on loopback to its end, and what clients say to it and hear, for the crates that test it.
#![tactic(auto)]

mod clients;
mod servings;
mod turns;

pub use clients::{ask, both_ends, connected, get, hears_made, hears_none, is_missing, put, say};
pub use servings::{Setup, listening, served, two_connected};
pub use turns::comes;
