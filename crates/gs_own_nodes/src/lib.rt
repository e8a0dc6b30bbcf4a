//! Laws of what bodies say: each blank node is one of the request that brought it.
#![tactic(auto)]

mod laws;

pub use laws::{documents_name_their_own, updates_name_their_own};
