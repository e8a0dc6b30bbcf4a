//! Requests for tests, drawn by a seed: what each asks, and the bytes that say it.
#![tactic(auto)]

mod documents;
mod draws;
mod generator;
mod letters;
mod requests;
mod triples;

pub use draws::Draws;
pub use generator::drawn_request;
pub use requests::{DEFAULT, Deed, Edit, GRAPHS, Method, Request, Write};
pub use triples::{POOL, Triples};
