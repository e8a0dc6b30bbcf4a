//! The reader of updates (SPARQL 1.1 Update, 21 March 2013).
#![tactic(auto)]

mod parser;
mod readers;
mod tokens;

pub use readers::{read_update, read_update_seeded};
