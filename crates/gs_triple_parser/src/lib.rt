//! The parser of triples, token by token, for any language of triples.
#![tactic(auto)]

mod closings;
mod counts;
mod endings;
mod frames;
mod goals;
mod objects;
mod openings;
mod parser;
mod places;
mod scopes;
mod stacks;
mod steps;

pub use parser::{TripleParser, Turn};
pub use scopes::Scope;
