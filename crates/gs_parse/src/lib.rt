//! The parser of Turtle, token by token.
#![tactic(auto)]

mod directives;
mod endings;
mod machine;
mod parser;
mod places;

pub use parser::Parser;
