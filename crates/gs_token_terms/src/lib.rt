//! The terms that tokens mean, under a base and prefixes.
#![tactic(auto)]

mod budgets;
mod buffers;
mod contexts;
mod iris;
mod lexical;
mod plain;
mod prefixes;
mod references;
mod symbols;
pub mod terms;
mod vocabulary;

pub use budgets::Budget;
pub use contexts::Context;
pub use symbols::{Symbol, TermToken, symbol_of_borrowed, symbol_of_token};
pub use vocabulary::{Datatype, rdf_first, rdf_nil, rdf_rest, rdf_type};
