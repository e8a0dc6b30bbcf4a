//! What the triples of any language are made of: the values of tokens, under a base and prefixes.
#![tactic(auto)]

mod allowed;
mod kinds;
mod languages;
mod patterns;
mod pending;
pub mod terms;
mod triple_terms;
pub mod values;

pub use allowed::Allowed;
pub use gs_token_terms::{
    Budget, Context, Datatype, Symbol, TermToken, rdf_nil, symbol_of_borrowed, symbol_of_token,
};
pub use kinds::{Subject, Verb};
pub use languages::Language;
pub use patterns::Patterns;
pub use pending::{Pending, put, put_end, put_first, put_last, put_rest};
pub use triple_terms::Terms;
