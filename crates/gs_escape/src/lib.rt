//! What the text of a token of Turtle means, where it has escapes.
#![tactic(auto)]

mod escapes;
mod forms;
mod laws;
mod runs;
mod tokens;
mod walks;

pub use laws::iri_has_iri_characters;
pub use tokens::{iri, local, parts, string};
