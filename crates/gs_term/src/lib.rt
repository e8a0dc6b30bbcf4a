//! Terms, triples and the names of graphs: no value exists that is not one.
#![tactic(auto)]

mod literals;
mod names;
mod patterns;
mod terms;
mod triples;

pub use literals::XSD_STRING;
pub use names::{GraphName, Target};
pub use patterns::{Part, Pattern, VariableName};
pub use terms::TermText;
pub use triples::Triple;
