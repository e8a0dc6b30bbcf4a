//! IRIs: which texts are absolute, and what a reference means under a base.
#![tactic(auto)]

mod absolute;
mod dots;
mod laws;
mod references;
mod resolving;

pub use absolute::{are_iri_bytes, is_absolute, is_letter, is_scheme_char};
pub use laws::{absolute_by_characters, absolute_is, parts_rejoin, resolved_is_absolute};
pub use resolving::{resolve, resolve_under};
