//! The private tree of an upload: a piece of triples goes into it whole, or not at all.
#![tactic(auto)]

mod keys;
mod laws;
mod orders;
mod runs;
mod stages;

pub use laws::{nothing_is_staged, staged_has_a_key_for_each_triple, staged_outlasts_new_terms};
pub use orders::put_in_order;
pub use runs::run_of;
pub use stages::stage;
