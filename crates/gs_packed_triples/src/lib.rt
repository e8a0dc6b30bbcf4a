//! Triples packed in memory, in the order in which they came.
#![tactic(auto)]

mod closed;
mod readers;
mod triples;

pub use closed::ClosedTriples;
pub use gs_packed_texts::SplitText;
pub use readers::{PackedTriple, UnpackedTriples};
pub use triples::PackedTriples;
