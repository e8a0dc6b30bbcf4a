//! The triples of Turtle, which updates are to share: what they mean.
#![tactic(auto)]

mod laws;

pub use laws::{machine_reads_triples, triples_are_covered, triples_are_read};
