//! The small form of a list of triples: its terms packed, each mostly once, and three numbers a triple.
#![tactic(auto)]

mod blocks;
mod numbers;
mod packings;
#[cfg(test)]
mod tests;
mod triples;

pub use blocks::FormBlocks;
pub use triples::SmallTriples;
