//! Blocks of memory that are used again.
#![tactic(auto)]

mod blocks;
#[cfg(test)]
mod tests;

pub use blocks::SpareBlocks;
