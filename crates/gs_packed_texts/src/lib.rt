//! Texts packed in memory: each by what it shares with texts that stood at its place before.
#![tactic(auto)]

mod blocks;
mod closed;
mod counts;
mod places;
mod readers;
#[cfg(test)]
mod tests;
mod texts;
mod windows;

pub use blocks::TextBlocks;
pub use closed::ClosedTexts;
pub use readers::{SplitText, Texts};
pub use texts::PackedTexts;
