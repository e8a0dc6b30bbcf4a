//! Terms by number: two terms have one number exactly where they are equal.
#![tactic(auto)]

mod builders;
mod chains;
mod compaction;
mod dict;
mod numbers;

pub use builders::TermLinesBuilder;
pub use chains::GUESSED_TOGETHER;
pub use dict::Dict;
pub use numbers::{NO_TERM, TermId};
