//! Texts in blocks that several may share, and lines of them that are put together later.
#![tactic(auto)]

mod blocks;
mod builders;
mod lines;
mod parts;
mod places;
mod sealed;
mod texts;

pub use builders::LinesBuilder;
pub use lines::Lines;
pub use places::Place;
pub use texts::Texts;
