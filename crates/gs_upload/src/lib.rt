//! The reading of one upload's text, which comes in pieces.
#![tactic(auto)]

mod languages;
mod readers;
mod readings;

pub use languages::Language;
pub use readers::TextReader;
pub use readings::Reading;
