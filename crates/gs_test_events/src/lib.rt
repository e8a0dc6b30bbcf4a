//! Events of worked schedules, and their answers in words, for tests of stores.
#![tactic(auto)]

mod answers;
mod commands;
mod notation;

pub use answers::{answered, printed, words};
pub use commands::{event, events};
pub use notation::{lines, operations, patterns, triples};
