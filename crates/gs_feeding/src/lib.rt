//! What is fed to an upload: one text, in one language, under the base of its graph.
#![tactic(auto)]

mod openings;
mod texts;

pub use openings::Opening;
pub use texts::SeatText;
