//! The numbers of the blank nodes of one body.
#![tactic(auto)]

mod laws;
mod numbering;
mod spreads;

pub use laws::numbered_by_first_appearance;
pub use numbering::Numbering;
