//! A store with a page of its history, which replays to the state of the store.
#![tactic(auto)]

mod audited;
mod forms;
mod slots;
mod takes;

pub use audited::Audited;
pub use forms::{Form, count_of};
