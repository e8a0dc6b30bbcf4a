//! The store over trees that all versions share, and that are freed under live readers.
#![tactic(auto)]

mod actions;
mod books;
mod commits;
mod drafts;
mod last_writes;
mod names;
mod patches;
mod posts;
mod reads;
mod storage;
mod stores;
mod sweeps;
mod uploads;
mod verdicts;
mod writes;

pub use storage::Storage;
pub use stores::TreeStore;
