//! The plain store: whole sorted sets of triples, each version of a graph kept.
#![tactic(auto)]

mod actions;
mod books;
mod last_writes;
mod names;
mod patches;
mod quads;
mod reads;
mod stores;
mod verdicts;
mod writes;

pub use stores::PlainStore;
