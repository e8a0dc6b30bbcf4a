//! Tests of gs_changes: what a commit makes of a small set, kept or taken back, beside plain lists.
#![tactic(auto)]

mod commits;
#[cfg(test)]
mod rows;

pub use commits::{Trial, comes_back, is_kept, is_left_alone};
