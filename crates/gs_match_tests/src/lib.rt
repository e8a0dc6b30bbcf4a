//! Tests of gs_match and gs_patch: what is left of a graph without the instances of patterns, and what
//! updates leave of it.
#![tactic(auto)]

#[cfg(test)]
mod drawn;
#[cfg(test)]
mod draws;
#[cfg(test)]
mod families;
#[cfg(test)]
mod large;
#[cfg(test)]
mod looked;
mod notation;
#[cfg(test)]
mod outcome;
#[cfg(test)]
mod rows;
mod trees;
#[cfg(test)]
mod update_rows;
mod update_trees;
mod updates;

pub use notation::{patterns, triples};
pub use trees::left_by;
pub use update_trees::is_left;
pub use updates::operations;
