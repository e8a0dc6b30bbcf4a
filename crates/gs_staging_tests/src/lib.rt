//! Tests of gs_staging: trees of uploads beside a plain list of their triples.
#![tactic(auto)]

#[cfg(test)]
mod drawn;
#[cfg(test)]
mod draws;
mod lists;
#[cfg(test)]
mod refusals;
#[cfg(test)]
mod rows;
mod uploads;

pub use lists::{listed, triple, triples};
pub use uploads::Upload;
