//! Tests of sets of keys, as trees over a pool, beside a plain table of what is there.
#![tactic(auto)]

#[cfg(test)]
mod draws;
#[cfg(test)]
mod kept_roots;
mod number_sets;
#[cfg(test)]
mod orders;
#[cfg(test)]
mod outcome;
#[cfg(test)]
mod refusals;
#[cfg(test)]
mod runs;
#[cfg(test)]
mod steps;

pub use number_sets::{ByObject, NumberSet, key};
