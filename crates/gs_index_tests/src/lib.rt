//! Tests of the index of entries.
#![tactic(auto)]

#[cfg(test)]
mod ages;
#[cfg(test)]
mod entries;
#[cfg(test)]
mod places;
