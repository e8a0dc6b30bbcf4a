//! Tests of texts in both languages of bodies, and of refused requests for memory.
#![tactic(auto)]

#[cfg(test)]
mod bodies;
#[cfg(test)]
mod faults;
#[cfg(test)]
mod lengths;
#[cfg(test)]
mod refusals;
