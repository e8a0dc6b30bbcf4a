//! Tests of threads that share a store.
#![tactic(auto)]

#[cfg(test)]
mod bases;
#[cfg(test)]
mod heads;
#[cfg(test)]
mod lines;
#[cfg(test)]
mod seats;
#[cfg(test)]
mod turns;
