//! Tests of what stands around a worker: gates, notes, the reclaimer's sweeps and rests, accepts that fail,
//! and ends of connections; by stores, clocks and listeners of their own.
#![tactic(auto)]

#[cfg(test)]
mod accepts;
#[cfg(test)]
mod counters;
#[cfg(test)]
mod gates;
#[cfg(test)]
mod hearings;
mod jobs;
#[cfg(test)]
mod notes;
#[cfg(test)]
mod rests;
#[cfg(test)]
mod seeds;
#[cfg(test)]
mod steps;
#[cfg(test)]
mod sweeps;
#[cfg(test)]
mod turns;

pub use jobs::{Job, both, one};
