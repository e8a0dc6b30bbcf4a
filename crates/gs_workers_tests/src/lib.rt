//! Tests of one connection at a server on loopback, with clients of each kind.
#![tactic(auto)]

#[cfg(test)]
mod failures;
#[cfg(test)]
mod idlers;
#[cfg(test)]
mod paces;
#[cfg(test)]
mod partings;
#[cfg(test)]
mod refusals;
#[cfg(test)]
mod sleepers;
#[cfg(test)]
mod streams;
#[cfg(test)]
mod takers;
