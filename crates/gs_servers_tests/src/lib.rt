//! Tests of a whole server on loopback, with many clients at the same time.
#![tactic(auto)]

#[cfg(test)]
mod beginnings;
#[cfg(test)]
mod crowds;
#[cfg(test)]
mod leavers;
#[cfg(test)]
mod owners;
#[cfg(test)]
mod reclaims;
#[cfg(test)]
mod waits;
