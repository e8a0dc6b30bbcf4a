//! Tests of the reader of Turtle, through its public calls.
#![tactic(auto)]

#[cfg(test)]
mod amounts;
#[cfg(test)]
mod bodies;
#[cfg(test)]
mod characters;
#[cfg(test)]
mod cuts;
#[cfg(test)]
mod depths;
#[cfg(test)]
mod faults;
#[cfg(test)]
mod lengths;
#[cfg(test)]
mod refusals;
