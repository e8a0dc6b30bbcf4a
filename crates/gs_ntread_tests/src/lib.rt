//! Tests of the reader of N-Triples, through its public calls.
#![tactic(auto)]

#[cfg(test)]
mod bodies;
#[cfg(test)]
mod cuts;
