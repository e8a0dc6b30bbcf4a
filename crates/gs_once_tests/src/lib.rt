//! Tests of runs: command lines with what they read, write and say.
#![tactic(auto)]

#[cfg(test)]
mod interruptions;
#[cfg(test)]
mod runs;
