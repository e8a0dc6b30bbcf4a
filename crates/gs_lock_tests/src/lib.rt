//! Tests of a store that threads share: its answers are those of a store.
#![tactic(auto)]

#[cfg(test)]
mod answers;
