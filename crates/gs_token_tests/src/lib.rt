//! Tests of tokens: each terminal, texts and their tokens, what they mean, faults, and what is given of a piece.
#![tactic(auto)]

#[cfg(test)]
mod faults;
#[cfg(test)]
mod meanings;
#[cfg(test)]
mod pieces;
#[cfg(test)]
mod readings;
#[cfg(test)]
mod rows;
#[cfg(test)]
mod terminals;
#[cfg(test)]
mod texts;
