//! Tests of the parsers of Turtle and of triples, on the tokens of a text.
#![tactic(auto)]

#[cfg(test)]
mod blocks;
#[cfg(test)]
mod parsing;
