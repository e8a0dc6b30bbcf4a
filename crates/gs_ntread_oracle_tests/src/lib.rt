//! Tests of the reader of N-Triples beside a plain reader, which reads a whole text by the grammar's productions.
#![tactic(auto)]

#[cfg(test)]
mod documents;
#[cfg(test)]
mod plain;
