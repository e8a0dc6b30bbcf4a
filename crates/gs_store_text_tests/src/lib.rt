//! Tests of texts in a store: the lines of a read, packed triples, and names that a store makes up.
#![tactic(auto)]

#[cfg(test)]
mod lines;
#[cfg(test)]
mod made_names;
#[cfg(test)]
mod packed_triples;
