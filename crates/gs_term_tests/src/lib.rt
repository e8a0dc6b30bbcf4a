//! Tests of characters and terms: the ends of ranges, canonical texts, the longest terms and terms of wrong form.
#![tactic(auto)]

#[cfg(test)]
mod characters;
#[cfg(test)]
mod names;
#[cfg(test)]
mod terms;
