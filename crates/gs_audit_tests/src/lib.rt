//! Tests of a store with its page: worked rows on a page of four entries and six triples, as how many
//! triples long texts count, the entries of questions and reads of a graph and of the whole dataset and of
//! writes on condition, pages that are turned again and again, and what a refused request for memory
//! leaves.
#![tactic(auto)]

#[cfg(test)]
mod conditions;
#[cfg(test)]
mod patches;
#[cfg(test)]
mod refusals;
#[cfg(test)]
mod rows;
#[cfg(test)]
mod scopes;
#[cfg(test)]
mod sizes;
#[cfg(test)]
mod stores;
#[cfg(test)]
mod turns;
#[cfg(test)]
mod uploads;
