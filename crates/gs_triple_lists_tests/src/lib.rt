//! Tests of gs_triple_lists: which terms a list keeps once, what it gives in order, what it takes from
//! another, and what a refused request for memory leaves.
#![tactic(auto)]

#[cfg(test)]
mod buckets;
#[cfg(test)]
mod counts;
#[cfg(test)]
mod lists;
#[cfg(test)]
mod moves;
#[cfg(test)]
mod orders;
#[cfg(test)]
mod outcome;
#[cfg(test)]
mod refusals;
#[cfg(test)]
mod refused_moves;
#[cfg(test)]
mod rows;
