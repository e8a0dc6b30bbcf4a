//! Tests of storage: terms by number, nodes and pins, each beside a plain model of lists.
#![tactic(auto)]

#[cfg(test)]
mod buckets;
#[cfg(test)]
mod draws;
#[cfg(test)]
mod holds;
#[cfg(test)]
mod lengths;
#[cfg(test)]
mod lines;
#[cfg(test)]
mod nodes;
#[cfg(test)]
mod outcome;
#[cfg(test)]
mod pins;
#[cfg(test)]
mod refusals;
#[cfg(test)]
mod sweeps;
#[cfg(test)]
mod terms;
