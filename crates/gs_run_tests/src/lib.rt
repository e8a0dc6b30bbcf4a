//! Tests of whole runs: the events of worked schedules, given at once to two stores.
#![tactic(auto)]

#[cfg(test)]
mod conditions;
#[cfg(test)]
mod draws;
#[cfg(test)]
mod limits;
#[cfg(test)]
mod patches;
#[cfg(test)]
mod removals;
#[cfg(test)]
mod runs;
