//! Tests of schedules: worked ones, texts that are fed to uploads, lines that are no commands, and reads
//! and writes that fail.
#![tactic(auto)]

#[cfg(test)]
mod cuts;
#[cfg(test)]
mod failures;
#[cfg(test)]
mod feeds;
#[cfg(test)]
mod schedules;
#[cfg(test)]
mod turtle;
