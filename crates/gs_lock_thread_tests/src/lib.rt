//! Tests of a store that four threads share: a graph that all write is read whole, all graphs are read as
//! they were at one moment, no write on condition is lost, and the page that is left replays in a plain
//! model.
#![tactic(auto)]

#[cfg(test)]
mod counts;
#[cfg(test)]
mod models;
#[cfg(test)]
mod moments;
#[cfg(test)]
mod replays;
#[cfg(test)]
mod rounds;
#[cfg(test)]
mod threads;
#[cfg(test)]
mod uploads;
