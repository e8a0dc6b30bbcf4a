//! Tests of HTTP: bodies out of their transfer, and the texts of replies.
#![tactic(auto)]

#[cfg(test)]
mod replays;
#[cfg(test)]
mod replies;
#[cfg(test)]
mod transfers;
