//! Tests of IRIs: the examples of RFC 3986, references under other bases, and texts that are absolute or not.
#![tactic(auto)]

#[cfg(test)]
mod absolute;
#[cfg(test)]
mod resolving;
