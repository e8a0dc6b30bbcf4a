//! The number of commits, the versions that seats have pinned, and who needs a lifetime.
#![tactic(auto)]

mod versions;

pub use versions::{Versions, lies_in};
