//! What a search gives.
use gs_pool::Key;

/// The keys that a search found, and how much it did for them.
#[derive(Drop)]
pub struct Solved {
    pub keys: Vec<Key>,
    /// How many keys it tried, or sought partners for, up to the greatest number of 64 bits. No clause
    /// speaks of it.
    pub looked: u64,
}
