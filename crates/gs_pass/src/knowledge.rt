//! What is known of the stamps.
use crate::stamps::Stamp;
use std::collections::LinkedList;

/// What a token of the cell knows. Proofs alone have values of it.
pub struct Knowledge {
    /// Whether the token knows all stamps.
    pub keeps: bool,
    /// All stamps, the oldest first, where it does.
    pub all: LinkedList<Stamp>,
    /// Stamps that the token has set, each with its place among all of them.
    pub claims: LinkedList<(u64, Stamp)>,
}
