//! Stamps of deciding calls.
use crate::receipts::Receipt;

/// A deciding call: its seat and its receipt. Proofs alone have values of it.
pub struct Stamp {
    pub seat: u64,
    pub receipt: Receipt,
}
