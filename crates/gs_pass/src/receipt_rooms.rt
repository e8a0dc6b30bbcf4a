//! Room for receipts.
ghost use Rattle.std.specs.Prelude.{◌≡◌, ◌≤◌, [], vec_capacity};

use crate::receipts::{MAX_RECEIPTS, Receipt};
use std::alloc::{AllocError, Global};

/// Room for the receipts of one pass, made before the pass is.
#[derive(Drop)]
pub struct ReceiptRoom {
    pub(crate) receipts: Vec<Receipt>,
    ghost empty: { receipts.items ≡ [] },
    ghost reserved: { 4096 ≤ vec_capacity receipts },
}

impl ReceiptRoom {
    /// Room for the receipts of one pass.
    pub fn new(alloc: Global) -> Result<ReceiptRoom, AllocError> {
        let receipts = Vec::with_capacity(alloc, MAX_RECEIPTS)?;
        Ok(ReceiptRoom { receipts })
    }
}
