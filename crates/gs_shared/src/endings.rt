//! What is left of a shared store.
use crate::limits::{PAGE_ENTRIES, PAGE_TRIPLES};
use gs_audit::Audited;
use gs_pass::Record;

/// What is left of a shared store: the value that was locked, and what its passes were told.
#[derive(Drop)]
pub struct Ended {
    /// The store with its page.
    pub audited: Audited<PAGE_ENTRIES, PAGE_TRIPLES>,
    /// What each pass was told, in the order in which the passes came back.
    pub passes: Vec<Record>,
}
