//! Turtle: what a document means.
#![tactic(auto)]

mod laws;

pub use laws::{
    document_has_one_meaning, document_is_read, fault_ends_the_longest_front,
    machine_reports_the_document,
};
