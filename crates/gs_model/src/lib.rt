//! The words that every crate shares: refusals, limits, and definitions over bytes and lists.
#![tactic(auto)]

mod faults;
mod laws;
mod limits;
mod refusals;

pub use faults::Fault;
pub use laws::{
    first_byte_gives_the_kind, graph_has_one_list, line_has_one_triple, text_has_no_line_feed,
    text_has_one_term,
};
pub use limits::{
    LAST_NODE, LAST_NUMBER, LAST_TERM, MAX_NAME_BYTES, MAX_NESTING, MAX_PATTERNS, MAX_SEATS,
    MAX_TERM_BYTES,
};
pub use refusals::{Refusal, memory_apart};
