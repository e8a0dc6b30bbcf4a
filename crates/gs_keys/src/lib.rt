//! Keys of trees as triples: their order by the texts of their terms, the graph of a root, and marks for
//! the numbers of their terms.
#![tactic(auto)]

mod laws;
mod marks;
mod texts;

pub use laws::{
    graph_needs_only_its_terms, graph_outlasts_new_terms, set_needs_only_its_terms,
    set_outlasts_new_terms,
};
pub use marks::{mark_key, mark_nodes};
pub use texts::ByText;
