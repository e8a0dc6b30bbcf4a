//! What the versions of all graphs stand for: a dataset, and the trees of its graphs.
#![tactic(auto)]

mod laws;

pub use laws::{
    keyed_trees_outlast_new_terms, ledgers_keep_trees, trees_go_by_place,
    versions_stand_for_a_dataset, writes_change_one_graph,
};
