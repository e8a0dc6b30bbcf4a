//! The ledger of a pool of nodes that graphs, open uploads, pinned reads and waste share.
#![tactic(auto)]

mod laws;

pub use laws::{
    births_go_on, marks_say_what_is_dead, needed_nodes_stay, nodes_are_counted,
    steps_join_the_waste, steps_keep_the_ledger, what_no_version_needs_may_go,
};
