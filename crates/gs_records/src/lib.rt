//! Records of the versions of graphs, by number: which graph, its version, and the commits that made it
//! and that ended it.
#![tactic(auto)]

mod laws;
mod places;
mod reading;
mod reclaiming;
mod records;

pub use laws::{
    commits_end_one_record, graphs_are_listed_in_order, last_graphs_are_current,
    walks_have_all_numbers,
};
pub use reclaiming::Reclaimed;
pub use records::Records;
