//! Many connections on one store.
#![tactic(auto)]

mod connections;
mod laws;
mod steps;
mod worlds;

pub use laws::{nothing_follows_a_drop, requests_share_no_node, turns_rest_where_all_is_said};
pub use steps::WorldStep;
pub use worlds::World;
