//! Schedules for tests that are the same each time: events on a store, and what is to be answered and counted
//! after each.
#![tactic(auto)]

mod conditions;
mod datasets;
mod deeds;
mod large;
mod last;
mod lines;
mod rows;
mod seats;
mod slow;

pub use conditions::on_condition;
pub use datasets::{beside_kept_writes, beside_writes, two_versions, without_lines};
pub use large::large_lines;
pub use last::{last_node_lines, last_node_posts, last_term_lines};
pub use lines::Lines;
pub use seats::seat_lines;
pub use slow::slow_reader_lines;
