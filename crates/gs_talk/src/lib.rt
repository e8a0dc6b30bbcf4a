//! What a connection says: the moves of a session for each request, and the replies that they give.
#![tactic(auto)]

mod laws;

pub use laws::{points_are_asks, seat_rests_idle};
