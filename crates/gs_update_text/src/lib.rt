//! Updates: what the text of a request means.
#![tactic(auto)]

mod laws;

pub use laws::{
    broken_text_is_refused, departing_text_is_refused, departure_ends_the_longest_front,
    departure_is_refused, update_has_one_meaning, update_is_read, update_text_is_read,
};
