//! A plain model of a store for tests: graphs as sets of triples by number, seats, and versions that ended,
//! whose nodes and records it counts.
#![tactic(auto)]

mod answers;
mod books;
mod models;
mod outcomes;
mod phases;
mod rules;
mod versions;

pub use answers::{answer_words, is_said, is_same, put_together, said_words};
pub use models::Model;
pub use outcomes::{Growth, MOST_FOR_TRIPLE, Outcome, Said};
pub use phases::Phase;
pub use rules::Lie;
pub use versions::SEATS;
