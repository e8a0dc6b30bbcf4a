//! The store that programs use: its step is exact, and a run of events is the headline.
#![tactic(auto)]

mod bases;
mod doors;
mod laws;
mod limits;
mod stores;

pub use bases::is_base;
pub use gs_event::{Action, Answer, Event, Op, Scope, UploadKind};
pub use gs_model::Refusal;
pub use gs_term::{Part, Pattern, VariableName};
pub use laws::store_door_takes_steps;
pub use limits::{MAX_NAMES, MAX_TRIPLES};
pub use stores::Store;
