//! Events and answers of a graph store, and what their histories mean.
#![tactic(auto)]

mod answers;
mod events;
mod laws;
mod limits;
mod updates;
mod verdicts;

pub use answers::Answer;
pub use events::{Action, Event, Scope, UploadKind};
pub use laws::{
    instances_are_found, new_name_is_free, pinned_goes_on, steps_are_legal, steps_take_few,
    updates_add_up, verdict_is_the_stores, view_goes_on,
};
pub use limits::Limits;
pub use updates::Op;
pub use verdicts::{Change, Holdings, Place, Verdict, is_late, verdict_on};
