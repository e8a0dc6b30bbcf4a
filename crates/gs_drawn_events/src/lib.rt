//! Events on a store for tests, drawn by a seed: what each asks, as a model needs it, and as an event.
#![tactic(auto)]

mod asks;
mod drawn;
mod events;
mod molds;
mod terms;

pub use asks::{Ask, Edit, Kind, Place, SORT_NAMES, SORTS, Scope, sort_of};
pub use drawn::{
    drawn_any, drawn_count, drawn_for_idle, drawn_for_patch, drawn_for_read, drawn_for_upload,
    drawn_inner, drawn_list, drawn_on_condition, drawn_place, drawn_wider,
};
pub use events::{BASE, event, made_name, name_of, target};
pub use molds::{Mold, Slot, VARIABLES};
pub use terms::{TRIPLES, made, push_line, push_quad, terms_of};
