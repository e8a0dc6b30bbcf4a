//! A page of history: the calls that a store decided, in their order, so that the page replays.
#![tactic(auto)]

mod entries;
mod kept_lists;
mod kept_ops;
mod kinds;
mod laws;
mod open_uploads;
mod page_entries;
mod pages;
mod patches;
mod requests;
mod sizes;
mod uploads;

pub use entries::Entry;
pub use kept_ops::{KeptOp, KeptOps, forms_of};
pub use kinds::ActionKind;
pub use laws::page_replays_on;
pub use open_uploads::OpenUpload;
pub use pages::Page;
pub use patches::{OpenPatch, Patch};
pub use requests::Request;
pub use sizes::{list_size, ops_size};
pub use uploads::Upload;
