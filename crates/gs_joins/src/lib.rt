//! Lists of the keys that may be instances of patterns, and which of these keys go together.
#![tactic(auto)]

mod answers;
mod bindings;
mod choices;
mod kept;
mod links;
mod lots;
mod merges;
mod pairs;
mod questions;
mod reduction;
mod sought;
mod weights;

pub use bindings::{Bound, NO_NUMBER, choose, known};
pub use kept::kept_at;
pub use lots::Lot;
pub use reduction::reduce;
pub use sought::{Item, Sought};
pub use weights::{Turn, first_number};
