//! Where the machine stands.

use crate::frames::{Goal, Slot};
use gs_model::Fault;
use gs_triple_values::Language;

/// Within triples, or at a fault.
#[derive(Drop)]
pub enum Place<L: Language> {
    /// After a `[` that opens the triples.
    Opened,
    /// After a subject with triples of its own, which may stand alone.
    Closed(L::Subject),
    Heading(Goal<L>),
    /// After a string that is an object, which the parser holds.
    Held(Slot<L>),
    /// After its `^^`.
    Typing(Slot<L>),
    Lost(Fault),
}
