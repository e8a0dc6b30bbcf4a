//! What the seats of the model do.
use crate::outcomes::{Outcome, Said};
use gs_drawn_events::{Kind, Place, Scope};
use gs_graph_models::Set;
use gs_model::Refusal;

/// An upload.
#[derive(Clone, Copy, Drop)]
pub struct Upload {
    pub kind: Kind,
    /// The commit number since which its graph must not have been written, if there is one.
    pub since: Option<u64>,
    pub request: u64,
    pub triples: Set,
}

/// A read.
#[derive(Clone, Copy, Drop)]
pub struct Read {
    pub scope: Scope,
    /// How many lines were given.
    pub given: u64,
    /// The commit number at its pin.
    pub pin: u64,
}

/// What a seat is doing.
#[derive(Clone, Copy, Drop)]
pub enum Phase {
    Idle,
    Writing(Upload),
    /// A patch, with such a number.
    Patching(Place, Option<u64>),
    Reading(Read),
}

impl Phase {
    /// How many nodes and records a seat has open: a node for each triple of an upload, and a record of an
    /// upload or a patch.
    pub fn held(&self) -> u64 {
        match self {
            Phase::Writing(upload) => upload.triples.count().saturating_add(1),
            Phase::Patching(_, _) => 1,
            _ => 0,
        }
    }
}

/// What becomes of a seat, and what is said.
#[derive(Drop)]
pub struct Turn {
    pub phase: Phase,
    pub outcome: Outcome,
}

impl Turn {
    /// An answer after which as many nodes and records are in use as before.
    pub fn to(phase: Phase, said: Said) -> Turn {
        Turn {
            phase,
            outcome: Outcome::of(said),
        }
    }

    /// An Open with this request number.
    pub fn opened(phase: Phase, request: u64) -> Turn {
        Turn {
            phase,
            outcome: Outcome::opened(request),
        }
    }

    /// The seat's phase does not allow what is asked.
    pub fn refused(phase: Phase) -> Turn {
        Turn {
            phase,
            outcome: Outcome::refused(Refusal::WrongPhase),
        }
    }
}
