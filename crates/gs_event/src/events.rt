//! What a store is asked.
use crate::updates::Op;
use gs_term::Target;
use gs_triple_lists::TripleList;

/// What an upload will do to its target when it is committed.
#[derive(Clone, Debug, Drop)]
pub enum UploadKind {
    /// Replaces the graph (Graph Store Protocol, section 5.3).
    Put(Target),
    /// Adds to the graph (section 5.5).
    Post(Target),
    /// Makes a graph under a name that the store makes up (section 5.5).
    New,
}

/// What a question or a read is about.
#[derive(Debug, Drop)]
pub enum Scope {
    /// One graph.
    One(Target),
    /// The whole dataset: all graphs, as they are at one moment.
    All,
}

/// What a seat does. A seat holds at most one upload, patch or read at a time.
#[derive(Debug, Drop)]
pub enum Action {
    /// Opens an upload. With a number it takes effect only where its target has not been written since the
    /// commit of that number; a new graph is made in any case.
    Open(UploadKind, Option<u64>),
    /// Opens a patch of a graph, with such a condition.
    OpenPatch(Target, Option<u64>),
    /// Adds triples to the seat's upload.
    Stage(TripleList),
    /// Makes the seat's upload take effect, whole.
    Commit,
    /// Makes these operations take effect on the graph of the seat's patch, whole, in their order
    /// (section 5.7).
    CommitPatch(Vec<Op>),
    /// Takes a named graph out, or empties the default graph (section 5.4), with such a condition.
    Delete(Target, Option<u64>),
    /// Asks whether there is such a graph (section 5.6). The whole dataset is always there.
    Head(Scope),
    /// Begins a read of a graph, or of all of them, as they are now (section 5.2).
    Pin(Scope),
    /// Takes the next lines of the seat's read: so many, at least one, or as many as are left.
    Piece(u32),
    /// Gives up the seat's upload, patch or read.
    Cancel,
}

/// One step of a schedule.
#[derive(Debug, Drop)]
pub enum Event {
    /// A seat's action. Seats are numbered from 0.
    Seat(u16, Action),
    /// Frees at most so many nodes and records that no version needs.
    Reclaim(u64),
}
