//! What a store answers.
use gs_model::Refusal;
use gs_term::GraphName;
use gs_texts::Lines;

/// What a store answers to an event.
#[derive(Debug, Drop)]
pub enum Answer {
    /// The upload or the patch is open, under this request number.
    Opened(u64),
    /// The triples are in the seat's upload.
    Staged,
    /// The HTTP status of a write or a question, the name of the graph that it made up, if it did, and a
    /// commit number: of a write that took effect its own, with 412 that of the last write on the target,
    /// and otherwise the last one.
    Status(u16, Option<GraphName>, u64),
    /// The HTTP status of a read: 200, and the seat reads, or 404; and the last commit number.
    Pinned(u16, u64),
    /// The next lines, which may be put together later, and whether no line is left after them.
    Lines(Lines, bool),
    /// The seat's upload, patch or read is given up.
    Cancelled,
    /// How many nodes and records were freed, and whether any are left that no current graph and no
    /// open upload or patch holds.
    Reclaimed(u64, bool),
    /// Nothing was done.
    Refused(Refusal),
}
