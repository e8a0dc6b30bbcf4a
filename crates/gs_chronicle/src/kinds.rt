//! Kinds of decided actions.

/// What kind of action was decided.
#[derive(Clone, Copy, Debug, PartialEq, Eq)]
pub enum ActionKind {
    /// A commit of an upload.
    Commit,
    /// A commit of operations.
    CommitPatch,
    /// A deletion.
    Delete,
    /// The question whether there is a graph.
    Head,
    /// The beginning of a read.
    Pin,
}
