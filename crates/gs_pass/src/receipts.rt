//! Receipts of deciding calls.
ghost use Rattle.std.specs.Prelude.{◌≡◌};
ghost use Rattle.gs_pass.specs.Kinds.{code_of_kind};

use gs_chronicle::ActionKind;

/// How many receipts a pass keeps: those of its first deciding calls.
pub(crate) const MAX_RECEIPTS: usize = 4_096;

/// What a pass was told of a deciding call.
#[derive(Clone, Copy, Debug, PartialEq, Eq)]
pub struct Receipt {
    /// The number of the entry, counted from 0 in its page; 0 where the call counts as more triples
    /// than a page holds, so that none stores it.
    pub number: u64,
    /// What kind of action decided.
    pub kind: ActionKind,
    /// The HTTP status that was answered.
    pub status: u16,
}

/// The code of a kind in a cell of stamps.
pub(crate) fn code(kind: ActionKind) -> u64
    ensures { result ≡ code_of_kind kind }
{
    match kind {
        ActionKind::Commit => 0,
        ActionKind::CommitPatch => 1,
        ActionKind::Delete => 2,
        ActionKind::Head => 3,
        ActionKind::Pin => 4,
    }
}
