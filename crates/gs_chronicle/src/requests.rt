//! What a store was asked by a call that it decided.
ghost use Rattle.std.specs.Prelude.{◌≡◌};
ghost use Rattle.gs_chronicle.specs.Kinds.{action_kind_of};
ghost use Rattle.gs_chronicle.specs.Requests.{asked_in, request_size};

use crate::kinds::ActionKind;
use crate::patches::Patch;
use crate::uploads::Upload;
use gs_event::Scope;
use gs_small_triples::FormBlocks;
use gs_term::Target;

/// What a store was asked by a call that it decided, with all that it brought.
#[derive(Debug, Drop)]
pub enum Request {
    /// A commit of what was staged.
    Upload(Upload),
    /// A commit of operations on a graph.
    Patch(Patch),
    /// A deletion of a graph. With a number it takes effect only where the graph has not been written since
    /// the commit of that number.
    Delete(Target, Option<u64>),
    /// The question whether there is such a graph. The whole dataset is always there.
    Head(Scope),
    /// The beginning of a read of a graph, or of all of them.
    Pin(Scope),
}

impl Request {
    /// The kind of the action.
    pub fn kind(&self) -> ActionKind
        ensures { result ≡ action_kind_of (asked_in self.now).operation }
    {
        match self {
            Request::Upload(_) => ActionKind::Commit,
            Request::Patch(_) => ActionKind::CommitPatch,
            Request::Delete(_, _) => ActionKind::Delete,
            Request::Head(_) => ActionKind::Head,
            Request::Pin(_) => ActionKind::Pin,
        }
    }

    /// Moves what an upload or a patch brought into spare blocks, where these are found. Takes no memory.
    pub(crate) fn move_into(&mut self, blocks: &mut FormBlocks)
        ensures asked { asked_in self.new ≡ asked_in self.old }
        ensures size { request_size self.new ≡ request_size self.old }
    {
        match self {
            Request::Upload(upload) => upload.move_into(blocks),
            Request::Patch(patch) => patch.move_into(blocks),
            Request::Delete(_, _) | Request::Head(_) | Request::Pin(_) => {}
        }
    }

    /// Leaves the blocks of a request that is of no more use.
    pub(crate) fn leave_to(self, blocks: &mut FormBlocks) {
        match self {
            Request::Upload(upload) => upload.leave_to(blocks),
            Request::Patch(patch) => patch.leave_to(blocks),
            Request::Delete(_, _) | Request::Head(_) | Request::Pin(_) => {}
        }
    }

    /// As how many triples it counts, with repeats (`specs/Sizes`).
    pub fn triples(&self) -> usize
        ensures { result ≡ request_size self.now }
    {
        match self {
            Request::Upload(upload) => upload.count(),
            Request::Patch(patch) => patch.count(),
            Request::Delete(_, _) | Request::Head(_) | Request::Pin(_) => 0,
        }
    }
}
