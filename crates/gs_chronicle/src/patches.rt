//! Patches: open ones, and as a page stores them.
ghost use Rattle.std.specs.Prelude.{◌≡◌};
ghost use Rattle.gs_chronicle.specs.KeptOps.{ops_kept};
ghost use Rattle.gs_chronicle.specs.Sizes.{ops_size};

use crate::kept_ops::{KeptOp, KeptOps};
use gs_event::Op;
use gs_small_triples::FormBlocks;
use gs_term::Target;

/// The operations of a patch and its target, as they were decided.
#[derive(Debug, Drop)]
pub struct Patch {
    target: Target,
    since: Option<u64>,
    ops: KeptOps,
    count: usize,
    ghost counted: { count ≡ ops_size (ops_kept ops) },
}

impl Patch {
    ghost use Rattle.std.specs.Prelude.{◌≡◌};
    ghost use Rattle.gs_chronicle.specs.KeptOps.{ops_kept};
    ghost use Rattle.gs_chronicle.specs.Sizes.{ops_size};
    ghost use Rattle.gs_chronicle.specs.Patches.{patch_target, patch_since, patch_ops};

    /// The graph that is patched.
    pub fn target(&self) -> &Target
        ensures { result.now ≡ patch_target self.now }
    {
        &self.target
    }

    /// The number of the commit since which its target must not have been written, if there is one.
    pub fn since(&self) -> Option<u64>
        ensures { result ≡ patch_since self.now }
    {
        self.since
    }

    /// Its operations, in their order.
    pub fn ops(&self) -> &KeptOps
        ensures { result.now ≡ patch_ops self.now }
    {
        &self.ops
    }

    /// As how many triples its operations count.
    pub fn count(&self) -> usize
        ensures { result ≡ ops_size (ops_kept (patch_ops self.now)) }
    {
        self.count
    }

    /// Moves what a few operations brought into spare blocks, where these are found. Takes no memory.
    pub(crate) fn move_into(&mut self, blocks: &mut FormBlocks)
        ensures target { self.new.target ≡ self.old.target }
        ensures since { self.new.since ≡ self.old.since }
        ensures ops { ops_kept self.new.ops ≡ ops_kept self.old.ops }
    {
        self.ops.move_into(blocks);
    }

    /// Leaves the blocks of a patch that is of no more use.
    pub(crate) fn leave_to(self, blocks: &mut FormBlocks) {
        self.ops.leave_to(blocks);
    }
}

/// A patch that is open.
#[derive(Debug, Drop)]
pub struct OpenPatch {
    target: Target,
    request: u64,
    since: Option<u64>,
    /// How the page keeps the operations that are committed next, or those that the store refused, until the
    /// seat's next event.
    forms: Option<Vec<KeptOp>>,
    /// As how many triples these operations count.
    count: usize,
}

impl OpenPatch {
    ghost use Rattle.std.specs.Prelude.{◌≡◌, None};
    ghost use Rattle.gs_chronicle.specs.KeptOps.{ops_kept};
    ghost use Rattle.gs_chronicle.specs.Patches.{patch_target, patch_since, patch_ops};
    ghost use Rattle.gs_chronicle.specs.OpenPatches.{open_patch_target, open_patch_request, open_patch_since, open_patch_forms, open_patch_count, HasFormsOf};

    /// A patch of this graph, under this request number and on this condition.
    pub fn new(target: Target, request: u64, since: Option<u64>) -> OpenPatch
        ensures target { open_patch_target result ≡ target }
        ensures request { open_patch_request result ≡ request }
        ensures since { open_patch_since result ≡ since }
    {
        OpenPatch {
            target,
            request,
            since,
            forms: None,
            count: 0,
        }
    }

    /// Notes the forms of the operations that are committed next, if they could be made, and as how many
    /// triples they count.
    pub fn note_forms(&mut self, forms: Option<Vec<KeptOp>>, count: usize)
        ensures target { open_patch_target self.new ≡ open_patch_target self.old }
        ensures request { open_patch_request self.new ≡ open_patch_request self.old }
        ensures since { open_patch_since self.new ≡ open_patch_since self.old }
        ensures forms { open_patch_forms self.new ≡ forms }
        ensures count { open_patch_count self.new ≡ count }
    {
        self.forms = forms;
        self.count = count;
    }

    /// The patch with these operations, as a page stores it. Takes no memory. Triples that have a form stay
    /// with the operations.
    pub fn committed(self, ops: &mut Vec<Op>) -> Patch
        requires { HasFormsOf self ops.old.items }
        ensures target { patch_target result ≡ open_patch_target self }
        ensures since { patch_since result ≡ open_patch_since self }
        ensures ops { ops_kept (patch_ops result) ≡ ops.old.items }
    {
        let OpenPatch {
            target,
            request: _,
            since,
            forms,
            count,
        } = self;
        Patch {
            target,
            since,
            ops: KeptOps::of(forms, ops),
            count,
        }
    }
}
