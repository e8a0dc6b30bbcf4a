//! Uploads, as a page stores them.
ghost use Rattle.std.specs.Prelude.{◌≡◌};
ghost use Rattle.gs_chronicle.specs.KeptLists.{all_triples};
ghost use Rattle.gs_chronicle.specs.Sizes.{triples_size};

use crate::kept_lists::KeptList;
use gs_event::UploadKind;
use gs_small_triples::FormBlocks;
use gs_term::Triple;
use std::alloc::{AllocError, Global};

/// An upload of so many lists is moved into spare blocks. One of more would take long.
const LISTS: usize = 16;

/// Moves lists into spare blocks, where these are found.
fn move_all(lists: &mut [KeptList], blocks: &mut FormBlocks)
    ensures { all_triples lists.new ≡ all_triples lists.old }
{
    for list in lists.iter_mut() {
        list.move_into(blocks);
    }
}

/// What was staged to an upload, in the order in which it came.
#[derive(Debug, Drop)]
pub struct Upload {
    kind: UploadKind,
    request: u64,
    since: Option<u64>,
    lists: Vec<KeptList>,
    count: usize,
    ghost counted: { count ≡ triples_size (all_triples lists.items) },
}

impl Upload {
    ghost use Rattle.std.specs.Prelude.{◌≡◌, IfOk};
    ghost use Rattle.gs_chronicle.specs.KeptLists.{all_triples};
    ghost use Rattle.gs_chronicle.specs.Sizes.{triples_size};
    ghost use Rattle.gs_chronicle.specs.Uploads.{upload_kind, upload_request, upload_since, staged_triples};

    /// An upload of these lists, which count as so many triples.
    pub(crate) fn new(
        kind: UploadKind,
        request: u64,
        since: Option<u64>,
        lists: Vec<KeptList>,
        count: usize,
    ) -> Upload
        requires { count ≡ triples_size (all_triples lists.items) }
        ensures kind { result.kind ≡ kind }
        ensures request { result.request ≡ request }
        ensures since { result.since ≡ since }
        ensures triples { staged_triples result ≡ all_triples lists.items }
    {
        Upload {
            kind,
            request,
            since,
            lists,
            count,
        }
    }

    /// Moves the lists of a short upload into spare blocks, where these are found. Takes no memory.
    pub(crate) fn move_into(&mut self, blocks: &mut FormBlocks)
        ensures kind { self.new.kind ≡ self.old.kind }
        ensures request { self.new.request ≡ self.old.request }
        ensures since { self.new.since ≡ self.old.since }
        ensures triples { staged_triples self.new ≡ staged_triples self.old }
    {
        if self.lists.len() <= LISTS {
            move_all(&mut self.lists, blocks);
        }
    }

    /// Leaves the blocks of a short upload that is of no more use.
    pub(crate) fn leave_to(self, blocks: &mut FormBlocks) {
        if self.lists.len() > LISTS {
            return;
        }
        let mut lists = self.lists;
        while let Some(list) = lists.pop() {
            list.leave_to(blocks);
        }
    }

    /// What it did to its target.
    pub fn kind(&self) -> &UploadKind
        ensures { result.now ≡ upload_kind self.now }
    {
        &self.kind
    }

    /// Its request number.
    pub fn request(&self) -> u64
        ensures { result ≡ upload_request self.now }
    {
        self.request
    }

    /// The number of the commit since which its target must not have been written, if there is one.
    pub fn since(&self) -> Option<u64>
        ensures { result ≡ upload_since self.now }
    {
        self.since
    }

    /// As how many triples what was staged counts, with repeats: each once, and once more for each 32 bytes
    /// of its texts.
    pub fn count(&self) -> usize
        ensures { result ≡ triples_size (staged_triples self.now) }
    {
        self.count
    }

    /// The triples that were staged, the first one first, each with terms of its own.
    pub fn to_vec(&self, alloc: Global) -> Result<Vec<Triple>, AllocError>
        ensures { IfOk result (λ v. v.items ≡ staged_triples self.now) }
    {
        let mut triples = Vec::new(alloc);
        for list in &self.lists {
            list.add_to(alloc, &mut triples)?;
        }
        Ok(triples)
    }
}
