//! Lists of triples as an upload keeps them.
ghost use Rattle.std.specs.Prelude.{◌≡◌, ◌+◌, ◌≤◌, ◌++◌, length, min, vec_len, vec_capacity, OnOk};
ghost use Rattle.gs_packed_triples.specs.Triples.{packed_triples, triples_left};
ghost use Rattle.gs_chronicle.specs.KeptLists.{kept_triples, all_triples};

use gs_packed_triples::{ClosedTriples, PackedTriples, UnpackedTriples};
use gs_small_triples::{FormBlocks, SmallTriples};
use gs_term::Triple;
use std::alloc::{AllocError, Global};

/// Triples that were staged, as an upload keeps them.
#[derive(Debug, Drop)]
pub enum KeptList {
    /// A list in its small form, each term mostly once.
    Small(SmallTriples),
    /// Lists that came one after another, packed together: short ones, and those without a small form.
    Gathered(ClosedTriples),
}

/// Adds the triples that a reader has before it.
fn add_left(
    alloc: Global,
    mut left: UnpackedTriples<'_>,
    triples: &mut Vec<Triple>,
) -> Result<(), AllocError>
    ensures { OnOk result (triples.new.items ≡ triples.old.items ++ triples_left left.entry) }
{
    while let Some(triple) = left.next() {
        triples.push(triple.to_triple(alloc)?)?;
    }
    Ok(())
}

impl KeptList {
    /// Adds its triples, each with terms of its own.
    pub(crate) fn add_to(&self, alloc: Global, triples: &mut Vec<Triple>) -> Result<(), AllocError>
        ensures { OnOk result (triples.new.items ≡ triples.old.items ++ kept_triples self.now) }
    {
        match self {
            KeptList::Small(small) => triples.append(&mut small.to_vec(alloc)?),
            KeptList::Gathered(gathered) => add_left(alloc, gathered.triples(), triples),
        }
    }

    /// Moves what is kept into spare blocks, where these are found. Takes no memory.
    pub(crate) fn move_into(&mut self, blocks: &mut FormBlocks)
        ensures { kept_triples self.new ≡ kept_triples self.old }
    {
        match self {
            KeptList::Small(small) => small.move_into(blocks),
            KeptList::Gathered(gathered) => gathered.move_into(&mut blocks.texts),
        }
    }

    /// Leaves the blocks of a list that is of no more use.
    pub(crate) fn leave_to(self, blocks: &mut FormBlocks) {
        match self {
            KeptList::Small(small) => small.leave_to(blocks),
            KeptList::Gathered(gathered) => gathered.leave_to(&mut blocks.texts),
        }
    }
}

/// Keeps what was gathered after the lists, where there is a place for it. Takes no memory, but for
/// smaller blocks.
pub(crate) fn keep_gathered(lists: &mut Vec<KeptList>, gathered: PackedTriples)
    requires { vec_len lists.old + min (length (packed_triples gathered)) 1 ≤ vec_capacity lists.old }
    ensures triples { all_triples lists.new.items ≡ all_triples lists.old.items ++ packed_triples gathered }
    ensures len { vec_len lists.new ≤ vec_len lists.old + min (length (packed_triples gathered)) 1 }
    ensures capacity { vec_capacity lists.new ≡ vec_capacity lists.old }
{
    if gathered.len() > 0 {
        lists.push_reserved(KeptList::Gathered(gathered.closed()));
    }
}
