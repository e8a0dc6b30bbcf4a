//! Blocks that are full.
ghost use Rattle.std.specs.Prelude.{◌≡◌, ◌++◌, ◌∷◌, [], length, map, slice_get, is_ok, if◌then◌else◌, IfOk, OnOk};
ghost use Rattle.std.specs.Arc.{arc_value};
ghost use Rattle.std.specs.Option.{option_map};
ghost use Rattle.gs_texts.specs.Releasing.{is_gone, EmptiesMarked, AreEmptied};

use crate::blocks::Block;
use std::alloc::{AllocError, Global};
use std::marker::Model;
use std::mem;
use std::sync::Arc;

/// Blocks to which nothing is written any more. Several may share them; where one of these seals another
/// block, it gets a list of its own, of the same blocks. A contract sees the blocks.
#[derive(Debug, Drop)]
pub struct SealedBlocks {
    blocks: Arc<Vec<Arc<Block>>>,
}

impl Model for SealedBlocks {
    ghost use Rattle.std.specs.Prelude.{ℕ, List, map};
    ghost use Rattle.std.specs.Arc.{arc_value};

    ghost Value = { List (List ℕ) };

    ghost view = { λ s. map arc_value (arc_value s.blocks).items };
}

/// Whether a number is marked.
fn is_marked(gone: &[bool], number: usize) -> bool
    ensures { result ≡ is_gone gone.now number }
{
    gone.get(number).copied().unwrap_or(false)
}

/// Puts a block without bytes into the place of each that is marked.
fn empty_marked(
    blocks: &mut [Arc<Block>],
    gone: &[bool],
    empty: &Arc<Block>,
) -> Result<(), AllocError>
    requires { arc_value empty.now ≡ [] }
    ensures kept { EmptiesMarked gone.now (map arc_value blocks.old) (map arc_value blocks.new) }
    ensures ok { OnOk result (AreEmptied gone.now (map arc_value blocks.new) (length blocks.old)) }
{
    for i in 0..blocks.len() {
        if is_marked(gone, i) {
            blocks[i] = empty.clone()?;
        }
    }
    Ok(())
}

impl SealedBlocks {
    /// None.
    pub fn new(alloc: Global) -> Result<SealedBlocks, AllocError>
        ensures { IfOk result (λ s. s ≡ []) }
    {
        let Ok(blocks) = Arc::new(alloc, Vec::new(alloc)) else {
            return Err(AllocError);
        };
        Ok(SealedBlocks { blocks })
    }

    /// How many there are.
    pub fn len(&self) -> usize
        ensures { result ≡ length self.now }
    {
        self.blocks.len()
    }

    /// The block of a number, where there is one.
    pub fn get(&self, number: usize) -> Option<&Block>
        ensures { option_map (λ b. b.now) result ≡ slice_get self.now number }
    {
        match self.blocks.get(number) {
            Some(block) => Some(block),
            None => None,
        }
    }

    /// The same blocks, to be shared.
    pub fn share(&self) -> Result<SealedBlocks, AllocError>
        ensures { IfOk result (λ s. s ≡ self.now) }
    {
        Ok(SealedBlocks {
            blocks: self.blocks.clone()?,
        })
    }

    /// Seals a block, in whose place `next` stands then. Linear in the blocks where they are shared, and
    /// otherwise constant, but for a list that grows. Where memory is wanted, nothing changes.
    pub fn seal(&mut self, block: &mut Block, next: Block) -> Result<(), AllocError>
        ensures sealed { self.new ≡ (if is_ok result then self.old ++ block.old ∷ [] else self.old) }
        ensures next { block.new ≡ (if is_ok result then next else block.old) }
    {
        let list = Arc::make_mut(&mut self.blocks)?;
        list.reserve(1)?;
        let full = mem::replace(block, next);
        match Arc::new(full.allocator(), full) {
            Ok(full) => {
                list.push_reserved(full);
                Ok(())
            }
            Err(failed) => {
                *block = failed.value;
                Err(AllocError)
            }
        }
    }

    /// How many bytes they have. Linear in the blocks.
    pub fn size(&self) -> usize {
        let mut size = 0usize;
        for block in self.blocks.iter() {
            size = size.saturating_add(block.len());
        }
        size
    }

    /// How many of them have bytes.
    pub fn filled(&self) -> usize {
        self.blocks.iter().filter(|block| block.len() > 0).count()
    }

    /// Gives back the blocks whose numbers are marked. Linear in the blocks. Where memory is wanted, some
    /// of them stay.
    pub fn release(&mut self, gone: &[bool]) -> Result<(), AllocError>
        ensures kept { EmptiesMarked gone.now self.old self.new }
        ensures ok { OnOk result (AreEmptied gone.now self.new (length self.old)) }
    {
        let alloc = *self.blocks.allocator();
        let Ok(empty) = Arc::new(alloc, Block::new(alloc)) else {
            return Err(AllocError);
        };
        let list = Arc::make_mut(&mut self.blocks)?;
        empty_marked(list.as_mut_slice(), gone, &empty)
    }
}
