//! Texts in blocks.
ghost use Rattle.std.specs.Prelude.{◌≡◌, ◌+◌, ◌-◌, ◌<◌, ◌^◌, ◌++◌, ◌∷◌, [], length, nat_lt, is_ok, if◌then◌else◌, IsTrue, IfOk, OnOk, OnErr};
ghost use Rattle.std.specs.Bool.{Decides};
ghost use Rattle.gs_texts.specs.Places.{IsPlaceOf, LiesInBlock, KeepsBytes, HoldsText, block_of, block_at, last_block, sealed_of, text_in};
ghost use Rattle.gs_texts.specs.Releasing.{KeepsOthers, HasNone};

use crate::blocks::Block;
use crate::places::Place;
use crate::sealed::SealedBlocks;
use std::alloc::{AllocError, Global};
use std::marker::Model;

/// The most bytes of a block: 256 KiB with the 16 that the C library has for itself before it.
const ROOM: usize = (1 << 18) - 16;

/// The bytes of the first block. Each of the next eight has twice as many as the one before it, the last of
/// them `ROOM`.
const FIRST_ROOM: usize = 1 << 10;

/// How many blocks there may be: as many as a place can number.
const MOST_BLOCKS: usize = 1 << 30;

/// For each block that has bytes, so many are to be left when another one is begun.
const RESERVE: usize = ROOM / 4;

/// Texts in blocks. A block is made with all its room, and texts are written into the last one, one
/// after another; where the next text has no room there, the block is sealed, and another one is begun.
/// So no text is moved within a block, and sealed blocks can be shared. A sealed block that is given back
/// has no bytes then, and keeps its number. A contract sees the blocks as lists of bytes, the open one
/// last.
#[derive(Debug, Drop)]
pub struct Texts {
    sealed: SealedBlocks,
    /// How many sealed blocks have bytes.
    filled: usize,
    last: Block,
}

impl Model for Texts {
    ghost use Rattle.std.specs.Prelude.{ℕ, ◌<◌, ◌^◌, ◌++◌, ◌∷◌, [], List, length};

    ghost Value = { List (List ℕ) };

    ghost view = { λ t. t.sealed ++ t.last ∷ [] };

    ghost invariant = { λ t. length t.sealed < 2 ^ 30 };
}

/// How many bytes the block of this number has room for. A longer text has a block of its own.
fn room_of(number: usize) -> usize
    ensures { result < 2 ^ 18 }
{
    ROOM.min(FIRST_ROOM << number.min(8))
}

/// Writes a text after the bytes of a block, and says its place.
fn write(block: &mut Block, number: usize, text: &[u8]) -> Result<Place, AllocError>
    requires few { number < 2 ^ 30 }
    requires room { length block.old < 2 ^ 18 }
    requires short { length text.now < 2 ^ 16 }
    ensures bytes { block.new ≡ (if is_ok result then block.old ++ text.now else block.old) }
    ensures place { IfOk result (λ p. IsPlaceOf p number (length block.old) (length text.now)) }
{
    let offset = block.len();
    block.push(text)?;
    Ok(Place::new(number, offset, text.len()))
}

impl Texts {
    /// No texts, and one block, which is open.
    pub fn new(alloc: Global) -> Result<Texts, AllocError>
        ensures { IfOk result (λ t. t ≡ [] ∷ []) }
    {
        Ok(Texts {
            sealed: SealedBlocks::new(alloc)?,
            filled: 0,
            last: Block::with_room(alloc, FIRST_ROOM)?,
        })
    }

    /// Where its memory comes from.
    pub fn allocator(&self) -> Global {
        self.last.allocator()
    }

    /// How many blocks there are, the open one among them.
    pub fn block_count(&self) -> usize
        ensures value { result ≡ length self.now }
        ensures some { 0 < result }
    {
        self.sealed.len() + 1
    }

    /// How many bytes all blocks have. Linear in the blocks.
    pub fn size(&self) -> usize {
        self.sealed.size().saturating_add(self.last.len())
    }

    /// How many bytes the block of a number has, and none where there is no such block.
    pub fn block_size(&self, block: usize) -> usize
        ensures { result ≡ length (block_at self.now block) }
    {
        if block == self.sealed.len() {
            return self.last.len();
        }
        match self.sealed.get(block) {
            Some(block) => block.len(),
            None => 0,
        }
    }

    /// The text at a place.
    #[tactic(auto, unfolding(crate::specs::Places::text_in))]
    pub fn get(&self, place: Place) -> &[u8]
        requires { LiesInBlock self.now place }
        ensures { result.now ≡ text_in self.now place }
    {
        let block = self.sealed.get(place.block()).unwrap_or(&self.last);
        block.part(place.offset(), place.length())
    }

    /// Whether a place is in a sealed block.
    pub(crate) fn is_sealed(&self, place: Place) -> bool
        ensures { result ≡ nat_lt (block_of place) (length self.now - 1) }
    {
        place.block() < self.sealed.len()
    }

    /// The texts of the sealed blocks, which are shared.
    pub(crate) fn share(&self) -> Result<Texts, AllocError>
        ensures { IfOk result (λ t. t ≡ sealed_of self.now ++ [] ∷ []) }
    {
        Ok(Texts {
            sealed: self.sealed.share()?,
            filled: self.filled,
            last: Block::new(self.allocator()),
        })
    }

    /// Whether the open block has room for so many bytes more.
    fn has_room(&self, more: usize) -> bool
        ensures { IsTrue result → length (last_block self.now) + more < 2 ^ 18 }
    {
        let room = room_of(self.sealed.len());
        self.last.len() <= room && more <= room - self.last.len()
    }

    /// Whether there are as many blocks as there may be.
    fn is_full(&self) -> bool
        ensures { Decides result (length self.now ≡ 2 ^ 30) }
    {
        self.sealed.len() + 1 == MOST_BLOCKS
    }

    /// Whether memory would be there for a quarter of all texts. What new texts do not take is left for those
    /// who read: else these might be refused until texts are given back.
    fn has_reserve(&self) -> bool {
        let bytes = self.filled.saturating_add(1).saturating_mul(RESERVE);
        let spare: Result<Vec<u8>, AllocError> = Vec::with_capacity(self.allocator(), bytes);
        spare.is_ok()
    }

    /// Begins a block with a text. Wants more memory than it takes.
    fn begin(&mut self, text: &[u8]) -> Result<Place, AllocError>
        requires { length text.now < 2 ^ 16 }
        ensures kept { KeepsBytes self.old self.new }
        ensures ok { IfOk result (λ p. HoldsText self.new p text.now) }
        ensures last { IfOk result (λ p. block_of p ≡ length self.new - 1) }
        ensures err { OnErr result (self.new ≡ self.old) }
    {
        if self.is_full() || !self.has_reserve() {
            return Err(AllocError);
        }
        let number = self.sealed.len() + 1;
        let room = room_of(number).max(text.len());
        let mut block = Block::with_room(self.allocator(), room)?;
        let place = write(&mut block, number, text)?;
        let more = usize::from(self.last.len() > 0);
        self.sealed.seal(&mut self.last, block)?;
        self.filled = self.filled.saturating_add(more);
        Ok(place)
    }

    /// Writes a text of at most 65,535 bytes, and says its place. Where memory is wanted, nothing is
    /// written.
    pub fn push(&mut self, text: &[u8]) -> Result<Place, AllocError>
        requires { length text.now < 2 ^ 16 }
        ensures kept { KeepsBytes self.old self.new }
        ensures ok { IfOk result (λ p. HoldsText self.new p text.now) }
        ensures last { IfOk result (λ p. block_of p ≡ length self.new - 1) }
        ensures err { OnErr result (self.new ≡ self.old) }
    {
        if !self.has_room(text.len()) {
            return self.begin(text);
        }
        let number = self.sealed.len();
        write(&mut self.last, number, text)
    }

    /// Writes the text at a place once more, after the others, and says its place there. Where memory is
    /// wanted, nothing is written.
    #[tactic(auto, using(crate::proofs::ReleaseLemmas::text_short))]
    pub fn push_again(&mut self, place: Place) -> Result<Place, AllocError>
        requires { LiesInBlock self.old place }
        ensures kept { KeepsBytes self.old self.new }
        ensures ok { IfOk result (λ p. HoldsText self.new p (text_in self.old place)) }
        ensures last { IfOk result (λ p. block_of p ≡ length self.new - 1) }
        ensures err { OnErr result (self.new ≡ self.old) }
    {
        let text = Vec::from_slice(self.allocator(), self.get(place))?;
        self.push(text.as_slice())
    }

    /// Gives back sealed blocks, those whose numbers are marked. Who shares them keeps them. Where memory
    /// is wanted, some of them stay.
    pub fn release(&mut self, gone: &[bool]) -> Result<(), AllocError>
        ensures kept { KeepsOthers gone.now self.old self.new }
        ensures ok { OnOk result (HasNone gone.now self.new) }
    {
        let released = self.sealed.release(gone);
        self.filled = self.sealed.filled();
        released
    }
}
