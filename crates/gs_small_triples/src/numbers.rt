//! Numbers of triples in as few bytes as there may be.
ghost use Rattle.std.specs.Prelude.{◌≡◌, ◌≤◌, ◌<◌, ◌^◌, [], ◌∷◌, ◌++◌, length, slice_get, Some, IfOk, OnOk};
ghost use Rattle.gs_small_triples.specs.Kept.{numbers_in, width, IsBelow};

use crate::blocks::FormBlocks;
use gs_triple_lists::TripleNumbers;
use std::alloc::{AllocError, Global};

/// Numbers of a triple's terms, below 256.
#[derive(Clone, Copy, Debug, Drop)]
pub struct ByteNumbers {
    subject: u8,
    predicate: u8,
    object: u8,
}

/// Numbers of a triple's terms, below 65,536.
#[derive(Clone, Copy, Debug, Drop)]
pub struct WordNumbers {
    subject: u16,
    predicate: u16,
    object: u16,
}

/// Three numbers for each triple, each in one byte, two or four.
#[derive(Debug, Drop)]
pub enum Numbers {
    Bytes(Vec<ByteNumbers>),
    Words(Vec<WordNumbers>),
    Whole(Vec<TripleNumbers>),
}

impl Numbers {
    /// No numbers, with room for those of so many triples, each below the count of terms.
    pub fn new(alloc: Global, terms: usize, triples: usize) -> Result<Numbers, AllocError>
        requires { terms ≤ 2 ^ 32 }
        ensures none { IfOk result (λ n. numbers_in n ≡ []) }
        ensures wide { IfOk result (λ n. terms ≤ width n) }
    {
        if terms <= 256 {
            Ok(Numbers::Bytes(Vec::with_capacity(alloc, triples)?))
        } else if terms <= 65_536 {
            Ok(Numbers::Words(Vec::with_capacity(alloc, triples)?))
        } else {
            Ok(Numbers::Whole(Vec::with_capacity(alloc, triples)?))
        }
    }

    /// Of how many triples they are.
    pub fn len(&self) -> usize
        ensures { result ≡ length (numbers_in self.now) }
    {
        match self {
            Numbers::Bytes(kept) => kept.len(),
            Numbers::Words(kept) => kept.len(),
            Numbers::Whole(kept) => kept.len(),
        }
    }

    /// Adds those of a triple.
    pub fn push(&mut self, numbers: TripleNumbers) -> Result<(), AllocError>
        requires { IsBelow (width self.old) numbers }
        ensures added { OnOk result (numbers_in self.new ≡ numbers_in self.old ++ numbers ∷ []) }
        ensures wide { width self.new ≡ width self.old }
    {
        match self {
            Numbers::Bytes(kept) => kept.push(ByteNumbers {
                subject: numbers.subject as u8,
                predicate: numbers.predicate as u8,
                object: numbers.object as u8,
            })?,
            Numbers::Words(kept) => kept.push(WordNumbers {
                subject: numbers.subject as u16,
                predicate: numbers.predicate as u16,
                object: numbers.object as u16,
            })?,
            Numbers::Whole(kept) => kept.push(numbers)?,
        }
        Ok(())
    }

    /// Those of the triple at a place.
    pub fn at(&self, place: usize) -> TripleNumbers
        requires { place < length (numbers_in self.now) }
        ensures { slice_get (numbers_in self.now) place ≡ Some result }
    {
        match self {
            Numbers::Bytes(kept) => TripleNumbers {
                subject: u32::from(kept[place].subject),
                predicate: u32::from(kept[place].predicate),
                object: u32::from(kept[place].object),
            },
            Numbers::Words(kept) => TripleNumbers {
                subject: u32::from(kept[place].subject),
                predicate: u32::from(kept[place].predicate),
                object: u32::from(kept[place].object),
            },
            Numbers::Whole(kept) => kept[place],
        }
    }

    /// Moves numbers of one byte or of two into a spare block, where one is found. Takes no memory.
    pub fn move_into(&mut self, blocks: &mut FormBlocks)
        ensures { numbers_in self.new ≡ numbers_in self.old }
    {
        match self {
            Numbers::Bytes(kept) => blocks.bytes.take_in(kept),
            Numbers::Words(kept) => blocks.words.take_in(kept),
            Numbers::Whole(_) => {}
        }
    }

    /// Leaves the block of numbers that are of no more use.
    pub fn leave_to(self, blocks: &mut FormBlocks) {
        match self {
            Numbers::Bytes(kept) => blocks.bytes.give(kept),
            Numbers::Words(kept) => blocks.words.give(kept),
            Numbers::Whole(_) => {}
        }
    }

    /// How many bytes each number takes.
    #[cfg(test)]
    pub fn bytes(&self) -> usize {
        match self {
            Numbers::Bytes(_) => 1,
            Numbers::Words(_) => 2,
            Numbers::Whole(_) => 4,
        }
    }
}
