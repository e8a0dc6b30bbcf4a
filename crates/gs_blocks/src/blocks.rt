//! Blocks that no list has.
ghost use Rattle.std.specs.Prelude.{◌≡◌, ◌<◌, vec_len, IfSome};

use std::alloc::Global;
use std::mem;

/// Lists of fewer items stay where they are: they take less than a spare block would save.
const FEW: usize = 64;

/// And so do lists of more, which would take long to copy.
const MOST: usize = 65_536;

/// How many blocks are looked at, the newest first.
const LOOKS: usize = 32;

/// Blocks of memory that no list has, which the next lists are moved into. Where one thread makes a list
/// and another one lets it go, the C library keeps the memory for the first one; so where many threads
/// take turns, each of them keeps as much as all lists of its turn took. A list that is moved into a spare
/// block gives its own memory back at once, by the thread that made it.
#[derive(Debug, Drop)]
pub struct SpareBlocks<T> {
    blocks: Vec<Vec<T>>,
}

impl<T: Copy> SpareBlocks<T> {
    /// No blocks. Takes no memory.
    pub fn new(alloc: Global) -> SpareBlocks<T> {
        SpareBlocks {
            blocks: Vec::new(alloc),
        }
    }

    /// Where a block is that has room for so many items, and that they fill by half.
    fn find(&self, count: usize) -> Option<usize>
        ensures { IfSome result (λ place. place < vec_len self.now.blocks) }
    {
        for back in 1..=LOOKS {
            let place = self.blocks.len().checked_sub(back)?;
            let room = self.blocks[place].capacity();
            if count <= room && room / 2 <= count {
                return Some(place);
            }
        }
        None
    }

    /// Moves a list of 64 to 65,536 items into a block that has room for them, where one is found. Takes
    /// no memory.
    pub fn take_in(&mut self, list: &mut Vec<T>)
        ensures { list.new.items ≡ list.old.items }
    {
        if list.len() < FEW || list.len() > MOST {
            return;
        }
        let Some(place) = self.find(list.len()) else {
            return;
        };
        let mut block = self.blocks.swap_remove(place);
        block.clear();
        if block.extend_from_slice(list).is_ok() {
            mem::swap(list, &mut block);
        }
    }

    /// Keeps the block of a list that is of no more use, where a list could be moved into it and there is a
    /// place for it.
    pub fn give(&mut self, list: Vec<T>) {
        let room = list.capacity();
        if room >= FEW && room / 2 <= MOST && self.blocks.reserve(1).is_ok() {
            self.blocks.push_reserved(list);
        }
    }

    /// Gives all blocks back.
    pub fn clear(&mut self) {
        self.blocks.clear();
    }
}
