//! Blocks of bytes.
ghost use Rattle.std.specs.Prelude.{◌≡◌, ◌+◌, ◌≤◌, ◌++◌, [], length, slice_range, is_ok, if◌then◌else◌, IfOk};

use std::alloc::{AllocError, Global};
use std::marker::Model;

/// Bytes that are written once, one after another. A contract sees them as a list.
#[derive(Debug, Drop)]
pub struct Block {
    bytes: Vec<u8>,
}

impl Model for Block {
    ghost use Rattle.std.specs.Prelude.{ℕ, List};

    ghost Value = { List ℕ };

    ghost view = { λ b. b.bytes.items };
}

impl Block {
    /// One without bytes. Takes no memory.
    pub fn new(alloc: Global) -> Block
        ensures { result ≡ [] }
    {
        Block {
            bytes: Vec::new(alloc),
        }
    }

    /// One without bytes, with room for so many.
    pub fn with_room(alloc: Global, room: usize) -> Result<Block, AllocError>
        ensures { IfOk result (λ b. b ≡ []) }
    {
        Ok(Block {
            bytes: Vec::with_capacity(alloc, room)?,
        })
    }

    /// Where its memory comes from.
    pub fn allocator(&self) -> Global {
        *self.bytes.allocator()
    }

    /// How many bytes were written.
    pub fn len(&self) -> usize
        ensures { result ≡ length self.now }
    {
        self.bytes.len()
    }

    /// So many bytes from an offset on.
    pub fn part(&self, offset: usize, count: usize) -> &[u8]
        requires { offset + count ≤ length self.now }
        ensures { result.now ≡ slice_range self.now offset (offset + count) }
    {
        &self.bytes[offset..offset + count]
    }

    /// Writes bytes after those that are there. Where there is room, this takes no memory.
    pub fn push(&mut self, bytes: &[u8]) -> Result<(), AllocError>
        ensures { self.new ≡ (if is_ok result then self.old ++ bytes.now else self.old) }
    {
        self.bytes.extend_from_slice(bytes)
    }
}
