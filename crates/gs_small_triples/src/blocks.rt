//! Blocks that small forms are kept in.
use crate::numbers::{ByteNumbers, WordNumbers};
use gs_blocks::SpareBlocks;
use gs_packed_texts::TextBlocks;
use std::alloc::Global;

/// Blocks of memory that no small form has. Numbers of four bytes are many, and stay where they are.
#[derive(Debug, Drop)]
pub struct FormBlocks {
    pub texts: TextBlocks,
    pub(crate) bytes: SpareBlocks<ByteNumbers>,
    pub(crate) words: SpareBlocks<WordNumbers>,
}

impl FormBlocks {
    /// No blocks. Takes no memory.
    pub fn new(alloc: Global) -> FormBlocks {
        FormBlocks {
            texts: TextBlocks::new(alloc),
            bytes: SpareBlocks::new(alloc),
            words: SpareBlocks::new(alloc),
        }
    }

    /// Gives all blocks back.
    pub fn clear(&mut self) {
        self.texts.clear();
        self.bytes.clear();
        self.words.clear();
    }
}
