//! Blocks that packed texts are kept in.
use gs_blocks::SpareBlocks;
use std::alloc::Global;

/// Blocks of memory that no texts have.
#[derive(Debug, Drop)]
pub struct TextBlocks {
    pub(crate) marks: SpareBlocks<u8>,
    pub(crate) bytes: SpareBlocks<u8>,
    pub(crate) counts: SpareBlocks<u16>,
}

impl TextBlocks {
    /// No blocks. Takes no memory.
    pub fn new(alloc: Global) -> TextBlocks {
        TextBlocks {
            marks: SpareBlocks::new(alloc),
            bytes: SpareBlocks::new(alloc),
            counts: SpareBlocks::new(alloc),
        }
    }

    /// Gives all blocks back.
    pub fn clear(&mut self) {
        self.marks.clear();
        self.bytes.clear();
        self.counts.clear();
    }
}
