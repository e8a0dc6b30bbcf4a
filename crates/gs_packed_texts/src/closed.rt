//! Packed texts after which no more come.
ghost use Rattle.std.specs.Prelude.{◌≡◌, length};
ghost use Rattle.std.specs.List.{sum};
ghost use Rattle.gs_packed_texts.specs.Kept.{own_in};

use crate::blocks::TextBlocks;
use crate::readers::Texts;

/// Packed texts after which no more come: what they are kept by, and nothing of what comes next.
#[derive(Debug, Drop)]
pub struct ClosedTexts {
    marks: Vec<u8>,
    counts: Vec<u16>,
    bytes: Vec<u8>,
    ghost counted: { sum counts.items ≡ length bytes.items },
    ghost owned: { own_in marks.items ≡ length counts.items },
}

impl ClosedTexts {
    ghost use Rattle.std.specs.Prelude.{◌≡◌, length, vec_capacity};
    ghost use Rattle.std.specs.List.{sum};
    ghost use Rattle.gs_packed_texts.specs.Kept.{own_in};
    ghost use Rattle.gs_packed_texts.specs.Packing.{source_of, unpacked};
    ghost use Rattle.gs_packed_texts.specs.Texts.{left_of};
    ghost use Rattle.gs_packed_texts.specs.Closed.{closed_texts, closed_room};

    /// The texts of these marks, and of these bytes of their own.
    pub(crate) fn new(marks: Vec<u8>, counts: Vec<u16>, bytes: Vec<u8>) -> ClosedTexts
        requires counted { sum counts.items ≡ length bytes.items }
        requires owned { own_in marks.items ≡ length counts.items }
        ensures texts { closed_texts result ≡ unpacked marks.items (source_of counts.items bytes.items) }
        ensures room { closed_room result ≡ vec_capacity bytes }
    {
        ClosedTexts {
            marks,
            counts,
            bytes,
        }
    }

    /// For how many bytes of their own there is room, those of the texts too.
    pub fn capacity(&self) -> usize
        ensures { result ≡ closed_room self.now }
    {
        self.bytes.capacity()
    }

    /// The texts, the first one first.
    pub fn texts(&self) -> Texts<'_>
        ensures { left_of result ≡ closed_texts self.now }
    {
        Texts::new(&self.marks, &self.counts, &self.bytes)
    }

    /// Moves what is kept into spare blocks, where these are found. Takes no memory.
    pub fn move_into(&mut self, blocks: &mut TextBlocks)
        ensures { closed_texts self.new ≡ closed_texts self.old }
    {
        blocks.marks.take_in(&mut self.marks);
        blocks.counts.take_in(&mut self.counts);
        blocks.bytes.take_in(&mut self.bytes);
    }

    /// Leaves the blocks of texts that are of no more use.
    pub fn leave_to(self, blocks: &mut TextBlocks) {
        let ClosedTexts {
            marks,
            counts,
            bytes,
        } = self;
        blocks.marks.give(marks);
        blocks.counts.give(counts);
        blocks.bytes.give(bytes);
    }

    /// For how many marks, counts and bytes there is room.
    #[cfg(test)]
    pub fn rooms(&self) -> [usize; 3] {
        [
            self.marks.capacity(),
            self.counts.capacity(),
            self.bytes.capacity(),
        ]
    }
}
