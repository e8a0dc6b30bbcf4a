//! Packed triples after which no more come.
ghost use Rattle.std.specs.Prelude.{◌≡◌, length};
ghost use Rattle.std.proofs.Props.{props};
ghost use Rattle.gs_packed_texts.specs.Closed.{closed_texts};
ghost use Rattle.gs_packed_triples.specs.Formed.{triples_unpacked, AreFormed};
ghost use Rattle.gs_packed_triples.specs.Props.{IsText-prop};

use crate::readers::UnpackedTriples;
use gs_packed_texts::{ClosedTexts, TextBlocks};

/// Packed triples after which no more come, in the order in which they came, with repeats.
#[derive(Debug, Drop)]
pub struct ClosedTriples {
    texts: ClosedTexts,
    count: usize,
    ghost formed: { AreFormed (closed_texts texts) } by { Prim.hlevel (IsText-prop, props) },
    ghost counted: { count ≡ length (triples_unpacked (closed_texts texts)) },
}

impl ClosedTriples {
    ghost use Rattle.std.specs.Prelude.{◌≡◌, length};
    ghost use Rattle.gs_packed_texts.specs.Closed.{closed_texts, closed_room};
    ghost use Rattle.gs_packed_triples.specs.Formed.{triples_unpacked, AreFormed};
    ghost use Rattle.gs_packed_triples.specs.Triples.{triples_left};
    ghost use Rattle.gs_packed_triples.specs.Closed.{closed_triples, closed_triples_room};

    /// The triples of these texts, three for each.
    pub(crate) fn new(texts: ClosedTexts, count: usize) -> ClosedTriples
        requires formed { AreFormed (closed_texts texts) }
        requires counted { count ≡ length (triples_unpacked (closed_texts texts)) }
        ensures triples { closed_triples result ≡ triples_unpacked (closed_texts texts) }
        ensures room { closed_triples_room result ≡ closed_room texts }
    {
        ClosedTriples { texts, count }
    }

    /// How many triples there are, with repeats.
    pub fn len(&self) -> usize
        ensures { result ≡ length (closed_triples self.now) }
    {
        self.count
    }

    /// For how many bytes of texts there is room, those that are there too.
    pub fn capacity(&self) -> usize
        ensures { result ≡ closed_triples_room self.now }
    {
        self.texts.capacity()
    }

    /// Moves what is kept into spare blocks, where these are found. Takes no memory.
    pub fn move_into(&mut self, blocks: &mut TextBlocks)
        ensures { closed_triples self.new ≡ closed_triples self.old }
    {
        self.texts.move_into(blocks);
    }

    /// Leaves the blocks of triples that are of no more use.
    pub fn leave_to(self, blocks: &mut TextBlocks) {
        self.texts.leave_to(blocks);
    }

    /// A reader of the triples, the first one first.
    pub fn triples(&self) -> UnpackedTriples<'_>
        ensures { triples_left result ≡ closed_triples self.now }
    {
        UnpackedTriples::new(self.texts.texts())
    }
}
