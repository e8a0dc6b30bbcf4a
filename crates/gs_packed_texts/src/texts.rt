//! Texts packed one after another.
ghost use Rattle.std.specs.Prelude.{◌≡◌, ◌+◌, ◌≤◌, ◌++◌, length, vec_len, vec_capacity};
ghost use Rattle.gs_packed_texts.specs.Kept.{IsPacked};

use crate::closed::ClosedTexts;
use crate::counts::push_count;
use crate::places::placed;
use crate::readers::Texts;
use crate::windows::{Span, Window};
use std::alloc::{AllocError, Global};

/// Texts of at most 65,535 bytes, in their order, which take turns at three memories. A text takes a
/// byte where it is one of its memory's last two, and otherwise three and what it has after a prefix
/// of an earlier one.
#[derive(Debug, Drop)]
pub struct PackedTexts {
    marks: Vec<u8>,
    /// For each text that is not its memory's last or earlier one, how many bytes of its own it has.
    counts: Vec<u16>,
    bytes: Vec<u8>,
    first: Window,
    second: Window,
    third: Window,
    ghost packed: { IsPacked marks.items counts.items bytes.items first second third },
}

/// Appends bytes for which there is room, so it takes no memory.
fn append(own: &[u8], bytes: &mut Vec<u8>)
    requires { vec_len bytes.old + length own.now ≤ vec_capacity bytes.old }
    ensures items { bytes.new.items ≡ bytes.old.items ++ own.now }
    ensures len { vec_len bytes.new ≡ vec_len bytes.old + length own.now }
    ensures capacity { vec_capacity bytes.old ≤ vec_capacity bytes.new }
{
    let _ = bytes.extend_from_slice(own);
}

impl PackedTexts {
    ghost use Rattle.std.specs.Prelude.{◌≡◌, ◌+◌, ◌≤◌, ℕ, [], ◌∷◌, ◌++◌, length, OnOk};
    ghost use Rattle.gs_packed_texts.specs.Texts.{texts_of, left_of, own_bytes, HasRoom};
    ghost use Rattle.gs_packed_texts.specs.Closed.{closed_texts, closed_room};

    /// No texts. Takes no memory.
    pub fn new(alloc: Global) -> PackedTexts
        ensures { texts_of result ≡ [] }
    {
        PackedTexts {
            marks: Vec::new(alloc),
            counts: Vec::new(alloc),
            bytes: Vec::new(alloc),
            first: Window::empty(),
            second: Window::empty(),
            third: Window::empty(),
        }
    }

    /// Makes room for so many texts more, with so many bytes in all.
    pub fn make_room(&mut self, texts: usize, bytes: usize) -> Result<(), AllocError>
        ensures texts { texts_of self.new ≡ texts_of self.old }
        ensures room { OnOk result (HasRoom self.new texts bytes) }
    {
        self.marks.reserve(texts)?;
        self.counts.reserve(texts)?;
        self.bytes.reserve(bytes)
    }

    /// Adds a text, for which there is room. Takes no memory.
    pub fn push(&mut self, text: &[u8])
        requires short { length text.now ≤ 65_535 }
        requires room { HasRoom self.old 1 (length text.now) }
        ensures texts { texts_of self.new ≡ texts_of self.old ++ text.now ∷ [] }
        ensures room { (n k : ℕ) → HasRoom self.old (n + 1) (k + length text.now) → HasRoom self.new n k }
    {
        let place = placed(&self.bytes, self.first, text);
        let own = &text[place.front..];
        let span = Span {
            start: self.bytes.len(),
            count: own.len(),
        };
        let window = self.first.after(place.mark, span);
        self.marks.push_reserved(place.mark);
        push_count(place.mark, own.len(), &mut self.counts);
        append(own, &mut self.bytes);
        self.first = self.second;
        self.second = self.third;
        self.third = window;
    }

    /// The same texts, after which no more will come. All room that is not filled is given back; where
    /// memory for a smaller block is refused, the room stays.
    pub fn closed(self) -> ClosedTexts
        ensures texts { closed_texts result ≡ texts_of self }
        ensures frees { own_bytes self ≡ 0 → closed_room result ≡ 0 }
    {
        let PackedTexts {
            mut marks,
            mut counts,
            mut bytes,
            ..
        } = self;
        marks.shrink_to_fit();
        counts.shrink_to_fit();
        bytes.shrink_to_fit();
        ClosedTexts::new(marks, counts, bytes)
    }

    /// The texts, the first one first.
    pub fn texts(&self) -> Texts<'_>
        ensures { left_of result ≡ texts_of self.now }
    {
        Texts::new(&self.marks, &self.counts, &self.bytes)
    }

    /// How many bytes of their own the texts have.
    #[cfg(test)]
    pub fn own_bytes(&self) -> usize {
        self.bytes.len()
    }
}
