//! Readers of packed texts.
ghost use Rattle.gs_packed_texts.specs.Kept.{IsReady};

use crate::counts::split_count;
use crate::windows::{Span, Window, bytes_at};

/// A text in two parts, one after the other, as they stand where it is packed.
#[derive(Clone, Copy, Debug)]
pub struct SplitText<'a> {
    front: &'a [u8],
    rest: &'a [u8],
}

impl<'a> SplitText<'a> {
    ghost use Rattle.std.specs.Prelude.{◌≡◌, ◌++◌};
    ghost use Rattle.gs_packed_texts.specs.Texts.{split_front, split_rest};

    /// The bytes that it has from an earlier text.
    pub fn front(&self) -> &'a [u8]
        ensures { result.now ≡ split_front self.now }
    {
        self.front
    }

    /// The bytes after them.
    pub fn rest(&self) -> &'a [u8]
        ensures { result.now ≡ split_rest self.now }
    {
        self.rest
    }
}

/// Reads packed texts, the first one first. Takes no memory.
#[derive(Drop)]
pub struct Texts<'a> {
    marks: &'a [u8],
    counts: &'a [u16],
    bytes: &'a [u8],
    at: usize,
    first: Window,
    second: Window,
    third: Window,
    ghost ready: { IsReady marks.now counts.now bytes.now at first second third },
}

impl<'a> Texts<'a> {
    ghost use Rattle.std.specs.Prelude.{◌≡◌, length};
    ghost use Rattle.std.specs.List.{sum};
    ghost use Rattle.gs_packed_texts.specs.Kept.{own_in};
    ghost use Rattle.gs_packed_texts.specs.Packing.{source_of, unpacked};
    ghost use Rattle.gs_packed_texts.specs.Texts.{left_of, Gives};

    /// A reader of the texts with these marks, and with these bytes of their own.
    pub(crate) fn new(marks: &'a [u8], counts: &'a [u16], bytes: &'a [u8]) -> Texts<'a>
        requires counted { sum counts.now ≡ length bytes.now }
        requires owned { own_in marks.now ≡ length counts.now }
        ensures { left_of result ≡ unpacked marks.now (source_of counts.now bytes.now) }
    {
        Texts {
            marks,
            counts,
            bytes,
            at: 0,
            first: Window::empty(),
            second: Window::empty(),
            third: Window::empty(),
        }
    }

    /// The next text.
    pub fn next(&mut self) -> Option<SplitText<'a>>
        ensures { Gives (left_of self.old) result (left_of self.new) }
    {
        let (mark, marks) = self.marks.split_first()?;
        let (count, counts) = split_count(*mark, self.counts);
        let own = Span {
            start: self.at,
            count,
        };
        let window = self.first.after(*mark, own);
        self.marks = marks;
        self.counts = counts;
        self.at += count;
        self.first = self.second;
        self.second = self.third;
        self.third = window;
        Some(SplitText {
            front: bytes_at(self.bytes, window.last.front),
            rest: bytes_at(self.bytes, window.last.rest),
        })
    }
}
