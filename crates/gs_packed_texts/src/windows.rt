//! Where texts stand in the bytes of all texts.
ghost use Rattle.std.specs.Prelude.{◌≡◌, length};
ghost use Rattle.std.specs.Str.{bytes_eq};
ghost use Rattle.gs_packed_texts.specs.Packing.{Whole, Front, text_mark_of};
ghost use Rattle.gs_packed_texts.specs.Kept.{span_in, parts_in, no_span, no_window, window_after, IsSpanIn, ArePartsIn};

/// The mark of a text that is its memory's last one.
pub const LAST: u8 = 255;
/// The mark of a text that is its memory's earlier one.
pub const EARLIER: u8 = 254;
/// The mark of a text that stands whole, and is the anchor from there on. A lesser mark says how many
/// bytes of the anchor a text has.
pub const WHOLE: u8 = 253;

/// Bytes that stand together.
#[derive(Clone, Copy, Debug)]
pub struct Span {
    /// The number of bytes before them.
    pub start: usize,
    /// Their number.
    pub count: usize,
}

/// A text of two spans, one after the other.
#[derive(Clone, Copy, Debug)]
pub struct Parts {
    pub front: Span,
    pub rest: Span,
}

/// Where the texts of a memory stand.
#[derive(Clone, Copy, Debug)]
pub struct Window {
    /// The last text that was taken as an anchor.
    pub anchor: Span,
    /// The last text.
    pub last: Parts,
    /// The last text that was another one.
    pub earlier: Parts,
}

/// The bytes of a span.
pub fn bytes_at(bytes: &[u8], span: Span) -> &[u8]
    requires { IsSpanIn (length bytes.now) span }
    ensures { result.now ≡ span_in bytes.now span }
{
    &bytes[span.start..span.start + span.count]
}

/// Whether a text of two spans is this one.
pub fn is_text(bytes: &[u8], parts: Parts, text: &[u8]) -> bool
    requires { ArePartsIn (length bytes.now) parts }
    ensures { result ≡ bytes_eq (parts_in bytes.now parts) text.now }
{
    if parts.front.count > text.len() {
        return false;
    }
    let (front, rest) = text.split_at(parts.front.count);
    bytes_at(bytes, parts.rest) == rest && bytes_at(bytes, parts.front) == front
}

impl Span {
    /// Of no bytes.
    pub fn empty() -> Span
        ensures { result ≡ no_span }
    {
        Span { start: 0, count: 0 }
    }
}

impl Window {
    /// Of empty texts.
    pub fn empty() -> Window
        ensures { result ≡ no_window }
    {
        let text = Parts {
            front: Span::empty(),
            rest: Span::empty(),
        };
        Window {
            anchor: Span::empty(),
            last: text,
            earlier: text,
        }
    }

    /// After the earlier text once more.
    fn swapped(self) -> Window
        ensures { result ≡ record { anchor = self.anchor; last = self.earlier; earlier = self.last } }
    {
        Window {
            anchor: self.anchor,
            last: self.earlier,
            earlier: self.last,
        }
    }

    /// After a text that is the anchor from there on.
    fn with_anchor(self, whole: Span) -> Window
        ensures { result ≡ window_after Whole whole self }
    {
        Window {
            anchor: whole,
            last: Parts {
                front: Span::empty(),
                rest: whole,
            },
            earlier: self.last,
        }
    }

    /// After a text of so many of the anchor's bytes, as far as there are so many, and the rest.
    fn with_front(self, front: usize, rest: Span) -> Window
        ensures { result ≡ window_after (Front front) rest self }
    {
        let front = Span {
            start: self.anchor.start,
            count: front.min(self.anchor.count),
        };
        Window {
            anchor: self.anchor,
            last: Parts { front, rest },
            earlier: self.last,
        }
    }

    /// After a text with this mark, whose own bytes are these.
    pub fn after(self, mark: u8, own: Span) -> Window
        ensures { result ≡ window_after (text_mark_of mark) own self }
    {
        match mark {
            LAST => self,
            EARLIER => self.swapped(),
            WHOLE => self.with_anchor(own),
            front => self.with_front(usize::from(front), own),
        }
    }
}
