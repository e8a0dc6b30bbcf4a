//! The form of a token that is too long to be held.
ghost use Rattle.std.specs.Prelude.{◌≡◌, []};
ghost use Rattle.gs_ntterm.specs.Forms.{scheme_after, tag_after_byte, form_on, form_after, form_of, is_absolute_form, is_tag_form};

use crate::classes::is_tag_char;
use gs_chars::is_iri_char;

/// How far an absolute IRI has been read: its scheme, `:`, and IRI characters.
#[derive(Clone, Copy)]
pub enum Scheme {
    Unbegun,
    Inside,
    AfterColon,
    Broken,
}

/// How far a language tag has been read.
#[derive(Clone, Copy)]
pub enum Tag {
    /// In a part: whether digits may stand in it, and whether it has begun.
    Part(bool, bool),
    /// The bytes are no language tag, and begin none.
    Broken,
}

/// What is kept of a token's bytes where no term has room for them.
#[derive(Clone, Copy)]
pub struct Form {
    pub scheme: Scheme,
    pub tag: Tag,
}

impl Scheme {
    fn after(self, b: u8) -> Scheme
        ensures { result ≡ scheme_after self b }
    {
        match self {
            Scheme::Unbegun => match b {
                b'A'..=b'Z' | b'a'..=b'z' => Scheme::Inside,
                _ => Scheme::Broken,
            },
            Scheme::Inside => match b {
                b':' => Scheme::AfterColon,
                b'A'..=b'Z' | b'a'..=b'z' | b'0'..=b'9' | b'+' | b'-' | b'.' => Scheme::Inside,
                _ => Scheme::Broken,
            },
            Scheme::AfterColon if is_iri_char(char::from(b)) => Scheme::AfterColon,
            _ => Scheme::Broken,
        }
    }
}

impl Tag {
    fn after(self, b: u8) -> Tag
        ensures { result ≡ tag_after_byte self b }
    {
        let Tag::Part(digits, begun) = self else {
            return Tag::Broken;
        };
        if is_tag_char(digits, u32::from(b)) {
            Tag::Part(digits, true)
        } else if b == b'-' && begun {
            Tag::Part(true, false)
        } else {
            Tag::Broken
        }
    }
}

impl Form {
    /// The form of no bytes.
    pub fn new() -> Form
        ensures { result ≡ form_of [] }
    {
        Form {
            scheme: Scheme::Unbegun,
            tag: Tag::Part(false, false),
        }
    }

    fn on(self, b: u8) -> Form
        ensures { result ≡ form_on self b }
    {
        Form {
            scheme: self.scheme.after(b),
            tag: self.tag.after(b),
        }
    }

    /// The form with some bytes more.
    pub fn after(self, bytes: &[u8]) -> Form
        ensures { result ≡ form_after self bytes.now }
    {
        let mut form = self;
        for b in bytes {
            form = form.on(*b);
        }
        form
    }

    /// Whether the bytes are an absolute IRI.
    pub fn is_absolute(self) -> bool
        ensures { result ≡ is_absolute_form self }
    {
        matches!(self.scheme, Scheme::AfterColon)
    }

    /// Whether the bytes are a language tag.
    pub fn is_tag(self) -> bool
        ensures { result ≡ is_tag_form self }
    {
        matches!(self.tag, Tag::Part(_, true))
    }
}
