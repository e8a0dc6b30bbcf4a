//! The classes of characters of N-Triples. The mark of ill-formed bytes is in none.
ghost use Rattle.std.specs.Prelude.{◌≡◌};
ghost use Rattle.gs_ntterm.specs.Classes.{is_space as is_space_of, may_stand_in_comment as may_stand_in_comment_of, begins_label as begins_label_of, is_label_char as is_label_char_of, is_tag_char as is_tag_char_of};

use gs_chars::{is_pn_chars, is_pn_chars_u};

/// Whether it may part tokens within a line.
#[inline]
pub fn is_space(c: u32) -> bool
    ensures { result ≡ is_space_of c }
{
    c == 32 || c == 9
}

/// Whether it may stand in a comment: each character but a line end may.
pub fn may_stand_in_comment(c: u32) -> bool
    ensures { result ≡ may_stand_in_comment_of c }
{
    char::from_u32(c).is_some()
}

/// Whether a label may begin with it.
pub fn begins_label(c: u32) -> bool
    ensures { result ≡ begins_label_of c }
{
    match char::from_u32(c) {
        Some(c) => is_pn_chars_u(c) || c == ':' || c.is_ascii_digit(),
        None => false,
    }
}

/// Whether it may stand in a label as it is; a dot may only before another.
pub fn is_label_char(c: u32) -> bool
    ensures { result ≡ is_label_char_of c }
{
    match char::from_u32(c) {
        Some(c) => is_pn_chars(c) || c == ':',
        None => false,
    }
}

/// Whether a character may stand in a part of a language tag, where digits may or may not.
pub fn is_tag_char(digits: bool, c: u32) -> bool
    ensures { result ≡ is_tag_char_of digits c }
{
    (c >= 65 && c <= 90) || (c >= 97 && c <= 122) || (digits && c >= 48 && c <= 57)
}
