//! What the letters and the digits of escapes mean.
ghost use Rattle.std.specs.Prelude.{◌≡◌, if◌then◌else◌, Some, None};
ghost use Rattle.std.specs.Char.{digit_value};
ghost use Rattle.gs_model.specs.Escapes.{is_line_end as is_line_end_of, is_hex, echar_meaning as echar_meaning_of};

/// Whether a line, and a comment, ends at the character of this number.
#[inline]
pub fn is_line_end(c: u32) -> bool
    ensures { result ≡ is_line_end_of c }
{
    c == 10 || c == 13
}

/// The character that a letter after a backslash means, by its number (Turtle and N-Triples,
/// ECHAR).
#[tactic(auto, unfolding(gs_model::specs::Escapes::echar_meaning))]
pub fn echar_meaning(c: u32) -> Option<char>
    ensures { result ≡ echar_meaning_of c }
{
    match char::from_u32(c) {
        Some('t') => Some('\t'),
        Some('b') => Some('\u{8}'),
        Some('n') => Some('\n'),
        Some('r') => Some('\r'),
        Some('f') => Some('\u{C}'),
        Some('"') => Some('"'),
        Some('\'') => Some('\''),
        Some('\\') => Some('\\'),
        _ => None,
    }
}

/// The value of a hexadecimal digit, by its number (Turtle and N-Triples, HEX).
pub fn hex_value(c: u32) -> Option<u32>
    ensures { result ≡ (if is_hex c then Some (digit_value c) else None) }
{
    match c {
        48..=57 => Some(c - 48),
        65..=70 => Some(c - 55),
        97..=102 => Some(c - 87),
        _ => None,
    }
}
