//! The tests of a character's class.
ghost use Rattle.std.specs.Prelude.{◌≡◌};
ghost use Rattle.gs_automaton.specs.Classes as spec;

use gs_chars::{is_pn_chars, is_pn_chars_base, is_pn_chars_u};

/// A line feed or a carriage return: there a comment or a short string ends.
pub fn is_line_end(c: char) -> bool
    ensures { result ≡ spec.is_line_end c }
{
    c == '\n' || c == '\r'
}

/// `+` or `-`.
pub fn is_sign(c: char) -> bool
    ensures { result ≡ spec.is_sign c }
{
    c == '+' || c == '-'
}

/// `0` to `9`.
pub fn is_digit(c: char) -> bool
    ensures { result ≡ spec.is_digit c }
{
    c.is_ascii_digit()
}

/// `e` or `E`.
pub fn is_exponent(c: char) -> bool
    ensures { result ≡ spec.is_exponent c }
{
    c == 'e' || c == 'E'
}

/// `A` to `Z`, or `a` to `z`.
pub fn is_alpha(c: char) -> bool
    ensures { result ≡ spec.is_alpha c }
{
    matches!(c, 'A'..='Z' | 'a'..='z')
}

/// `A` to `Z`, `a` to `z`, or `0` to `9`.
pub fn is_alphanumeric(c: char) -> bool
    ensures { result ≡ spec.is_alphanumeric c }
{
    is_alpha(c) || is_digit(c)
}

/// A hexadecimal digit, its letters large or small.
pub fn is_hex(c: char) -> bool
    ensures { result ≡ spec.is_hex c }
{
    matches!(c, '0'..='9' | 'A'..='F' | 'a'..='f')
}

/// A character that may stand after the backslash of ECHAR.
pub fn is_echar(c: char) -> bool
    ensures { result ≡ spec.is_echar c }
{
    matches!(c, 't' | 'b' | 'n' | 'r' | 'f' | '"' | '\'' | '\\')
}

/// A character that may stand after the backslash of PN_LOCAL_ESC.
pub fn is_local_escape(c: char) -> bool
    ensures { result ≡ spec.is_local_escape c }
{
    matches!(
        c,
        '_' | '~'
            | '.'
            | '-'
            | '!'
            | '$'
            | '&'
            | '\''
            | '('
            | ')'
            | '*'
            | '+'
            | ','
            | ';'
            | '='
            | '/'
            | '?'
            | '#'
            | '@'
            | '%'
    )
}

/// PN_CHARS_BASE: the first character of a prefix, and of a word.
pub fn is_prefix_start(c: char) -> bool
    ensures { result ≡ spec.is_prefix_start c }
{
    is_pn_chars_base(c)
}

/// PN_CHARS.
pub fn is_name_char(c: char) -> bool
    ensures { result ≡ spec.is_name_char c }
{
    is_pn_chars(c)
}

/// PN_CHARS_U or a digit: the first character of a label, and of a variable's name.
pub fn is_label_start(c: char) -> bool
    ensures { result ≡ spec.is_label_start c }
{
    is_pn_chars_u(c) || is_digit(c)
}

/// PN_CHARS_U, `:` or a digit: the first character of a local name, if it is no escape.
pub fn is_local_start(c: char) -> bool
    ensures { result ≡ spec.is_local_start c }
{
    is_pn_chars_u(c) || c == ':' || is_digit(c)
}

/// PN_CHARS or `:`, as PN_LOCAL has them after its first character.
pub fn is_local(c: char) -> bool
    ensures { result ≡ spec.is_local c }
{
    is_pn_chars(c) || c == ':'
}

/// PN_CHARS but `-`, after the first character of a variable's name.
pub fn is_variable(c: char) -> bool
    ensures { result ≡ spec.is_variable c }
{
    is_label_start(c) || matches!(c, '\u{B7}' | '\u{300}'..='\u{36F}' | '\u{203F}'..='\u{2040}')
}
