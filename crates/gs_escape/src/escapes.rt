//! What an escape means, after its backslash.
ghost use Rattle.std.specs.Prelude.{◌≡◌, ◌≤◌, length, if◌then◌else◌};
ghost use Rattle.std.specs.List.{list_all};
ghost use Rattle.gs_model.specs.Escapes.{is_hex, hex_number};
ghost use Rattle.gs_automaton.specs.Classes.{is_local_escape as is_local_escape_of};
ghost use Rattle.gs_escape.specs.Escapes.{numbered as numbered_of, uchar as uchar_of, iri_escape as iri_escape_of, string_escape as string_escape_of, local_escape as local_escape_of, escape as escape_of};

use crate::forms::Form;
use gs_chars::{echar_meaning, hex_value, is_iri_char};

/// The number that hexadecimal digits write.
fn number(digits: &[u8]) -> Option<u32>
    requires { length digits.now ≤ 8 }
    ensures { result ≡ (if list_all is_hex digits.now then Some (hex_number digits.now) else None) }
{
    let mut value = 0;
    for d in digits {
        match hex_value(u32::from(*d)) {
            None => return None,
            Some(digit) => value = value * 16 + digit,
        }
    }
    Some(value)
}

/// The character of so many digits, and the bytes of the escape after its backslash.
#[tactic(auto, unfolding(crate::specs::Escapes::numbered))]
fn numbered(count: usize, text: &[u8]) -> Option<(char, usize)>
    requires { count ≤ 8 }
    ensures { result ≡ numbered_of count text.now }
{
    if text.len() < count {
        return None;
    }
    match number(&text[..count]) {
        None => None,
        Some(value) => match char::from_u32(value) {
            None => None,
            Some(c) => Some((c, count + 1)),
        },
    }
}

#[tactic(auto, unfolding(crate::specs::Escapes::uchar))]
fn uchar(text: &[u8]) -> Option<(char, usize)>
    ensures { result ≡ uchar_of text.now }
{
    match text.split_first() {
        Some((b'u', digits)) => numbered(4, digits),
        Some((b'U', digits)) => numbered(8, digits),
        _ => None,
    }
}

fn is_local_escape(b: u8) -> bool
    ensures { result ≡ is_local_escape_of b }
{
    matches!(
        b,
        b'_' | b'~'
            | b'.'
            | b'-'
            | b'!'
            | b'$'
            | b'&'
            | b'\''
            | b'('
            | b')'
            | b'*'
            | b'+'
            | b','
            | b';'
            | b'='
            | b'/'
            | b'?'
            | b'#'
            | b'@'
            | b'%'
    )
}

#[tactic(auto, unfolding(crate::specs::Escapes::iri_escape))]
fn iri_escape(text: &[u8]) -> Option<(char, usize)>
    ensures { result ≡ iri_escape_of text.now }
{
    match uchar(text) {
        Some((c, size)) if is_iri_char(c) => Some((c, size)),
        _ => None,
    }
}

#[tactic(auto, unfolding(crate::specs::Escapes::string_escape, crate::specs::Escapes::echar, crate::specs::Escapes::uchar))]
fn string_escape(text: &[u8]) -> Option<(char, usize)>
    ensures { result ≡ string_escape_of text.now }
{
    let Some(first) = text.first() else {
        return None;
    };
    match echar_meaning(u32::from(*first)) {
        Some(c) => Some((c, 1)),
        None => uchar(text),
    }
}

#[tactic(auto, unfolding(crate::specs::Escapes::local_escape))]
fn local_escape(text: &[u8]) -> Option<(char, usize)>
    ensures { result ≡ local_escape_of text.now }
{
    match text.first() {
        Some(first) if is_local_escape(*first) => Some((char::from(*first), 1)),
        _ => None,
    }
}

/// The character that an escape of a form means, and how many bytes the escape has after its
/// backslash.
pub fn escape(form: Form, text: &[u8]) -> Option<(char, usize)>
    ensures { result ≡ escape_of form text.now }
{
    match form {
        Form::IriRef => iri_escape(text),
        Form::Local => local_escape(text),
        _ => string_escape(text),
    }
}
