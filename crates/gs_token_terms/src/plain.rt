//! Tokens whose meaning stands in their text.
ghost use Rattle.std.specs.Prelude.{◌≡◌, ◌<◌, ◌≤◌, true, false, Some, IfSome, length};
ghost use Rattle.std.specs.List.{list_all};
ghost use Rattle.gs_model.specs.Characters.{is_lower, is_iri_char};
ghost use Rattle.gs_automaton.specs.Runs.{AllFrom, plain_iri};
ghost use Rattle.gs_escape.specs.Tokens.{string_of};
ghost use Rattle.gs_token_terms.specs.Plain.{are_bare as are_bare_of, is_plain_in, is_quote, is_small_tag as is_small_tag_of, StandsIn, IsPlainString, IsPlainReference};

use gs_automaton::{InIri, run_end};

/// So many bytes a compiler tests at once. Of fewer, the plain ones in front are tested by a table.
const MANY: usize = 16;

/// The text between two bytes of ASCII.
fn inside(text: &str, front: u8, back: u8) -> Option<&str>
    requires front { front < 128 }
    requires back { back < 128 }
    ensures { IfSome result (λ i. StandsIn front back text.now i.now) }
{
    let bytes = text.as_bytes();
    let size = bytes.len();
    if size < 2 || bytes[0] != front || bytes[size - 1] != back {
        return None;
    }
    Some(&text[1..size - 1])
}

/// A byte that stands for itself between these quotes, and in the text of a literal.
fn is_plain(quote: u8, b: u8) -> bool
    ensures { result ≡ is_plain_in quote b }
{
    !matches!(b, b'"' | b'\\' | b'\n' | b'\r') && b != quote
}

/// Whether all stand for themselves. It looks at all of them, so that a compiler may test several
/// at once.
pub fn are_plain(quote: u8, bytes: &[u8]) -> bool
    ensures { result ≡ list_all (is_plain_in quote) bytes.now }
{
    let mut are = true;
    for b in bytes {
        are &= is_plain(quote, *b);
    }
    are
}

/// How many plain bytes of an IRI stand at the front of a short text, and 0 of a long one.
fn plain_front(bytes: &[u8]) -> usize
    ensures within { result ≤ length bytes.now }
    ensures plain { AllFrom plain_iri bytes.now 0 result }
{
    if bytes.len() < MANY {
        run_end::<InIri>(bytes, 0)
    } else {
        0
    }
}

/// Whether all are bytes of IRI characters, of which the backslash is none.
pub fn are_iri_bytes(bytes: &[u8]) -> bool
    ensures { result ≡ list_all is_iri_char bytes.now }
{
    let front = plain_front(bytes);
    gs_iri::are_iri_bytes(&bytes[front..])
}

/// Whether all are small letters.
fn are_small(bytes: &[u8]) -> bool
    ensures { result ≡ list_all is_lower bytes.now }
{
    bytes.iter().all(|b| matches!(*b, b'a'..=b'z'))
}

/// Whether a language tag has small letters alone, after its mark.
pub fn is_small_tag(text: &[u8]) -> bool
    ensures { result ≡ is_small_tag_of text.now }
{
    match text {
        [] => false,
        [mark, tag @ ..] => *mark == b'@' && tag.len() > 0 && are_small(tag),
    }
}

/// The text of a string between three quotes, of which one is taken away at each end.
fn long_form<'a>(text: &str, inner: &'a str, quote: u8) -> Option<&'a str>
    requires quote { is_quote quote ≡ true }
    requires stands { StandsIn quote quote text.now inner.now }
    ensures { IfSome result (λ form. IsPlainString text.now form.now) }
{
    let Some(second) = inside(inner, quote, quote) else {
        return None;
    };
    let Some(form) = inside(second, quote, quote) else {
        return None;
    };
    if are_plain(quote, form.as_bytes()) {
        Some(form)
    } else {
        None
    }
}

/// The text of a string between its quotes, of this kind.
fn form_in(text: &str, quote: u8) -> Option<&str>
    requires quote { is_quote quote ≡ true }
    ensures { IfSome result (λ form. IsPlainString text.now form.now) }
{
    let Some(form) = inside(text, quote, quote) else {
        return None;
    };
    if are_plain(quote, form.as_bytes()) {
        return Some(form);
    }
    long_form(text, form, quote)
}

/// What a string means, where it stands between the quotes and needs no escape in a literal.
pub fn plain_form(text: &str) -> Option<&str>
    ensures { IfSome result (λ form. IsPlainString text.now form.now) }
{
    match text.as_bytes().first() {
        Some(b'"') => form_in(text, b'"'),
        Some(b'\'') => form_in(text, b'\''),
        _ => None,
    }
}

/// Whether all stand for themselves between three quotes, where line ends and quotes may stand.
fn are_bare(quote: u8, bytes: &[u8]) -> bool
    ensures { result ≡ are_bare_of quote false bytes.now }
{
    let mut are = true;
    let mut last = false;
    for b in bytes {
        let same = *b == quote;
        are &= *b != b'\\' && !(last && same);
        last = same;
    }
    are && !last
}

/// The text of a string between three quotes of this kind.
fn bare_in(text: &str, quote: u8) -> Option<&str>
    requires { is_quote quote ≡ true }
    ensures { IfSome result (λ form. string_of text.now ≡ Some form.now) }
{
    let Some(first) = inside(text, quote, quote) else {
        return None;
    };
    let Some(second) = inside(first, quote, quote) else {
        return None;
    };
    let Some(form) = inside(second, quote, quote) else {
        return None;
    };
    if are_bare(quote, form.as_bytes()) {
        Some(form)
    } else {
        None
    }
}

/// What a string between three quotes means, where it has no backslash.
pub fn bare_form(text: &str) -> Option<&str>
    ensures { IfSome result (λ form. string_of text.now ≡ Some form.now) }
{
    match text.as_bytes().first() {
        Some(b'"') => bare_in(text, b'"'),
        Some(b'\'') => bare_in(text, b'\''),
        _ => None,
    }
}

/// What a reference means, where it stands between the brackets.
pub fn plain_reference(text: &str) -> Option<&str>
    ensures { IfSome result (λ iri. IsPlainReference text.now iri.now) }
{
    let Some(iri) = inside(text, b'<', b'>') else {
        return None;
    };
    if are_iri_bytes(iri.as_bytes()) {
        Some(iri)
    } else {
        None
    }
}
