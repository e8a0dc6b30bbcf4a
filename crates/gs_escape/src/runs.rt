//! The bytes at the front of a text that stand as they are.
ghost use Rattle.std.specs.Prelude.{◌≡◌, ◌≤◌, ◌<◌, length, take, drop};
ghost use Rattle.gs_escape.specs.Meanings.{begins_with_other as begins_with_other_of, has_few_quotes as has_few_quotes_of, stands_short as stands_short_of, stands_long as stands_long_of, stands_local as stands_local_of, stands as stands_of};
ghost use Rattle.gs_escape.specs.Runs.{run_of};

use crate::forms::Form;
use gs_chars::is_iri_char;

fn begins_with_other(quote: u8, text: &[u8]) -> bool
    ensures { result ≡ begins_with_other_of quote text.now }
{
    match text.split_first() {
        None => false,
        Some((first, _)) => *first != quote,
    }
}

/// Whether at most one quote more stands there, and then something else.
fn has_few_quotes(quote: u8, text: &[u8]) -> bool
    ensures { result ≡ has_few_quotes_of quote text.now }
{
    match text.split_first() {
        None => false,
        Some((first, rest)) => *first != quote || begins_with_other(quote, rest),
    }
}

#[tactic(auto, unfolding(crate::specs::Meanings::stands_short))]
fn stands_short(quote: u8, b: u8) -> bool
    ensures { result ≡ stands_short_of quote b }
{
    b != quote && !matches!(b, b'\\' | b'\n' | b'\r')
}

#[tactic(auto, unfolding(crate::specs::Meanings::stands_long))]
fn stands_long(quote: u8, b: u8, rest: &[u8]) -> bool
    ensures { result ≡ stands_long_of quote b rest.now }
{
    if b == quote {
        has_few_quotes(quote, rest)
    } else {
        b != b'\\'
    }
}

/// Whether a byte stands as it is before the rest of a text.
#[inline]
#[tactic(auto, unfolding(crate::specs::Meanings::stands_local))]
fn stands(form: Form, b: u8, rest: &[u8]) -> bool
    ensures { result ≡ stands_of form b rest.now }
{
    match form {
        Form::IriRef => is_iri_char(char::from(b)),
        Form::StringLiteralQuote => stands_short(b'"', b),
        Form::StringLiteralSingleQuote => stands_short(b'\'', b),
        Form::StringLiteralLongQuote => stands_long(b'"', b, rest),
        Form::StringLiteralLongSingleQuote => stands_long(b'\'', b, rest),
        Form::Local => b != b'\\',
    }
}

/// How many bytes stand as they are.
fn run(form: Form, bytes: &[u8]) -> usize
    ensures value { result ≡ run_of form bytes.now }
    ensures within { result ≤ length bytes.now }
{
    for (i, b) in bytes.iter().enumerate() {
        if !stands(form, *b, &bytes[i + 1..]) {
            return i;
        }
    }
    bytes.len()
}

/// The text that stands as it is, and the text after it.
pub fn cut_run(form: Form, text: &str) -> (&str, &str)
    ensures front { result.0.now ≡ take (run_of form text.now) text.now }
    ensures back { result.1.now ≡ drop (run_of form text.now) text.now }
{
    text.split_at(run(form, text.as_bytes()))
}
