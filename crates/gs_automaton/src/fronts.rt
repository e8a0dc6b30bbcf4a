//! Prefixes of most tokens: straight on through states that are known, over bytes of
//! ASCII.
ghost use Rattle.std.specs.Prelude.{◌≤◌, ◌<◌, length};
ghost use Rattle.gs_automaton.specs.Fronts.{GoesOver, IsAtStart, LeadsOn};
ghost use Rattle.gs_automaton.specs.declared.states.Mark.TheVariants as mark;
ghost use Rattle.gs_automaton.specs.declared.states.State.TheVariants as at;
ghost use Rattle.gs_automaton.specs.declared.states.Text.TheVariants as inside;

use crate::numbers::{number, sign};
use crate::runs::{InIri, InName, InString, Letters, is_plain_string};
use crate::scans::Scan;
use crate::states::{Mark, State, Text};
use crate::terminals::Terminal;
use crate::ways::{
    ended, is_letter, is_numeral, is_plain_start, open_ended, open_ended_run, over_byte,
    over_byte_and_run, stops,
};

/// Over a colon after a prefix, and over a local name.
#[inline(always)]
fn namespace(text: &[u8], from: Scan) -> (Scan, bool)
    requires leads { LeadsOn text.now from at.Namespace }
    requires best { from.best_len ≤ from.len }
    ensures { GoesOver text.now from result }
{
    let scan = over_byte(text, from, State::Namespace);
    if scan.len < text.len() && is_plain_start(text[scan.len]) {
        return open_ended_run::<InName>(text, scan, State::Local);
    }
    (scan, stops(text, scan))
}

/// Over a word, or over a prefix and a local name.
#[inline(always)]
fn word(text: &[u8], from: Scan) -> (Scan, bool)
    requires leads { LeadsOn text.now from at.Word }
    requires best { from.best_len ≤ from.len }
    ensures { GoesOver text.now from result }
{
    let scan = over_byte_and_run::<InName>(text, from, State::Word);
    if scan.len < text.len() && text[scan.len] == b':' {
        return namespace(text, scan);
    }
    (scan, stops(text, scan))
}

/// Over a colon after an underscore, and over a label.
#[inline(always)]
fn label(text: &[u8], from: Scan) -> (Scan, bool)
    requires leads { LeadsOn text.now from at.LabelColon }
    requires best { from.best_len ≤ from.len }
    ensures { GoesOver text.now from result }
{
    let scan = over_byte(text, from, State::LabelColon);
    if scan.len < text.len() && is_plain_start(text[scan.len]) {
        return open_ended_run::<InName>(text, scan, State::Label);
    }
    (scan, false)
}

/// Over the underscore of a blank node, and over its label.
#[inline(always)]
fn underscore(text: &[u8], from: Scan) -> (Scan, bool)
    requires leads { LeadsOn text.now from at.Underscore }
    requires best { from.best_len ≤ from.len }
    ensures { GoesOver text.now from result }
{
    let scan = over_byte(text, from, State::Underscore);
    if scan.len < text.len() && text[scan.len] == b':' {
        return label(text, scan);
    }
    (scan, false)
}

/// Over an IRI, or over its prefix up to an escape.
#[inline(always)]
fn iri(text: &[u8], from: Scan) -> (Scan, bool)
    requires leads { LeadsOn text.now from (at.Inside inside.Iri) }
    requires best { from.best_len ≤ from.len }
    ensures { GoesOver text.now from result }
{
    let scan = over_byte_and_run::<InIri>(text, from, State::Inside(Text::Iri));
    if scan.len < text.len() && text[scan.len] == b'>' {
        return ended(text, scan, Terminal::IriRef);
    }
    (scan, false)
}

/// Over the plain characters of a string, and over its closing quote.
#[inline(always)]
fn string(text: &[u8], from: Scan) -> (Scan, bool)
    requires leads { LeadsOn text.now from (at.Inside (inside.Short mark.Quote)) }
    requires best { from.best_len ≤ from.len }
    ensures { GoesOver text.now from result }
{
    let scan = over_byte_and_run::<InString>(text, from, State::Inside(Text::Short(Mark::Quote)));
    if scan.len < text.len() && text[scan.len] == b'"' {
        return ended(text, scan, Terminal::StringLiteralQuote);
    }
    (scan, false)
}

/// Over a quote, and over the string after it, up to an escape.
#[inline(always)]
fn quote(text: &[u8], from: Scan) -> (Scan, bool)
    requires leads { LeadsOn text.now from (at.First mark.Quote) }
    requires best { from.best_len ≤ from.len }
    ensures { GoesOver text.now from result }
{
    let scan = over_byte(text, from, State::First(Mark::Quote));
    if scan.len < text.len() && is_plain_string(text[scan.len]) {
        return string(text, scan);
    }
    (scan, false)
}

/// Over `@`, and over the letters after it.
#[inline(always)]
fn tag(text: &[u8], from: Scan) -> (Scan, bool)
    requires leads { LeadsOn text.now from at.AtSign }
    requires best { from.best_len ≤ from.len }
    ensures { GoesOver text.now from result }
{
    let scan = over_byte(text, from, State::AtSign);
    if scan.len < text.len() && is_letter(text[scan.len]) {
        return open_ended_run::<Letters>(text, scan, State::Tag);
    }
    (scan, false)
}

/// Over the two carets before a datatype.
#[inline(always)]
fn carets(text: &[u8], from: Scan) -> (Scan, bool)
    requires leads { LeadsOn text.now from at.Caret }
    requires best { from.best_len ≤ from.len }
    ensures { GoesOver text.now from result }
{
    let scan = over_byte(text, from, State::Caret);
    if scan.len < text.len() && text[scan.len] == b'^' {
        return ended(text, scan, Terminal::Carets);
    }
    (scan, false)
}

/// Over a prefix of a token, where it begins with punctuation or a quote.
#[inline(always)]
fn over_mark(text: &[u8], from: Scan) -> (Scan, bool)
    requires start { IsAtStart from.state }
    requires within { from.len < length text.now }
    requires best { from.best_len ≤ from.len }
    ensures { GoesOver text.now from result }
{
    match text[from.len] {
        b';' => ended(text, from, Terminal::Semicolon),
        b',' => ended(text, from, Terminal::Comma),
        b'.' => open_ended(text, from, State::Dot),
        b'"' => quote(text, from),
        b'<' => iri(text, from),
        b':' => namespace(text, from),
        b'_' => underscore(text, from),
        b'@' => tag(text, from),
        b'^' => carets(text, from),
        b'-' => sign(text, from),
        b'(' => ended(text, from, Terminal::OpenParenthesis),
        b')' => ended(text, from, Terminal::CloseParenthesis),
        b'[' => ended(text, from, Terminal::OpenBracket),
        b']' => ended(text, from, Terminal::CloseBracket),
        _ => (from, false),
    }
}

/// Over a prefix of a token, as far as it goes straight on.
#[inline(always)]
pub fn over_front(text: &[u8], from: Scan) -> (Scan, bool)
    requires start { IsAtStart from.state }
    requires within { from.len < length text.now }
    requires best { from.best_len ≤ from.len }
    ensures { GoesOver text.now from result }
{
    let byte = text[from.len];
    if is_letter(byte) {
        word(text, from)
    } else if is_numeral(byte) {
        number(text, from)
    } else {
        over_mark(text, from)
    }
}
