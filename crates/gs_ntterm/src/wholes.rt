//! Tokens that stand whole at the front of a piece, as they are in the text of a term.
ghost use Rattle.std.specs.Prelude.{◌≡◌, ◌+◌, ◌≤◌, ◌<◌, true, if◌then◌else◌, length, take, IfOk, IfSome};
ghost use Rattle.std.specs.Str.{bytes_eq};
ghost use Rattle.gs_model.specs.Limits.{max_term_bytes};
ghost use Rattle.std.specs.List.{list_all};
ghost use Rattle.gs_model.specs.Characters.{is_lower as is_lower_of, is_iri_char};
ghost use Rattle.gs_model.specs.Iris.{is_absolute};
ghost use Rattle.gs_model.specs.Texts.{term_of};
ghost use Rattle.gs_ntterm.specs.Wholes.{IriFront, IsIriFront, StringFront, DatatypeFront, TagFront, IsLiteralFront, IsLiteralText, LabelBegins, LabelFront, string_suffix};

use crate::classes::{begins_label, is_space};
use crate::names::Name;
use crate::runs::{Class, InIri, InLabel, InString, run_len, short_run_len};
use crate::tokens::ascii_str;
use gs_iri::{is_letter, is_scheme_char};
use gs_model::MAX_TERM_BYTES;
use gs_term::TermText;
use std::alloc::{AllocError, Global};

/// The datatype that a text leaves out.
const STRING_SUFFIX: &[u8] = b"^^<http://www.w3.org/2001/XMLSchema#string>";

/// Small letters of a language tag.
struct InTag;

impl Class for InTag {
    ghost class = { is_lower_of };

    #[inline]
    fn has(b: u8) -> bool {
        matches!(b, b'a'..=b'z')
    }
}

/// Whether bytes of an IRI are an absolute one: its scheme is all that is looked at.
#[inline]
fn has_scheme(iri: &[u8]) -> bool
    requires { list_all is_iri_char iri.now ≡ true }
    ensures { result ≡ is_absolute iri.now }
{
    if iri.len() == 0 || !is_letter(iri[0]) {
        return false;
    }
    let mut i = 1;
    while i < iri.len() && is_scheme_char(iri[i]) {
        i += 1;
    }
    if i >= iri.len() {
        return false;
    }
    iri[i] == b':'
}

/// How many bytes an absolute IRI in its marks has at the front, or 0 where none stands there
/// whole, in plain characters, short enough for a term.
#[inline]
pub fn iri_len(piece: &[u8]) -> usize
    ensures { 0 < result → IriFront piece.now result }
{
    if piece.len() == 0 || piece[0] != b'<' {
        return 0;
    }
    let text = &piece[1..];
    let n = run_len::<InIri>(text);
    if n >= text.len() || text[n] != b'>' || n > MAX_TERM_BYTES - 2 || !has_scheme(&text[..n]) {
        return 0;
    }
    n + 2
}

/// How many bytes a string in its quotes has at the front, or 0 where none stands there whole, in
/// characters that mean themselves.
#[inline]
fn string_len(piece: &[u8]) -> usize
    ensures { 0 < result → StringFront piece.now result }
{
    if piece.len() == 0 || piece[0] != b'"' {
        return 0;
    }
    let text = &piece[1..];
    let n = run_len::<InString>(text);
    if n >= text.len() || text[n] != b'"' {
        return 0;
    }
    n + 2
}

/// The IRI that stands whole at the front, if one does, and how many bytes it has.
#[inline]
pub fn iri_front(alloc: Global, piece: &[u8]) -> Result<Option<(Name, usize)>, AllocError>
    ensures { IfOk result (λ o. IfSome o (λ w. IsIriFront piece.now w.1 w.0.term)) }
{
    let n = iri_len(piece);
    if n == 0 {
        return Ok(None);
    }
    let term = TermText::of_canonical(alloc, &piece[..n])?;
    Ok(Some((Name { term }, n)))
}

/// How many bytes a datatype has at the front, or 0 where none stands there whole.
#[inline]
fn datatype_len(rest: &[u8]) -> usize
    ensures { 0 < result → DatatypeFront rest.now result }
{
    if rest.len() < 2 || rest[0] != b'^' || rest[1] != b'^' {
        return 0;
    }
    let n = iri_len(&rest[2..]);
    if n == 0 {
        return 0;
    }
    n + 2
}

/// How many bytes a language tag of small letters has at the front, or 0 where none stands there.
#[inline]
fn tag_len(rest: &[u8]) -> usize
    ensures { 0 < result → TagFront rest.now result }
{
    if rest.len() == 0 || rest[0] != b'@' {
        return 0;
    }
    let n = short_run_len::<InTag>(&rest[1..]);
    if n == 0 {
        return 0;
    }
    n + 1
}

/// How many bytes of a string of so many, and of its datatype's n after it, are the literal's text.
#[inline]
fn text_len(rest: &[u8], quoted: usize, n: usize) -> usize
    requires within { n ≤ length rest.now }
    requires short { quoted + n ≤ max_term_bytes }
    ensures { result ≡ (if bytes_eq (take n rest.now) string_suffix then quoted else quoted + n) }
{
    if &rest[..n] == STRING_SUFFIX {
        quoted
    } else {
        quoted + n
    }
}

/// How many bytes the literal of a string of so many bytes has, and its token, if the IRI of its datatype
/// stands whole after it.
fn typed_len(piece: &[u8], quoted: usize) -> Option<(usize, usize)>
    requires { StringFront piece.now quoted }
    ensures { IfSome result (λ w. IsLiteralText piece.now w.0 w.1) }
{
    let rest = &piece[quoted..];
    let n = datatype_len(rest);
    if n == 0 || quoted > MAX_TERM_BYTES || n > MAX_TERM_BYTES - quoted {
        return None;
    }
    Some((text_len(rest, quoted, n), quoted + n))
}

/// The same, if a language tag of small letters stands after it.
fn tagged_len(piece: &[u8], quoted: usize) -> Option<(usize, usize)>
    requires { StringFront piece.now quoted }
    ensures { IfSome result (λ w. IsLiteralText piece.now w.0 w.1) }
{
    let n = tag_len(&piece[quoted..]);
    if n == 0 || quoted > MAX_TERM_BYTES || n > MAX_TERM_BYTES - quoted {
        return None;
    }
    Some((quoted + n, quoted + n))
}

/// How many bytes the text of the literal has that stands whole at the front, if one does, and how many its
/// token has. Where it is not the longest there, what comes after it is no dot, and no blanks with a dot
/// after them.
#[inline]
pub fn literal_len(piece: &[u8]) -> Option<(usize, usize)>
    ensures { IfSome result (λ w. IsLiteralText piece.now w.0 w.1) }
{
    let quoted = string_len(piece);
    if quoted == 0 || quoted >= piece.len() {
        return None;
    }
    match piece[quoted] {
        b'^' => typed_len(piece, quoted),
        b'@' => tagged_len(piece, quoted),
        _ if quoted > MAX_TERM_BYTES => None,
        _ => Some((quoted, quoted)),
    }
}

/// The literal that stands whole at the front, if one does, and how many bytes it has (`literal_len`).
#[inline]
pub fn literal_front(alloc: Global, piece: &[u8]) -> Result<Option<(TermText, usize)>, AllocError>
    ensures { IfOk result (λ o. IfSome o (λ w. IsLiteralFront piece.now w.1 w.0)) }
{
    match literal_len(piece) {
        None => Ok(None),
        Some((text, n)) => {
            let term = TermText::of_canonical(alloc, &piece[..text])?;
            Ok(Some((term, n)))
        }
    }
}

/// Whether a label of ASCII begins at the front, with its mark and its first character.
#[inline]
fn begins_as_label(piece: &[u8]) -> bool
    ensures { result ≡ true → LabelBegins piece.now }
{
    if piece.len() < 3 || piece[0] != b'_' || piece[1] != b':' || piece[2] >= 128 {
        return false;
    }
    begins_label(u32::from(piece[2]))
}

/// The label that stands whole at the front after its mark, before a blank, if one of ASCII without dots does.
#[inline]
pub fn label_front(piece: &[u8]) -> Option<&str>
    ensures { IfSome result (λ l. LabelFront piece.now l.now) }
{
    if !begins_as_label(piece) {
        return None;
    }
    let n = 3 + short_run_len::<InLabel>(&piece[3..]);
    if n >= piece.len() || !is_space(u32::from(piece[n])) {
        return None;
    }
    Some(ascii_str(&piece[2..n]))
}
