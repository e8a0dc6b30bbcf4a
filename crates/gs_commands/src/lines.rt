//! The canonical line of one triple.
ghost use Rattle.std.specs.Prelude.{MatchOption, ◌≡◌, ◌++◌, ◌∷◌, [], ℕ, List, IfOk, drop, length, true, false, ◌≤◌};
ghost use Rattle.gs_model.specs.Terms.{Term, Iri, Blank, Literal, Typed, Tagged, text_of, IsTerm};
ghost use Rattle.gs_model.specs.Characters.{underscore};
ghost use Rattle.gs_model.specs.Texts.{lexical_of, kind_of, front as front_of, split_first, blank_of, term_of, triple_of};
ghost use Rattle.gs_model.specs.Triples.{RdfTriple, IsTriple, line_of};
ghost use Rattle.gs_term.specs.Making.{Makes};
ghost use Rattle.gs_commands.specs.Found.{Finds, ReadsTerm};
ghost use Rattle.gs_commands.specs.Commands.{SaysLine};

use crate::words::{decoded, split};
use gs_model::{Refusal, memory_apart};
use gs_ntwrite::line as push_line;
use gs_term::{TermText, Triple};
use std::alloc::{AllocError, Global};

/// The bytes of a lexical form up to its closing quote, and where the text after the quote begins.
fn unescaped(alloc: Global, bytes: &[u8]) -> Result<(Vec<u8>, usize), AllocError>
    ensures { IfOk result (λ r. (r.1 ≤ length bytes.now)
        × (lexical_of false bytes.now ≡ (r.0.items, drop r.1 bytes.now))) }
{
    let mut lexical = Vec::new(alloc);
    let mut is_escaped = false;
    for (i, b) in bytes.iter().enumerate() {
        if is_escaped {
            is_escaped = false;
            lexical.push(match *b {
                b'n' => b'\n',
                b'r' => b'\r',
                other => other,
            })?;
        } else if *b == b'"' {
            return Ok((lexical, i + 1));
        } else if *b == b'\\' {
            is_escaped = true;
        } else {
            lexical.push(*b)?;
        }
    }
    Ok((lexical, bytes.len()))
}

/// A term, where making it was not refused for its form.
fn made(outcome: Result<TermText, Refusal>) -> Result<Option<TermText>, AllocError>
    ensures { (t : Term) → IsTerm t → Makes t outcome → IfOk result (λ r. r ≡ Some t) }
{
    Ok(memory_apart(outcome)?.ok())
}

/// All but the last byte.
fn front(bytes: &[u8]) -> &[u8]
    ensures { result.now ≡ front_of bytes.now }
{
    match bytes.split_last() {
        None => bytes,
        Some((_, front)) => front,
    }
}

/// All but the first two bytes.
fn after_two(bytes: &[u8]) -> &[u8]
    ensures { result.now ≡ drop 2 bytes.now }
{
    match bytes.split_first() {
        None => bytes,
        Some((_, rest)) => match rest.split_first() {
            None => rest,
            Some((_, rest)) => rest,
        },
    }
}

fn read_iri(alloc: Global, bytes: &[u8]) -> Result<Option<TermText>, AllocError>
    ensures { ReadsTerm (Iri bytes.now) result }
{
    match str::from_utf8(bytes) {
        Ok(text) => made(TermText::iri(alloc, text)),
        Err(_) => Ok(None),
    }
}

fn read_tagged(alloc: Global, text: &str, tag: &[u8]) -> Result<Option<TermText>, AllocError>
    ensures { ReadsTerm (Literal text.now (Tagged tag.now)) result }
{
    match str::from_utf8(tag) {
        Ok(tag) => made(TermText::literal(alloc, text, None, Some(tag))),
        Err(_) => Ok(None),
    }
}

fn read_typed(alloc: Global, text: &str, datatype: &[u8]) -> Result<Option<TermText>, AllocError>
    ensures { ReadsTerm (Literal text.now (Typed datatype.now)) result }
{
    match str::from_utf8(datatype) {
        Ok(datatype) => made(TermText::literal(alloc, text, Some(datatype), None)),
        Err(_) => Ok(None),
    }
}

fn read_kind(alloc: Global, text: &str, suffix: &[u8]) -> Result<Option<TermText>, AllocError>
    ensures { ReadsTerm (Literal text.now (kind_of suffix.now)) result }
{
    match suffix.split_first() {
        None => made(TermText::literal(alloc, text, None, None)),
        Some((b'@', tag)) => read_tagged(alloc, text, tag),
        Some((_, rest)) => read_typed(alloc, text, front(after_two(rest))),
    }
}

fn read_literal(alloc: Global, bytes: &[u8]) -> Result<Option<TermText>, AllocError>
    ensures { let found = lexical_of false bytes.now in
        ReadsTerm (Literal found.0 (kind_of found.1)) result }
{
    let (lexical, end) = unescaped(alloc, bytes)?;
    match str::from_utf8(lexical.as_slice()) {
        Ok(text) => read_kind(alloc, text, &bytes[end..]),
        Err(_) => Ok(None),
    }
}

fn read_blank(alloc: Global, bytes: &[u8]) -> Result<Option<TermText>, AllocError>
    ensures { ReadsTerm (blank_of (split_first underscore bytes.now)) result }
{
    let (request, number) = split(bytes, b'_');
    let Some(request) = decoded(request) else {
        return Ok(None);
    };
    let Some(number) = decoded(number) else {
        return Ok(None);
    };
    made(TermText::blank(alloc, request, number))
}

/// The term of a text, where there is one.
#[tactic(auto, unfolding(gs_model::specs::Texts::term_of))]
fn read_term(alloc: Global, bytes: &[u8]) -> Result<Option<TermText>, AllocError>
    ensures { ReadsTerm (term_of bytes.now) result }
{
    match bytes.split_first() {
        None => Ok(None),
        Some((b'<', rest)) => read_iri(alloc, front(rest)),
        Some((b'_', rest)) => read_blank(alloc, after_two(rest)),
        Some((_, rest)) => read_literal(alloc, rest),
    }
}

/// The triple of a line, where there is one.
#[tactic(auto, unfolding(gs_model::specs::Texts::triple_of))]
fn read_parts(alloc: Global, line: &[u8]) -> Result<Option<Triple>, AllocError>
    ensures { IsTriple (triple_of line.now) → IfOk result (λ r. r ≡ Some (triple_of line.now)) }
{
    let (subject, rest) = split(line, b' ');
    let (predicate, rest) = split(rest, b' ');
    let object = front(front(front(rest)));
    let Some(s) = read_term(alloc, subject)? else {
        return Ok(None);
    };
    let Some(p) = read_term(alloc, predicate)? else {
        return Ok(None);
    };
    let Some(o) = read_term(alloc, object)? else {
        return Ok(None);
    };
    if s.is_subject() && p.is_iri() {
        Ok(Some(Triple::new(s, p, o)))
    } else {
        Ok(None)
    }
}

fn line_bytes(alloc: Global, triple: &Triple) -> Result<Vec<u8>, AllocError>
    ensures { IfOk result (λ v. v.items ≡ line_of triple.now) }
{
    let mut shown = Vec::new(alloc);
    match push_line(triple, &mut shown) {
        Ok(()) => Ok(shown),
        Err(_) => Err(AllocError),
    }
}

/// The triple that has this very line. It is read loosely, written back and compared.
pub fn read_line(alloc: Global, line: &[u8]) -> Result<Option<Triple>, AllocError>
    ensures { IfOk result (Finds SaysLine line.now) }
{
    let Some(triple) = read_parts(alloc, line)? else {
        return Ok(None);
    };
    let shown = line_bytes(alloc, &triple)?;
    if shown.as_slice() == line {
        triple.known();
        Ok(Some(triple))
    } else {
        Ok(None)
    }
}
