//! Sixteen triples by number, in the order of their lines, their terms, and what stands where in each.
use gs_model::Refusal;
use gs_term::{TermText, Triple};
use std::alloc::{AllocError, Global};

/// How many triples there are.
pub const TRIPLES: usize = 16;

/// Four subjects, two predicates and a literal.
const TERMS: [&str; 7] = [
    "<http://e/s0>",
    "<http://e/s1>",
    "<http://e/s2>",
    "<http://e/s3>",
    "<http://e/p0>",
    "<http://e/p1>",
    "\"x\"",
];

/// The number of the first subject, which is an object too.
pub const FIRST_SUBJECT: u8 = 0;

/// The number of the first predicate.
pub const FIRST_PREDICATE: u8 = 4;

/// The number of the literal.
pub const LITERAL: u8 = 6;

/// The three terms of a triple. Each subject has four triples, two of each predicate, the first of which
/// has the literal. So the lines of the triples are in the order of their numbers.
pub fn terms_of(number: usize) -> [u8; 3] {
    let subject = u8::try_from(number / 4).unwrap_or_default();
    let predicate = if number % 4 < 2 { 4 } else { 5 };
    let object = if number % 2 == 0 {
        LITERAL
    } else {
        FIRST_SUBJECT
    };
    [subject, predicate, object]
}

/// The canonical text of a term.
fn text(number: u8) -> &'static str {
    TERMS.get(usize::from(number)).copied().unwrap_or_default()
}

/// A term.
pub fn term(alloc: Global, number: u8) -> Result<TermText, Refusal> {
    let text = text(number);
    if text.starts_with('<') {
        let name = text.trim_start_matches('<').trim_end_matches('>');
        return TermText::iri(alloc, name);
    }
    TermText::literal(alloc, text.trim_matches('"'), None, None)
}

/// A triple of these terms, where they are of the kinds of one.
pub fn made(subject: TermText, predicate: TermText, object: TermText) -> Result<Triple, Refusal> {
    if !subject.is_subject() || !predicate.is_iri() {
        return Err(Refusal::Syntax(0));
    }
    Ok(Triple::new(subject, predicate, object))
}

/// The triple of this number.
pub fn triple(alloc: Global, number: usize) -> Result<Triple, Refusal> {
    let [subject, predicate, object] = terms_of(number);
    made(
        term(alloc, subject)?,
        term(alloc, predicate)?,
        term(alloc, object)?,
    )
}

/// Appends the terms of this number, with a space after each.
fn push_terms(lines: &mut Vec<u8>, number: usize) -> Result<(), AllocError> {
    for part in terms_of(number) {
        lines.extend_from_slice(text(part).as_bytes())?;
        lines.extend_from_slice(b" ")?;
    }
    Ok(())
}

/// Appends the line of this number.
pub fn push_line(lines: &mut Vec<u8>, number: usize) -> Result<(), AllocError> {
    push_terms(lines, number)?;
    lines.extend_from_slice(b".\n")
}

/// Appends the line of this number in a graph with this name, which stands in angle brackets.
pub fn push_quad(lines: &mut Vec<u8>, number: usize, name: &str) -> Result<(), AllocError> {
    push_terms(lines, number)?;
    lines.extend_from_slice(name.as_bytes())?;
    lines.extend_from_slice(b" .\n")
}
