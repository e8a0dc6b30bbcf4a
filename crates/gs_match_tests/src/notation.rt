//! A short notation of patterns and triples.
use gs_model::Refusal;
use gs_term::{Part, Pattern, TermText, Triple, VariableName};
use std::alloc::Global;

/// `_1` is a blank node, `"x` a literal, and any other word an IRI; a variable is no term.
fn term(alloc: Global, word: &str) -> Result<TermText, Refusal> {
    if word.starts_with('?') {
        return Err(Refusal::Syntax(0));
    }
    if let Some(number) = word.strip_prefix('_') {
        return TermText::blank(alloc, 1, number.parse::<u64>().unwrap_or_default());
    }
    if let Some(lexical) = word.strip_prefix('"') {
        return TermText::literal(alloc, lexical, None, None);
    }
    let iri = format!(in alloc; "e:{word}")?;
    TermText::iri(alloc, iri.as_str())
}

/// `?x` is a variable, and any other word a term.
fn part(alloc: Global, word: &str) -> Result<Part, Refusal> {
    match word.strip_prefix('?') {
        Some(name) => Ok(Part::Variable(VariableName::new(alloc, name)?)),
        None => Ok(Part::Term(term(alloc, word)?)),
    }
}

/// Three words.
fn pattern(alloc: Global, text: &str) -> Result<Pattern, Refusal> {
    let mut words = text.split(' ');
    Ok(Pattern {
        subject: part(alloc, words.next().unwrap_or_default())?,
        predicate: part(alloc, words.next().unwrap_or_default())?,
        object: part(alloc, words.next().unwrap_or_default())?,
    })
}

/// Adds patterns.
fn push_patterns(alloc: Global, text: &str, list: &mut Vec<Pattern>) -> Result<(), Refusal> {
    for piece in text.split(',') {
        let piece = piece.trim();
        if !piece.is_empty() {
            list.push(pattern(alloc, piece)?)?;
        }
    }
    Ok(())
}

/// Patterns, with a comma between two.
pub fn patterns(alloc: Global, text: &str) -> Result<Vec<Pattern>, Refusal> {
    let mut list = Vec::new(alloc);
    push_patterns(alloc, text, &mut list)?;
    Ok(list)
}

/// A triple of terms, of RDF's kinds.
fn triple_of(subject: TermText, predicate: TermText, object: TermText) -> Result<Triple, Refusal> {
    if subject.is_subject() && predicate.is_iri() {
        Ok(Triple::new(subject, predicate, object))
    } else {
        Err(Refusal::Syntax(0))
    }
}

/// Three words that are terms.
fn triple(alloc: Global, text: &str) -> Result<Triple, Refusal> {
    let mut words = text.split(' ');
    let subject = term(alloc, words.next().unwrap_or_default())?;
    let predicate = term(alloc, words.next().unwrap_or_default())?;
    let object = term(alloc, words.next().unwrap_or_default())?;
    triple_of(subject, predicate, object)
}

/// Adds triples.
fn push_triples(alloc: Global, text: &str, list: &mut Vec<Triple>) -> Result<(), Refusal> {
    for piece in text.split(',') {
        let piece = piece.trim();
        if !piece.is_empty() {
            list.push(triple(alloc, piece)?)?;
        }
    }
    Ok(())
}

/// Triples, with a comma between two, in their order.
pub fn triples(alloc: Global, text: &str) -> Result<Vec<Triple>, Refusal> {
    let mut list = Vec::new(alloc);
    push_triples(alloc, text, &mut list)?;
    list.sort_unstable();
    Ok(list)
}
