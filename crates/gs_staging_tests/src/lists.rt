//! Lists of triples in a short notation.
use gs_model::Refusal;
use gs_term::{TermText, Triple};
use gs_triple_lists::TripleList;
use std::alloc::Global;

/// `"x` is a literal, and any other word an IRI.
fn term(alloc: Global, word: &str) -> Result<TermText, Refusal> {
    if let Some(lexical) = word.strip_prefix('"') {
        return TermText::literal(alloc, lexical, None, None);
    }
    let iri = format!(in alloc; "e:{word}")?;
    TermText::iri(alloc, iri.as_str())
}

/// The triple of three words.
pub fn triple(alloc: Global, text: &str) -> Result<Triple, Refusal> {
    let mut words = text.split(' ');
    let subject = term(alloc, words.next().unwrap_or_default())?;
    let predicate = term(alloc, words.next().unwrap_or_default())?;
    let object = term(alloc, words.next().unwrap_or_default())?;
    if !subject.is_subject() || !predicate.is_iri() {
        return Err(Refusal::Syntax(0));
    }
    Ok(Triple::new(subject, predicate, object))
}

/// Triples in their order, with a comma between two.
pub fn triples(alloc: Global, text: &str) -> Result<Vec<Triple>, Refusal> {
    let mut list = Vec::new(alloc);
    for piece in text.split(',') {
        let piece = piece.trim();
        if !piece.is_empty() {
            list.push(triple(alloc, piece)?)?;
        }
    }
    Ok(list)
}

/// The same triples as a list for an upload.
pub fn listed(alloc: Global, text: &str) -> Result<TripleList, Refusal> {
    Ok(TripleList::of(alloc, triples(alloc, text)?)?)
}
