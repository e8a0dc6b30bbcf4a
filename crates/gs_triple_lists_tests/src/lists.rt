//! Triples in a short notation, and lists beside them.
use gs_model::Refusal;
use gs_term::{TermText, Triple};
use gs_triple_lists::{ListedTriple, TripleList};
use std::alloc::{AllocError, Global};

/// `"x` is a literal, and any other word an IRI.
fn term(alloc: Global, word: &str) -> Result<TermText, Refusal> {
    if let Some(lexical) = word.strip_prefix('"') {
        return TermText::literal(alloc, lexical, None, None);
    }
    let iri = format!(in alloc; "e:{word}")?;
    TermText::iri(alloc, iri.as_str())
}

/// The triple of three words.
pub fn triple(alloc: Global, text: &str) -> Result<Triple, Refusal> {
    let mut words = text.split(' ');
    let subject = term(alloc, words.next().unwrap_or_default())?;
    let predicate = term(alloc, words.next().unwrap_or_default())?;
    let object = term(alloc, words.next().unwrap_or_default())?;
    if !subject.is_subject() || !predicate.is_iri() {
        return Err(Refusal::Syntax(0));
    }
    Ok(Triple::new(subject, predicate, object))
}

/// Adds six triples, whose terms begin with a word.
fn push_six(alloc: Global, word: &str, triples: &mut Vec<Triple>) -> Result<(), Refusal> {
    for number in 0u64..6 {
        let text = format!(in alloc; "{word}{number} {word}p{number} {word}o{number}")?;
        triples.push(triple(alloc, text.as_str())?)?;
    }
    Ok(())
}

/// Adds the triples of a piece of a text.
fn push_piece(alloc: Global, piece: &str, triples: &mut Vec<Triple>) -> Result<(), Refusal> {
    if piece.is_empty() {
        Ok(())
    } else if piece.contains(' ') {
        triples.push(triple(alloc, piece)?)?;
        Ok(())
    } else {
        push_six(alloc, piece, triples)
    }
}

/// The triples of a text, with a comma between two pieces. A piece is a triple, or a word alone, which stands
/// for six triples with 18 terms of its own.
pub fn triples(alloc: Global, text: &str) -> Result<Vec<Triple>, Refusal> {
    let mut triples = Vec::new(alloc);
    for piece in text.split(',') {
        push_piece(alloc, piece.trim(), &mut triples)?;
    }
    Ok(triples)
}

/// Whether a triple of a list is this one.
fn is_same(listed: ListedTriple, triple: &Triple) -> bool {
    listed.subject() == triple.subject()
        && listed.predicate() == triple.predicate()
        && listed.object() == triple.object()
}

/// Whether a list has exactly the first triples and then these. Takes no memory.
pub fn has_both(list: &TripleList, first: &[Triple], triples: &[Triple]) -> bool {
    let mut left = list.triples();
    for triple in first.iter().chain(triples.iter()) {
        let Some(listed) = left.next() else {
            return false;
        };
        if !is_same(listed, triple) {
            return false;
        }
    }
    left.next().is_none() && list.len() == first.len().saturating_add(triples.len())
}

/// Whether a list has exactly these triples. Takes no memory.
pub fn has_just(list: &TripleList, triples: &[Triple]) -> bool {
    has_both(list, &[], triples)
}

/// Six triples of 18 terms, with which each list of a row begins: the first 16 terms of a list are not looked
/// for, and are in no chain.
const FIRST: [&str; 6] = [
    "f0 f1 f2", "f3 f4 f5", "f6 f7 f8", "f9 fa fb", "fc fd fe", "ff fg fh",
];

/// How many terms these have.
const FIRST_TERMS: usize = 18;

/// Adds a triple to a list by its texts.
pub fn push_texts(list: &mut TripleList, triple: &Triple) -> Result<(), AllocError> {
    // For the proof that the texts are those of a triple.
    triple.known();
    let subject = triple.subject().as_bytes();
    let predicate = triple.predicate().as_bytes();
    let object = triple.object().as_bytes();
    list.push_texts(subject, predicate, object)
}

/// How triples are added: as terms, or by their texts.
#[derive(Clone, Copy)]
enum Way {
    Terms,
    Texts,
}

/// Adds triples to a list in a way.
fn push_in_way(list: &mut TripleList, way: Way, triples: &[Triple]) -> Result<(), Refusal> {
    for triple in triples {
        match way {
            Way::Terms => list.push(triple.clone()?)?,
            Way::Texts => push_texts(list, triple)?,
        }
    }
    Ok(())
}

/// Adds triples to a list.
pub fn push_each(list: &mut TripleList, triples: &[Triple]) -> Result<(), Refusal> {
    push_in_way(list, Way::Terms, triples)
}

/// How many terms a list keeps of these triples, in their order, after the first; none where it has other
/// triples then.
fn terms_in(
    list: &mut TripleList,
    way: Way,
    first: &[Triple],
    triples: &[Triple],
) -> Result<Option<usize>, Refusal> {
    push_each(list, first)?;
    push_in_way(list, way, triples)?;
    if !has_both(list, first, triples) {
        return Ok(None);
    }
    let (terms, _) = list.parts();
    Ok(terms.len().checked_sub(FIRST_TERMS))
}

/// The triples of `FIRST`.
fn first_triples(alloc: Global) -> Result<Vec<Triple>, Refusal> {
    let mut first = Vec::new(alloc);
    for text in &FIRST {
        first.push(triple(alloc, text)?)?;
    }
    Ok(first)
}

/// The same of a new list.
fn terms_in_new(alloc: Global, way: Way, triples: &[Triple]) -> Result<Option<usize>, Refusal> {
    let first = first_triples(alloc)?;
    let mut list = TripleList::new(alloc);
    let terms = terms_in(&mut list, way, first.as_slice(), triples);
    drop(list);
    drop(first);
    terms
}

/// How many terms a list keeps of these triples, where it keeps as many in each way.
pub fn terms_of(alloc: Global, triples: &[Triple]) -> Result<Option<usize>, Refusal> {
    let of_terms = terms_in_new(alloc, Way::Terms, triples)?;
    let of_texts = terms_in_new(alloc, Way::Texts, triples)?;
    Ok(if of_terms == of_texts { of_terms } else { None })
}
