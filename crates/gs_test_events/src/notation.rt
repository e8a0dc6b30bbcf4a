//! A short notation of terms, triples, patterns and operations.
use gs_event::Op;
use gs_model::Refusal;
use gs_term::{Part, Pattern, TermText, Triple, VariableName};
use gs_triple_lists::TripleList;
use std::alloc::{AllocError, Global};

const TYPE: &str = "http://www.w3.org/1999/02/22-rdf-syntax-ns#type";

const FIRST: &str = "http://www.w3.org/1999/02/22-rdf-syntax-ns#first";

const REST: &str = "http://www.w3.org/1999/02/22-rdf-syntax-ns#rest";

const NIL: &str = "http://www.w3.org/1999/02/22-rdf-syntax-ns#nil";

const INTEGER: &str = "http://www.w3.org/2001/XMLSchema#integer";

/// The IRI of a word that is short for one of RDF's own.
fn own_name(word: &str) -> Option<&'static str> {
    match word {
        "a" => Some(TYPE),
        "first" => Some(FIRST),
        "rest" => Some(REST),
        "nil" => Some(NIL),
        _ => None,
    }
}

/// The blank node k of request 1, of the text `k`; or of request r, of `r_k`.
fn blank(alloc: Global, text: &str) -> Result<TermText, Refusal> {
    let (request, number) = text.split_once("_").unwrap_or(("1", text));
    TermText::blank(
        alloc,
        request.parse::<u64>().unwrap_or_default(),
        number.parse::<u64>().unwrap_or_default(),
    )
}

/// The text with a line feed for each `\n`.
fn unescaped(alloc: Global, text: &str) -> Result<String, AllocError> {
    let mut pieces = text.split("\\n");
    let mut all = String::from_str(alloc, pieces.next().unwrap_or_default())?;
    for piece in pieces {
        all.push('\n')?;
        all.push_str(piece)?;
    }
    Ok(all)
}

/// A literal, of its word without the first quote.
fn literal(alloc: Global, text: &str) -> Result<TermText, Refusal> {
    let (inner, rest) = text.rsplit_once('"').unwrap_or((text, ""));
    let plain = unescaped(alloc, inner)?;
    let lexical = plain.as_str();
    match rest.strip_prefix("^^<") {
        Some(name) => TermText::literal(alloc, lexical, Some(name.trim_end_matches('>')), None),
        None => TermText::literal(alloc, lexical, None, rest.strip_prefix('@')),
    }
}

/// `<x>`, which is `<http://e/x>` where it has no colon; `_k` or `_r_k`, a blank node; `"x"`, which may
/// have `\n` in it, and a tag or a datatype after it, written whole; an integer; `a`, as in Turtle; or
/// `first`, `rest` or `nil` of RDF's lists. No word has a space or a semicolon in it, or begins with a dot.
fn term(alloc: Global, word: &str) -> Result<TermText, Refusal> {
    if let Some(iri) = own_name(word) {
        return TermText::iri(alloc, iri);
    }
    if let Some(name) = word.strip_prefix('<') {
        let name = name.trim_end_matches('>');
        if name.contains(':') {
            return TermText::iri(alloc, name);
        }
        let iri = format!(in alloc; "http://e/{name}")?;
        return TermText::iri(alloc, iri.as_str());
    }
    if let Some(number) = word.strip_prefix('_') {
        return blank(alloc, number);
    }
    if let Some(text) = word.strip_prefix('"') {
        return literal(alloc, text);
    }
    TermText::literal(alloc, word, Some(INTEGER), None)
}

/// A term, or `?x`, a variable.
fn part(alloc: Global, word: &str) -> Result<Part, Refusal> {
    match word.strip_prefix('?') {
        Some(name) => Ok(Part::Variable(VariableName::new(alloc, name)?)),
        None => Ok(Part::Term(term(alloc, word)?)),
    }
}

/// Three words.
fn triple(alloc: Global, text: &str) -> Result<Triple, Refusal> {
    let mut words = text.split(' ');
    let subject = term(alloc, words.next().unwrap_or_default())?;
    let predicate = term(alloc, words.next().unwrap_or_default())?;
    let object = term(alloc, words.next().unwrap_or_default())?;
    if !subject.is_subject() || !predicate.is_iri() {
        return Err(Refusal::Syntax(0));
    }
    Ok(Triple::new(subject, predicate, object))
}

fn pattern(alloc: Global, text: &str) -> Result<Pattern, Refusal> {
    let mut words = text.split(' ');
    Ok(Pattern {
        subject: part(alloc, words.next().unwrap_or_default())?,
        predicate: part(alloc, words.next().unwrap_or_default())?,
        object: part(alloc, words.next().unwrap_or_default())?,
    })
}

/// What stands after each triple and each pattern.
const DOT: &str = " .";

/// Triples with a dot after each, which the last need not have.
pub fn triples(alloc: Global, text: &str) -> Result<TripleList, Refusal> {
    let mut list = Vec::new(alloc);
    for piece in text.split(DOT) {
        let piece = piece.trim();
        if !piece.is_empty() {
            list.push(triple(alloc, piece)?)?;
        }
    }
    Ok(TripleList::of(alloc, list)?)
}

/// The same of patterns.
pub fn patterns(alloc: Global, text: &str) -> Result<Vec<Pattern>, Refusal> {
    let mut list = Vec::new(alloc);
    for piece in text.split(DOT) {
        let piece = piece.trim();
        if !piece.is_empty() {
            list.push(pattern(alloc, piece)?)?;
        }
    }
    Ok(list)
}

/// `insert` or `delete` and triples, or `where` and patterns.
fn operation(alloc: Global, text: &str) -> Result<Op, Refusal> {
    if let Some(rest) = text.strip_prefix("insert") {
        return Ok(Op::Insert(triples(alloc, rest)?));
    }
    if let Some(rest) = text.strip_prefix("delete") {
        return Ok(Op::DeleteData(triples(alloc, rest)?));
    }
    Ok(Op::DeleteWhere(patterns(alloc, text.trim_start_matches("where"))?))
}

/// Operations, with a semicolon between two.
pub fn operations(alloc: Global, text: &str) -> Result<Vec<Op>, Refusal> {
    let mut list = Vec::new(alloc);
    for piece in text.split(';') {
        let piece = piece.trim();
        if !piece.is_empty() {
            list.push(operation(alloc, piece)?)?;
        }
    }
    Ok(list)
}

/// The text of a word's term.
fn push_word(line: &mut String, word: &str) -> Result<(), AllocError> {
    if let Some(name) = word.strip_prefix('<') {
        line.push_str("<http://e/")?;
        return line.push_str(name);
    }
    if let Some(number) = word.strip_prefix('_') {
        line.push_str("_:b1_")?;
        return line.push_str(number);
    }
    line.push_str(word)
}

/// The lines of triples, in the order in which they are written.
pub fn lines(alloc: Global, text: &str) -> Result<String, AllocError> {
    let mut lines = String::new(alloc);
    for piece in text.split(DOT) {
        let piece = piece.trim();
        if !piece.is_empty() {
            for word in piece.split(' ') {
                push_word(&mut lines, word)?;
                lines.push(' ')?;
            }
            lines.push_str(".\n")?;
        }
    }
    Ok(lines)
}
