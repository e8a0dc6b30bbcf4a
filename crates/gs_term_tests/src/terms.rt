//! Canonical texts and refusals, by the rules of the canonical form.
use gs_model::Refusal;
use gs_ntwrite::line;
use gs_term::{GraphName, TermText, Triple};
use std::alloc::{AllocError, Global};
use std::test::Fail;

/// The lexical form, the datatype and the tag of a literal, and its text.
type Row = (
    &'static str,
    Option<&'static str>,
    Option<&'static str>,
    &'static str,
);

const INTEGER: Option<&str> = Some("http://www.w3.org/2001/XMLSchema#integer");

const STRING: Option<&str> = Some("http://www.w3.org/2001/XMLSchema#string");

const LITERALS: [Row; 11] = [
    ("", None, None, "\"\""),
    ("plain", None, None, "\"plain\""),
    ("caf\u{E9}", None, None, "\"caf\u{E9}\""),
    ("a\tb", None, None, "\"a\tb\""),
    ("a\nb", None, None, "\"a\\nb\""),
    ("a\rb", None, None, "\"a\\rb\""),
    ("a\"b", None, None, "\"a\\\"b\""),
    ("a\\b", None, None, "\"a\\\\b\""),
    ("colour", None, Some("EN-gb"), "\"colour\"@en-gb"),
    (
        "1",
        INTEGER,
        None,
        "\"1\"^^<http://www.w3.org/2001/XMLSchema#integer>",
    ),
    ("x", STRING, None, "\"x\""),
];

/// The first text that its literal has not.
fn wrong_row(alloc: Global, rows: &[Row]) -> Result<Option<&'static str>, Refusal> {
    for (lexical, datatype, tag, text) in rows {
        let term = TermText::literal(alloc, lexical, *datatype, *tag)?;
        if term.as_bytes() != text.as_bytes() {
            return Ok(Some(text));
        }
    }
    Ok(None)
}

#[test]
fn literals_have_their_canonical_texts(rt: HostRuntime) -> Result<(), Fail> {
    assert_eq!(rt; wrong_row(rt.alloc(), &LITERALS)?, None);
    Ok(())
}

/// A triple of three kinds of terms.
fn made(alloc: Global) -> Result<Triple, Refusal> {
    let subject = TermText::blank(alloc, 18_446_744_073_709_551_615, 0)?;
    let predicate = TermText::iri(alloc, "http://e/\u{E9}?a=%zz#b")?;
    let object = TermText::iri(alloc, "a:")?;
    Ok(Triple::new(subject, predicate, object))
}

/// Whether a triple has the texts of those terms.
fn has_texts(triple: &Triple) -> bool {
    triple.subject().as_bytes() == "_:b18446744073709551615_0".as_bytes()
        && triple.predicate().as_bytes() == "<http://e/\u{E9}?a=%zz#b>".as_bytes()
        && triple.object().as_bytes() == "<a:>".as_bytes()
}

#[test]
fn triples_have_the_texts_of_their_terms(rt: HostRuntime) -> Result<(), Fail> {
    let triple = made(rt.alloc())?;
    let clone: Result<Triple, AllocError> = triple.clone();
    drop(triple);
    let clone = clone?;
    let is_right = has_texts(&clone);
    drop(clone);
    assert!(rt; is_right);
    Ok(())
}

/// Datatypes and tags that no literal has.
const WRONG: [(Option<&str>, Option<&str>); 7] = [
    (Some("integer"), None),
    (Some(""), None),
    (None, Some("")),
    (None, Some("e1")),
    (None, Some("en-")),
    (None, Some("en_GB")),
    (STRING, Some("en")),
];

/// The place of the first row of which a literal is not refused.
fn first_made(alloc: Global) -> Option<usize> {
    for (place, (datatype, tag)) in WRONG.iter().enumerate() {
        let refusal = TermText::literal(alloc, "x", *datatype, *tag).err();
        if refusal != Some(Refusal::Syntax(0)) {
            return Some(place);
        }
    }
    None
}

/// Whether a text is refused as an IRI.
fn is_no_iri(alloc: Global, text: &str) -> bool {
    TermText::iri(alloc, text).err() == Some(Refusal::Syntax(0))
}

/// Whether a text is refused as the name of a graph.
fn is_no_name(alloc: Global, text: &str) -> bool {
    GraphName::new(alloc, text).err() == Some(Refusal::Syntax(0))
}

#[test]
fn literals_of_wrong_form_are_refused(rt: HostRuntime) {
    assert_eq!(rt; first_made(rt.alloc()), None);
    assert!(rt; is_no_iri(rt.alloc(), "/relative"));
    assert!(rt; is_no_iri(rt.alloc(), "http://e/a b"));
    assert!(rt; is_no_name(rt.alloc(), "relative"));
}

/// An absolute IRI of so many bytes.
fn iri_of(alloc: Global, bytes: usize) -> Result<String, AllocError> {
    let mut text = String::with_capacity(alloc, bytes)?;
    text.push_str("a:")?;
    for _ in 2..bytes {
        text.push('x')?;
    }
    Ok(text)
}

/// How long the text of an IRI of so many bytes is.
fn length_of(alloc: Global, bytes: usize) -> Result<usize, Refusal> {
    let text = iri_of(alloc, bytes)?;
    let iri = TermText::iri(alloc, &text)?;
    Ok(iri.as_bytes().len())
}

/// Whether the name of a graph has so many bytes, those of its IRI.
fn is_name(alloc: Global, bytes: usize) -> Result<bool, Refusal> {
    let text = iri_of(alloc, bytes)?;
    let name = GraphName::new(alloc, &text)?;
    Ok(name.as_bytes() == text.as_bytes())
}

#[test]
fn long_texts_are_refused(rt: HostRuntime) -> Result<(), Fail> {
    let alloc = rt.alloc();
    assert_eq!(rt; length_of(alloc, 65_533)?, 65_535);
    assert!(rt; length_of(alloc, 65_534) == Err(Refusal::TermTooLong));
    assert!(rt; is_name(alloc, 2_048)?);
    assert!(rt; is_name(alloc, 2_049) == Err(Refusal::TermTooLong));
    Ok(())
}

/// A triple whose object has a tag.
fn tagged(alloc: Global) -> Result<Triple, Refusal> {
    let subject = TermText::blank(alloc, 1, 2)?;
    let predicate = TermText::iri(alloc, "http://e/p")?;
    let object = TermText::literal(alloc, "a\"b", None, Some("EN"))?;
    Ok(Triple::new(subject, predicate, object))
}

/// Whether the line of that triple is appended. Nothing is where memory was refused.
fn is_appended(triple: &Triple, bytes: &mut Vec<u8>) -> Result<bool, Refusal> {
    match line(triple, bytes) {
        Ok(()) => {
            let lines = b"before\n_:b1_2 <http://e/p> \"a\\\"b\"@en .\n".as_slice();
            Ok(bytes.as_slice() == lines)
        }
        Err(Refusal::NoMemory) if bytes.as_slice() != b"before\n".as_slice() => Ok(false),
        Err(refusal) => Err(refusal),
    }
}

#[test]
fn a_line_is_appended(rt: HostRuntime) -> Result<(), Fail> {
    let mut bytes = Vec::from_slice(rt.alloc(), b"before\n")?;
    let triple = tagged(rt.alloc())?;
    let is_right = is_appended(&triple, &mut bytes);
    drop(triple);
    assert!(rt; is_right?);
    Ok(())
}
