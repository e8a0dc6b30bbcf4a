//! Texts that are a document in no language, each with the statements before its first fault.
use crate::bodies::{Language, read};
use gs_model::Refusal;
use gs_test_readings::SIZES;
use gs_triple_lists::TripleList;
use std::alloc::Global;
use std::test::Fail;

/// A name, a text, the number of whole statements before its first fault, each of which says one
/// triple, and the number of bytes up to the end of the last of them.
type Row = (&'static str, &'static [u8], usize, u64);

/// The fault is there however the text goes on.
const FAULTS: [Row; 17] = [
    ("a byte order mark", b"\xEF\xBB\xBF", 0, 0),
    (
        "a byte order mark before a document",
        b"\xEF\xBB\xBF<a:a> <a:b> <a:c> .",
        0,
        0,
    ),
    (
        "a byte order mark before an empty line",
        b"\xEF\xBB\xBF\n<a:a> <a:b> <a:c> .",
        0,
        0,
    ),
    (
        "a byte order mark after a statement",
        b"<a:a> <a:b> <a:c> .\n\xEF\xBB\xBF<a:a> <a:b> <a:d> .",
        1,
        19,
    ),
    (
        "a number above Unicode in a string",
        b"<a:a> <a:b> \"\\U00110000\" .",
        0,
        0,
    ),
    ("a surrogate in an IRI", b"<a:a> <a:b> <\\uD800> .", 0, 0),
    (
        "a surrogate in an absolute IRI",
        b"<a:a> <a:b> <a:\\uD800> .",
        0,
        0,
    ),
    (
        "a space in an IRI, as an escape",
        b"<a:a> <a:b> <a\\u0020> .",
        0,
        0,
    ),
    (
        "a space in an absolute IRI, as an escape",
        b"<a:a> <a:b> <a:\\u0020> .",
        0,
        0,
    ),
    ("an at sign without a tag", b"<a:a> <a:b> \"x\"@ .", 0, 0),
    ("a caret alone", b"<a:a> <a:b> \"x\"^ .", 0, 0),
    (
        "a number above Unicode after a statement",
        b"<a:a> <a:b> <a:c> .\n<a:a> <a:b> \"\\U00110000\" .",
        1,
        19,
    ),
    (
        "a surrogate after two statements",
        b"<a:a> <a:b> <a:c> .\n<a:a> <a:b> <a:d> .\n<a:a> <a:b> <a:\\uD800> .",
        2,
        39,
    ),
    (
        "no predicate, after two statements and a comment",
        b"<a:a> <a:b> <a:c> .\n<a:a> <a:b> <a:d> . # two\n<a:a> .",
        2,
        39,
    ),
    (
        "a second dot",
        b"<a:a> <a:b> <a:c> .\n<a:a> <a:b> \"\xC3\xA9\" .\n.",
        2,
        38,
    ),
    (
        "a byte that begins no character",
        b"<a:a> <a:b> <a:c> .\n# \xFF",
        1,
        19,
    ),
    (
        "a character that is cut short by a line feed",
        b"<a:a> <a:b> <a:c> .\n# \xE2\x82\n",
        1,
        19,
    ),
];

/// The fault is there because the text ends.
const UNFINISHED: [Row; 6] = [
    ("a statement", b"<a:a> <a:b> <a:c>", 0, 0),
    ("half a character", b"<a:a> <a:b> <a:c> .\n<a:\xC3", 1, 19),
    (
        "two thirds of a character",
        b"<a:a> <a:b> <a:c> .\n# \xE2\x82",
        1,
        19,
    ),
    ("half an escape", b"<a:a> <a:b> <a:c> .\n<a:\\u00", 1, 19),
    (
        "an IRI",
        b"<a:a> <a:b> <a:c> .\n<a:a> <a:b> <a:d> .\n<a:a",
        2,
        39,
    ),
    ("a string", b"<a:a> <a:b> <a:c> .\n<a:a> <a:b> \"x", 1, 19),
];

/// Whether a text in pieces of this length has its fault in a language, and where that is asked
/// each statement before it was given.
fn has_fault(alloc: Global, language: Language, row: &Row, size: usize, is_counted: bool) -> bool {
    let mut triples = TripleList::new(alloc);
    let reported = read(alloc, language, row.1, size, &mut triples);
    let count = triples.len();
    drop(triples);
    reported == Err(Refusal::Syntax(row.3)) && (!is_counted || count == row.2)
}

/// The first text that does not have its fault in both languages, in pieces of this length.
fn wrong_row(alloc: Global, rows: &[Row], size: usize, is_counted: bool) -> Option<&'static str> {
    for row in rows {
        let is_so = has_fault(alloc, Language::Turtle, row, size, is_counted)
            && has_fault(alloc, Language::NTriples, row, size, is_counted);
        if !is_so {
            return Some(row.0);
        }
    }
    None
}

/// The first text that does not have its fault in pieces of each of these lengths.
fn wrong_row_in(
    alloc: Global,
    rows: &[Row],
    sizes: &[usize],
    is_counted: bool,
) -> Option<&'static str> {
    for size in sizes {
        if let Some(name) = wrong_row(alloc, rows, *size, is_counted) {
            return Some(name);
        }
    }
    None
}

/// The refused call gives nothing; byte by byte each statement before the fault is given.
#[test]
fn a_fault_is_reported_with_its_place(rt: HostRuntime) {
    assert_eq!(rt; wrong_row(rt.alloc(), &FAULTS, 1, true), None);
    let sizes = [2, 3, usize::MAX];
    assert_eq!(rt; wrong_row_in(rt.alloc(), &FAULTS, &sizes, false), None);
}

/// Each statement is given before the end, however the text is cut, and also where a piece ends
/// within a character.
#[test]
fn a_text_that_ends_too_early_gives_its_statements(rt: HostRuntime) {
    assert_eq!(rt; wrong_row_in(rt.alloc(), &UNFINISHED, &SIZES, true), None);
}

/// How many triples the text up to the place of the fault has, as a document in a language.
fn triples_before(alloc: Global, language: Language, row: &Row) -> Result<usize, Fail> {
    let front = row.1.get(..usize::try_from(row.3)?).unwrap_or_default();
    let mut triples = TripleList::new(alloc);
    let read = read(alloc, language, front, usize::MAX, &mut triples);
    let count = triples.len();
    drop(triples);
    read?;
    Ok(count)
}

/// The first row of which that is no document of exactly its statements.
fn wrong_front(alloc: Global, rows: &[Row]) -> Result<Option<&'static str>, Fail> {
    for row in rows {
        let turtle = triples_before(alloc, Language::Turtle, row)?;
        let ntriples = triples_before(alloc, Language::NTriples, row)?;
        if turtle != row.2 || ntriples != row.2 {
            return Ok(Some(row.0));
        }
    }
    Ok(None)
}

#[test]
fn the_text_before_a_fault_is_a_document(rt: HostRuntime) -> Result<(), Fail> {
    assert_eq!(rt; wrong_front(rt.alloc(), &FAULTS)?, None);
    assert_eq!(rt; wrong_front(rt.alloc(), &UNFINISHED)?, None);
    Ok(())
}
