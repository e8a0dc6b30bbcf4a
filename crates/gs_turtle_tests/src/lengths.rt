//! Long terms, of which the longest that may be has 65,535 bytes, and long documents.
use gs_model::Refusal;
use gs_test_readings::turtle::{graph_of, wrong_count};
use std::alloc::{AllocError, Global};
use std::test::Fail;

/// So many copies of a text between two others.
fn repeated(
    alloc: Global,
    front: &str,
    unit: &str,
    count: usize,
    end: &str,
) -> Result<String, AllocError> {
    let mut text = String::from_str(alloc, front)?;
    for _ in 0..count {
        text.push_str(unit)?;
    }
    text.push_str(end)?;
    Ok(text)
}

/// The lengths of pieces in bytes; the first is whole.
const LENGTHS: [usize; 4] = [usize::MAX, 1, 4_095, 4_096];

/// A text's front, what is repeated, how often at most, and its end.
type Row = (&'static str, &'static str, usize, &'static str);

/// In the term's text a literal has two quotes, an IRI two brackets, a line feed two bytes, and a
/// datatype or a language tag its sign and itself.
const TERMS: [Row; 8] = [
    ("<s> <p> \"", "x", 65_533, "\" ."),
    ("<s> <p> '''x", "\n", 32_766, "''' ."),
    ("<s> <p> \"", "x", 65_530, "\"@EN ."),
    ("<s> <p> ", "7", 65_489, " ."),
    ("<s> <p> <http://e/", "x", 65_524, "> ."),
    ("<s> <", "x", 65_524, "> <o> ."),
    ("@prefix p: <> . p:", "x", 65_524, " a p: ."),
    ("@prefix p: <http://e/", "x", 65_524, "> . p: a p: ."),
];

/// Whether a row's text, with so many more repetitions, has so many triples, or its fault.
fn is_so(
    alloc: Global,
    row: &Row,
    more: usize,
    want: Result<usize, Refusal>,
) -> Result<bool, AllocError> {
    let count = row.2.saturating_add(more);
    let text = repeated(alloc, row.0, row.1, count, row.3)?;
    Ok(wrong_count(alloc, &LENGTHS, text.as_str(), want).is_none())
}

/// The front of the first row that is not so.
fn wrong_row(
    alloc: Global,
    rows: &[Row],
    more: usize,
    want: Result<usize, Refusal>,
) -> Result<Option<&'static str>, AllocError> {
    for row in rows {
        if !is_so(alloc, row, more, want)? {
            return Ok(Some(row.0));
        }
    }
    Ok(None)
}

#[test]
fn the_longest_terms_are_read(rt: HostRuntime) -> Result<(), Fail> {
    let long = Err(Refusal::TermTooLong);
    assert_eq!(rt; wrong_row(rt.alloc(), &TERMS, 0, Ok(1))?, None);
    assert_eq!(rt; wrong_row(rt.alloc(), &TERMS, 1, long)?, None);
    Ok(())
}

/// What is long and no term: a label, a prefix, a comment, and an IRI that no term uses.
const OTHERS: [Row; 5] = [
    ("<s> <p> _:", "x", 70_000, " ."),
    ("<s> <p> <o> . @prefix ", "x", 70_000, ": <> ."),
    ("#", "x", 70_000, "\n<s> <p> <o> ."),
    ("<s> <p> <o> . @prefix p: <http://e/", "x", 70_000, "> ."),
    ("<s> <p> <o> . BASE <http://e/", "x", 70_000, "> "),
];

#[test]
fn what_is_no_term_may_be_longer(rt: HostRuntime) -> Result<(), Fail> {
    assert_eq!(rt; wrong_row(rt.alloc(), &OTHERS, 0, Ok(1))?, None);
    Ok(())
}

/// Long documents, each with its number of triples, or its fault.
const DOCUMENTS: [(Row, Result<usize, Refusal>); 5] = [
    (("<s> <p> ( ", "1 [] ", 2_000, ") ."), Ok(8_001)),
    (
        ("<s> <p> <o>", " , \"x\"@en , [ a <c> ]", 2_000, " ."),
        Ok(6_001),
    ),
    (("", "<s> <p> _:x , 'y' ; a <c> .\n", 2_000, ""), Ok(6_000)),
    (("<s> <p> <o>", ",1", 70_000, " ."), Ok(70_001)),
    (
        ("", "<s> <p> <o> .\n", 2_000, "<s> ."),
        Err(Refusal::Syntax(27_999)),
    ),
];

/// What is repeated in the first of them that is not so.
fn wrong_document(alloc: Global) -> Result<Option<&'static str>, AllocError> {
    for (row, want) in &DOCUMENTS {
        if !is_so(alloc, row, 0, *want)? {
            return Ok(Some(row.1));
        }
    }
    Ok(None)
}

#[test]
fn long_documents_are_read(rt: HostRuntime) -> Result<(), Fail> {
    assert_eq!(rt; wrong_document(rt.alloc())?, None);
    Ok(())
}

/// Its triples, in the order of their lines.
const LABELS: &str = "_:b3_1 <http://e/p> \"0\"^^<http://www.w3.org/2001/XMLSchema#integer> .
_:b3_1 <http://e/p> _:b3_2 .
_:b3_3 <http://e/p> _:b3_1 .
";

/// The numbers of nodes and of lines go on from portion to portion.
#[test]
fn a_long_document_keeps_its_labels(rt: HostRuntime) -> Result<(), Fail> {
    let alloc = rt.alloc();
    let front = "_:x <p> 0 .";
    let text = repeated(alloc, front, "_:x <p> _:y . ", 2_000, "_:z <p> _:x .")?;
    let whole = [usize::MAX];
    assert_eq!(rt; wrong_count(alloc, &whole, text.as_str(), Ok(2_002)), None);
    let graph = graph_of(alloc, "http://e/", text.as_bytes(), usize::MAX)?;
    assert!(rt; graph.as_slice() == LABELS.as_bytes());
    Ok(())
}
