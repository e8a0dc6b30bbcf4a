//! Bodies with their triples.
use gs_body::BodyReader;
use gs_model::Refusal;
use gs_test_readings::SIZES;
use gs_test_readings::turtle::{lines_as_read, reader};
use gs_triple_lists::TripleList;
use gs_turtle::{body_is_read, faulty_body_is_read};
use std::alloc::{AllocError, Global};
use std::test::Fail;

const DOCUMENT: &str = "@prefix e: <http://e/> .
e:s a e:T.x ; e:p \"a\\u00E9\"@EN, 5.# comment
<x> e:q [ e:p true ] .
";

/// The lines of the document, in their order.
const STATED: &str =
    "<http://e/s> <http://www.w3.org/1999/02/22-rdf-syntax-ns#type> <http://e/T.x> .
<http://e/s> <http://e/p> \"a\u{E9}\"@en .
<http://e/s> <http://e/p> \"5\"^^<http://www.w3.org/2001/XMLSchema#integer> .
_:b3_1 <http://e/p> \"true\"^^<http://www.w3.org/2001/XMLSchema#boolean> .
<http://b/x> <http://e/q> _:b3_1 .
";

/// Whether a text in pieces of so many bytes states these lines.
fn states(alloc: Global, text: &[u8], size: usize, lines: &str) -> Result<bool, Refusal> {
    let got = lines_as_read(alloc, "http://b/", text, size)?;
    Ok(got.as_slice() == lines.as_bytes())
}

/// The first length of pieces in which a text does not state these lines.
fn wrong_size(alloc: Global, text: &str, lines: &str) -> Result<Option<usize>, Refusal> {
    for size in &SIZES {
        if !states(alloc, text.as_bytes(), *size, lines)? {
            return Ok(Some(*size));
        }
    }
    Ok(None)
}

#[test]
fn a_document_in_any_pieces_states_its_triples(rt: HostRuntime) -> Result<(), Fail> {
    assert_eq!(rt; wrong_size(rt.alloc(), DOCUMENT, STATED)?, None);
    body_is_read();
    faulty_body_is_read();
    Ok(())
}

#[test]
fn a_byte_order_mark_may_begin_a_prefix(rt: HostRuntime) -> Result<(), Fail> {
    let text = "PREFIX \u{FEFF}e: <http://e/> \u{FEFF}e:s \u{FEFF}e:p \u{FEFF}e:o .";
    let stated = "<http://e/s> <http://e/p> <http://e/o> .\n";
    assert_eq!(rt; wrong_size(rt.alloc(), text, stated)?, None);
    Ok(())
}

/// The document after so many spaces.
fn after_spaces(alloc: Global, count: usize) -> Result<Vec<u8>, AllocError> {
    let mut text = vec![in alloc; b' '; count]?;
    text.extend_from_slice(DOCUMENT.as_bytes())?;
    Ok(text)
}

#[test]
fn a_piece_longer_than_a_portion_is_read(rt: HostRuntime) -> Result<(), Fail> {
    let text = after_spaces(rt.alloc(), 10_000)?;
    assert!(rt; states(rt.alloc(), text.as_slice(), usize::MAX, STATED)?);
    Ok(())
}

/// How many triples are given of a text before it ends.
fn given(alloc: Global, text: &[u8]) -> Result<usize, Refusal> {
    let mut reader = reader(alloc, "http://b/")?;
    let mut triples = TripleList::new(alloc);
    let fed = reader.feed(text, &mut triples);
    let count = triples.len();
    drop(triples);
    drop(reader);
    fed?;
    Ok(count)
}

#[test]
fn a_cut_character_keeps_no_statement_back(rt: HostRuntime) -> Result<(), Fail> {
    assert_eq!(rt; given(rt.alloc(), b"<s> <p> <o> . # \xC3")?, 1);
    Ok(())
}
