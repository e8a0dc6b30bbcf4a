//! A document that ends too early, at each of its bytes.
use gs_model::Refusal;
use gs_test_readings::SIZES;
use gs_test_readings::turtle::{fault_of, graph_of};
use std::alloc::Global;
use std::test::Fail;

const BASE: &str = "http://e/g";

const WHOLE: &[u8] = b"@prefix ex: <http://e/> . <> a ex:a.b, ( 1 .5 ) .";

/// The lengths at which the text is a document.
const ENDS: [usize; 5] = [0, 25, 26, 36, 49];

/// The end of the directive, which is a statement with no triple.
const DIRECTIVE: usize = 25;

/// The fault of the text of this length.
fn fault_at(length: usize) -> Option<Refusal> {
    if ENDS.contains(&length) {
        None
    } else if length < DIRECTIVE {
        Some(Refusal::Syntax(0))
    } else {
        Some(Refusal::Syntax(25))
    }
}

/// The first length at which the text, in pieces of so many bytes, does not have that fault.
fn wrong_length(alloc: Global, size: usize) -> Option<usize> {
    for length in 0..=WHOLE.len() {
        let text = WHOLE.get(..length).unwrap_or_default();
        if fault_of(alloc, BASE, text, size) != fault_at(length) {
            return Some(length);
        }
    }
    None
}

#[test]
fn a_text_that_ends_too_early_is_a_fault(rt: HostRuntime) {
    assert_eq!(rt; WHOLE.len(), 49);
    for size in &SIZES {
        assert_eq!(rt; wrong_length(rt.alloc(), *size), None);
    }
}

/// The triples at the lengths at which the text is a document with triples, in the order of their
/// lines.
const SAID: [(usize, &str); 3] = [
    (26, ""),
    (
        36,
        "<http://e/g> <http://www.w3.org/1999/02/22-rdf-syntax-ns#type> <http://e/a> .
",
    ),
    (
        49,
        "<http://e/g> <http://www.w3.org/1999/02/22-rdf-syntax-ns#type> <http://e/a.b> .
<http://e/g> <http://www.w3.org/1999/02/22-rdf-syntax-ns#type> _:b3_1 .
_:b3_1 <http://www.w3.org/1999/02/22-rdf-syntax-ns#first> \"1\"^^<http://www.w3.org/2001/XMLSchema#integer> .
_:b3_1 <http://www.w3.org/1999/02/22-rdf-syntax-ns#rest> _:b3_2 .
_:b3_2 <http://www.w3.org/1999/02/22-rdf-syntax-ns#first> \".5\"^^<http://www.w3.org/2001/XMLSchema#decimal> .
_:b3_2 <http://www.w3.org/1999/02/22-rdf-syntax-ns#rest> <http://www.w3.org/1999/02/22-rdf-syntax-ns#nil> .
",
    ),
];

/// The first of these lengths at which the text, in pieces of so many bytes, says something else.
fn wrong_said(alloc: Global, size: usize) -> Result<Option<usize>, Refusal> {
    for (length, want) in &SAID {
        let text = WHOLE.get(..*length).unwrap_or_default();
        let got = graph_of(alloc, BASE, text, size)?;
        if got.as_slice() != want.as_bytes() {
            return Ok(Some(*length));
        }
    }
    Ok(None)
}

#[test]
fn a_text_says_what_stands_before_its_end(rt: HostRuntime) -> Result<(), Fail> {
    for size in &SIZES {
        assert_eq!(rt; wrong_said(rt.alloc(), *size)?, None);
    }
    Ok(())
}
