//! What is said of a case: the graph of its document, or its first fault.
use crate::cases::{Case, Language};
use gs_iri::is_absolute;
use gs_model::Refusal;
use gs_ntread::NTriplesReader;
use gs_test_readings::{feed, graph_lines_of};
use gs_triple_lists::TripleList;
use gs_turtle::TurtleReader;
use std::alloc::Global;
use std::io::{self, Write};

/// The request of each document, by which its blank nodes are named.
const REQUEST: u64 = 1;

/// The base of a document of Turtle.
const BASE: &str = "http://e/";

/// Reads N-Triples in pieces of so many bytes.
fn read_ntriples(
    alloc: Global,
    text: &[u8],
    size: usize,
    triples: &mut TripleList,
) -> Result<(), Refusal> {
    let mut reader = NTriplesReader::new(alloc, REQUEST);
    feed(&mut reader, text, size, triples)
}

/// Reads Turtle in pieces of so many bytes.
fn read_turtle(
    alloc: Global,
    text: &[u8],
    size: usize,
    triples: &mut TripleList,
) -> Result<(), Refusal> {
    if !is_absolute(BASE) {
        return Err(Refusal::Syntax(0));
    }
    let mut reader = TurtleReader::new(alloc, REQUEST, BASE)?;
    feed(&mut reader, text, size, triples)
}

/// The triples of a case, as often as they stand in it.
fn triples_of(alloc: Global, case: &Case) -> Result<TripleList, Refusal> {
    let text = case.text.as_slice();
    let size = if case.size == 0 {
        usize::MAX
    } else {
        case.size
    };
    let mut triples = TripleList::new(alloc);
    let read = match case.language {
        Language::NTriples => read_ntriples(alloc, text, size, &mut triples),
        Language::Turtle => read_turtle(alloc, text, size, &mut triples),
    };
    match read {
        Ok(()) => Ok(triples),
        Err(refusal) => {
            drop(triples);
            Err(refusal)
        }
    }
}

/// How many triples a case has, and the lines of its graph.
fn graph_of(alloc: Global, case: &Case) -> Result<(usize, Vec<u8>), Refusal> {
    let triples = triples_of(alloc, case)?;
    let lines = graph_lines_of(alloc, &triples);
    let count = triples.len();
    drop(triples);
    Ok((count, lines?))
}

/// Prints how many triples a case has, and the lines of its graph; or its fault.
pub fn answer<W: Write>(alloc: Global, case: &Case, out: &mut W) -> io::Result<()> {
    match graph_of(alloc, case) {
        Ok((count, lines)) => {
            writeln!(out, "ok {count}")?;
            out.write_all(lines.as_slice())
        }
        Err(Refusal::Syntax(at)) => writeln!(out, "fault syntax {at}"),
        Err(Refusal::TermTooLong) => writeln!(out, "fault too-long"),
        Err(refusal) => writeln!(out, "refused: {refusal}"),
    }
}
