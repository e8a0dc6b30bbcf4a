//! A text of Turtle read in pieces of any size.
use crate::lines::{graph_lines_of, lines_of};
use crate::pieces::feed;
use gs_iri::is_absolute;
use gs_model::Refusal;
use gs_triple_lists::TripleList;
use gs_turtle::TurtleReader;
use std::alloc::Global;

/// A reader under a base in request 3.
pub fn reader(alloc: Global, base: &str) -> Result<TurtleReader, Refusal> {
    if !is_absolute(base) {
        return Err(Refusal::Syntax(0));
    }
    Ok(TurtleReader::new(alloc, 3, base)?)
}

/// Appends the triples of a text, in the order in which they are given.
fn read_into(
    alloc: Global,
    base: &str,
    text: &[u8],
    size: usize,
    triples: &mut TripleList,
) -> Result<(), Refusal> {
    let mut reader = reader(alloc, base)?;
    feed(&mut reader, text, size, triples)
}

/// The triples of a text, in the order in which they are given.
fn read(alloc: Global, base: &str, text: &[u8], size: usize) -> Result<TripleList, Refusal> {
    let mut triples = TripleList::new(alloc);
    match read_into(alloc, base, text, size, &mut triples) {
        Ok(()) => Ok(triples),
        Err(refusal) => {
            drop(triples);
            Err(refusal)
        }
    }
}

/// How many they are.
pub fn count_of(alloc: Global, base: &str, text: &[u8], size: usize) -> Result<usize, Refusal> {
    Ok(read(alloc, base, text, size)?.len())
}

/// Their lines, each with its line feed, in their order.
pub fn lines_as_read(
    alloc: Global,
    base: &str,
    text: &[u8],
    size: usize,
) -> Result<Vec<u8>, Refusal> {
    let triples = read(alloc, base, text, size)?;
    lines_of(alloc, &triples)
}

/// The lines of a text's graph, each with its line feed, in the order of their bytes.
pub fn graph_of(alloc: Global, base: &str, text: &[u8], size: usize) -> Result<Vec<u8>, Refusal> {
    let triples = read(alloc, base, text, size)?;
    graph_lines_of(alloc, &triples)
}

/// The fault of a text.
pub fn fault_of(alloc: Global, base: &str, text: &[u8], size: usize) -> Option<Refusal> {
    count_of(alloc, base, text, size).err()
}

/// The first of these lengths of pieces in which a text does not have so many triples, or its fault.
pub fn wrong_count(
    alloc: Global,
    sizes: &[usize],
    text: &str,
    want: Result<usize, Refusal>,
) -> Option<usize> {
    for size in sizes {
        if count_of(alloc, "http://e/", text.as_bytes(), *size) != want {
            return Some(*size);
        }
    }
    None
}
