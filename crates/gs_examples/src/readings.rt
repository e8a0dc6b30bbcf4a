//! The reading of a document, whole or in pieces.
use gs_iri::is_absolute;
use gs_model::Refusal;
use gs_ntwrite::line;
use gs_term::Triple;
use gs_test_readings::feed;
use gs_triple_lists::TripleList;
use gs_turtle::TurtleReader;
use std::alloc::Global;

/// Reads a document of request 1 under a base, in pieces of so many bytes.
fn read(
    alloc: Global,
    base: &str,
    text: &[u8],
    size: usize,
    triples: &mut TripleList,
) -> Result<(), Refusal> {
    if !is_absolute(base) {
        return Err(Refusal::Syntax(0));
    }
    let mut reader = TurtleReader::new(alloc, 1, base)?;
    feed(&mut reader, text, size, triples)
}

/// The canonical lines of triples without their line feeds, sorted, each once.
fn lines_of(alloc: Global, triples: &[Triple]) -> Result<Vec<Vec<u8>>, Refusal> {
    let mut lines = Vec::new(alloc);
    for triple in triples {
        let mut bytes = Vec::new(alloc);
        line(triple, &mut bytes)?;
        bytes.pop();
        lines.push(bytes)?;
    }
    lines.sort_unstable();
    lines.dedup();
    Ok(lines)
}

/// The lines of a document's triples, or the text's fault.
pub fn lines_as_read(
    alloc: Global,
    base: &str,
    text: &[u8],
    size: usize,
) -> Result<Vec<Vec<u8>>, Refusal> {
    let mut list = TripleList::new(alloc);
    let read = read(alloc, base, text, size, &mut list);
    let triples = list.to_vec(alloc);
    drop(list);
    read?;
    lines_of(alloc, triples?.as_slice())
}
