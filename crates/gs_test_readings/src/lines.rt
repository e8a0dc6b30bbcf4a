//! The lines of triples.
use gs_model::Refusal;
use gs_ntwrite::line;
use gs_term::Triple;
use gs_triple_lists::TripleList;
use std::alloc::Global;

/// Adds the lines of triples.
fn push_lines(triples: &[Triple], lines: &mut Vec<u8>) -> Result<(), Refusal> {
    for triple in triples {
        line(triple, lines)?;
    }
    Ok(())
}

/// The lines of triples, each with its line feed, in their order.
pub fn lines_of(alloc: Global, triples: &TripleList) -> Result<Vec<u8>, Refusal> {
    let triples = triples.to_vec(alloc)?;
    let mut lines = Vec::new(alloc);
    let pushed = push_lines(&triples, &mut lines);
    drop(triples);
    pushed?;
    Ok(lines)
}

/// The line of each triple.
fn each_line(alloc: Global, triples: &[Triple]) -> Result<Vec<Vec<u8>>, Refusal> {
    let mut lines = Vec::new(alloc);
    for triple in triples {
        let mut bytes = Vec::new(alloc);
        line(triple, &mut bytes)?;
        lines.push(bytes)?;
    }
    Ok(lines)
}

/// The lines of the graph that triples make, each once with its line feed, in the order of their bytes.
pub fn graph_lines_of(alloc: Global, triples: &TripleList) -> Result<Vec<u8>, Refusal> {
    let triples = triples.to_vec(alloc)?;
    let lines = each_line(alloc, &triples);
    drop(triples);
    let mut lines = lines?;
    lines.sort_unstable();
    lines.dedup();
    let mut graph = Vec::new(alloc);
    for line in &lines {
        graph.extend_from_slice(line.as_slice())?;
    }
    Ok(graph)
}
