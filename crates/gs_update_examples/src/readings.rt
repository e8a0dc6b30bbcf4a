//! The reading of an update, and its operations as lines.
use crate::operations::{Form, Operation};
use gs_event::Op;
use gs_iri::is_absolute;
use gs_model::Refusal;
use gs_ntwrite::line;
use gs_term::{Part, Pattern, Triple};
use gs_triple_lists::TripleList;
use gs_update::read_update;
use std::alloc::{AllocError, Global};

/// Appends what stands at a place of a pattern, and a space.
fn push_part(bytes: &mut Vec<u8>, part: &Part) -> Result<(), AllocError> {
    match part {
        Part::Term(term) => bytes.extend_from_slice(term.as_bytes())?,
        Part::Variable(name) => {
            bytes.push(b'?')?;
            bytes.extend_from_slice(name.as_str().as_bytes())?;
        }
    }
    bytes.push(b' ')?;
    Ok(())
}

/// The lines of patterns, sorted.
fn lines_of_patterns(alloc: Global, patterns: &[Pattern]) -> Result<Vec<Vec<u8>>, AllocError> {
    let mut lines = Vec::new(alloc);
    for pattern in patterns {
        let mut bytes = Vec::new(alloc);
        push_part(&mut bytes, &pattern.subject)?;
        push_part(&mut bytes, &pattern.predicate)?;
        push_part(&mut bytes, &pattern.object)?;
        bytes.push(b'.')?;
        lines.push(bytes)?;
    }
    lines.sort_unstable();
    Ok(lines)
}

/// The lines of triples without their line feeds, sorted, each once.
fn lines_of_triples(alloc: Global, triples: &[Triple]) -> Result<Vec<Vec<u8>>, Refusal> {
    let mut lines = Vec::new(alloc);
    for triple in triples {
        let mut bytes = Vec::new(alloc);
        line(triple, &mut bytes)?;
        bytes.pop();
        lines.push(bytes)?;
    }
    lines.sort_unstable();
    lines.dedup();
    Ok(lines)
}

/// The same of a list of triples.
fn lines_of_list(alloc: Global, list: &TripleList) -> Result<Vec<Vec<u8>>, Refusal> {
    let triples = list.to_vec(alloc)?;
    lines_of_triples(alloc, triples.as_slice())
}

fn operation_of(alloc: Global, op: &Op) -> Result<Operation, Refusal> {
    let (form, lines) = match op {
        Op::Insert(triples) => (Form::InsertData, lines_of_list(alloc, triples)?),
        Op::DeleteData(triples) => (Form::DeleteData, lines_of_list(alloc, triples)?),
        Op::DeleteWhere(patterns) => (
            Form::DeleteWhere,
            lines_of_patterns(alloc, patterns.as_slice())?,
        ),
    };
    Ok(Operation {
        form,
        lines,
        count: None,
    })
}

/// The operations of a text of request 1 under a base, or its fault.
pub fn operations_as_read(
    alloc: Global,
    base: &str,
    text: &[u8],
) -> Result<Vec<Operation>, Refusal> {
    if !is_absolute(base) {
        return Err(Refusal::NoMemory);
    }
    let mut operations = Vec::new(alloc);
    for op in &read_update(alloc, 1, base, text)? {
        operations.push(operation_of(alloc, op)?)?;
    }
    Ok(operations)
}
