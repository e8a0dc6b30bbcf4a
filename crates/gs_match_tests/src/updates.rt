//! A short notation of updates.
use crate::notation::{patterns, triples};
use gs_event::Op;
use gs_model::Refusal;
use gs_triple_lists::TripleList;
use std::alloc::Global;

/// Triples as an operation has them.
fn listed(alloc: Global, text: &str) -> Result<TripleList, Refusal> {
    Ok(TripleList::of(alloc, triples(alloc, text)?)?)
}

/// `+` inserts triples, `-` deletes them, and `*` deletes the instances of patterns.
fn operation(alloc: Global, text: &str) -> Result<Op, Refusal> {
    if let Some(list) = text.strip_prefix('+') {
        return Ok(Op::Insert(listed(alloc, list)?));
    }
    if let Some(list) = text.strip_prefix('-') {
        return Ok(Op::DeleteData(listed(alloc, list)?));
    }
    let Some(list) = text.strip_prefix('*') else {
        return Err(Refusal::Syntax(0));
    };
    Ok(Op::DeleteWhere(patterns(alloc, list)?))
}

/// Operations, with a semicolon between two.
pub fn operations(alloc: Global, text: &str) -> Result<Vec<Op>, Refusal> {
    let mut list = Vec::new(alloc);
    for piece in text.split(';') {
        let piece = piece.trim();
        if !piece.is_empty() {
            list.push(operation(alloc, piece)?)?;
        }
    }
    Ok(list)
}
