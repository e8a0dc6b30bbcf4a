//! Names of graphs as they stand in a line, their order, and lines with them.
use gs_model::Refusal;
use gs_ntwrite::quad_line;
use gs_term::{GraphName, TermText, Triple};
use std::alloc::Global;
use std::cmp::Ordering;
use std::test::Fail;

/// The IRIs of graphs, in the order of their names: `/` comes before `>`, and `?` and `a` after it.
const IN_ORDER: [&str; 4] = ["http://e/g/1", "http://e/g", "http://e/g?", "http://e/ga"];

/// The order of two names.
fn order_of(alloc: Global, one: &str, other: &str) -> Result<Ordering, Refusal> {
    let one = GraphName::new(alloc, one)?;
    let other = GraphName::new(alloc, other)?;
    Ok(one.cmp(&other))
}

/// The first two names whose order is not that of the table.
fn first_wrong(alloc: Global) -> Result<Option<(usize, usize)>, Refusal> {
    for (i, one) in IN_ORDER.iter().enumerate() {
        for (k, other) in IN_ORDER.iter().enumerate() {
            if order_of(alloc, one, other)? != i.cmp(&k) {
                return Ok(Some((i, k)));
            }
        }
    }
    Ok(None)
}

#[test]
fn names_are_ordered_as_they_stand_in_a_line(rt: HostRuntime) -> Result<(), Fail> {
    assert_eq!(rt; first_wrong(rt.alloc())?, None);
    Ok(())
}

/// Whether a name stands so in a line, and is of that IRI.
fn stands_as(alloc: Global, iri: &str, text: &str) -> Result<bool, Refusal> {
    let name = GraphName::new(alloc, iri)?;
    Ok(name.in_brackets() == text.as_bytes() && name.as_bytes() == iri.as_bytes())
}

#[test]
fn a_name_stands_in_brackets(rt: HostRuntime) -> Result<(), Fail> {
    assert!(rt; stands_as(rt.alloc(), "http://e/g", "<http://e/g>")?);
    assert!(rt; stands_as(rt.alloc(), "a:", "<a:>")?);
    Ok(())
}

/// A triple whose object is a literal.
fn made(alloc: Global) -> Result<Triple, Refusal> {
    let subject = TermText::iri(alloc, "http://e/s")?;
    let predicate = TermText::iri(alloc, "http://e/p")?;
    let object = TermText::literal(alloc, "2", None, None)?;
    Ok(Triple::new(subject, predicate, object))
}

/// Whether the line of a triple in a graph is appended. Nothing is where memory was refused.
fn is_appended(triple: &Triple, name: &GraphName, bytes: &mut Vec<u8>) -> Result<bool, Refusal> {
    match quad_line(triple, name, bytes) {
        Ok(()) => {
            let lines = b"before\n<http://e/s> <http://e/p> \"2\" <http://e/g> .\n".as_slice();
            Ok(bytes.as_slice() == lines)
        }
        Err(Refusal::NoMemory) if bytes.as_slice() != b"before\n".as_slice() => Ok(false),
        Err(refusal) => Err(refusal),
    }
}

#[test]
fn a_line_with_a_name_is_appended(rt: HostRuntime) -> Result<(), Fail> {
    let mut bytes = Vec::from_slice(rt.alloc(), b"before\n")?;
    let triple = made(rt.alloc())?;
    let name = GraphName::new(rt.alloc(), "http://e/g")?;
    let is_right = is_appended(&triple, &name, &mut bytes);
    drop(name);
    drop(triple);
    assert!(rt; is_right?);
    Ok(())
}
