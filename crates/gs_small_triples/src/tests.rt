//! Lists of few and of more terms, read back from their small form, the order in which terms are packed, and
//! the bytes that numbers take.
use crate::numbers::Numbers;
use crate::packings::Packing;
use crate::triples::SmallTriples;
use gs_model::Refusal;
use gs_packed_texts::Texts;
use gs_term::{TermText, Triple};
use gs_triple_lists::TripleList;
use std::alloc::{AllocError, Global};
use std::test::Fail;

/// How many triples a list has, each of a subject of its own.
const LISTS: [usize; 4] = [0, 1, 2, 300];

/// The terms of a list of two triples, as they are packed: the predicates, and then the others in the order
/// in which they came. In so short a list a term is not looked for, so the object is there twice.
const PACKED: [&str; 6] = [
    "<http://example.org/terms#name>",
    "<e:p>",
    "<http://example.org/things/0>",
    "\"a\"",
    "<http://example.org/things/1>",
    "\"a\"",
];

/// How many terms there are, and how many bytes a number of theirs takes.
const WIDTHS: [(usize, usize); 6] = [(0, 1), (1, 1), (256, 1), (257, 2), (65_536, 2), (65_537, 4)];

/// The triple of a subject's number: the predicate is one of two, and all triples have one object.
fn triple(alloc: Global, number: usize) -> Result<Triple, Refusal> {
    let name = format!(in alloc; "http://example.org/things/{number}")?;
    let subject = TermText::iri(alloc, name.as_str())?;
    let predicate = match number % 2 {
        0 => TermText::iri(alloc, "http://example.org/terms#name")?,
        _ => TermText::iri(alloc, "e:p")?,
    };
    let object = TermText::literal(alloc, "a", None, None)?;
    if !subject.is_subject() || !predicate.is_iri() {
        return Err(Refusal::Syntax(0));
    }
    Ok(Triple::new(subject, predicate, object))
}

/// A list of so many triples.
fn list_of(alloc: Global, count: usize) -> Result<TripleList, Refusal> {
    let mut list = TripleList::new(alloc);
    for number in 0..count {
        list.push(triple(alloc, number)?)?;
    }
    Ok(list)
}

/// Whether a list of so many triples comes back from its small form.
fn comes_back(alloc: Global, count: usize) -> Result<bool, Refusal> {
    let list = list_of(alloc, count)?;
    let small = SmallTriples::of(alloc, &list)?;
    let given = list.to_vec(alloc)?;
    let back = small.to_vec(alloc)?;
    Ok(small.len() == count && given.as_slice() == back.as_slice())
}

/// The first count of triples that do not come back.
fn wrong_list(alloc: Global) -> Result<Option<usize>, Refusal> {
    for count in &LISTS {
        if !comes_back(alloc, *count)? {
            return Ok(Some(*count));
        }
    }
    Ok(None)
}

/// Whether this text comes next.
fn comes(left: &mut Texts<'_>, text: &[u8]) -> bool {
    match left.next() {
        Some(read) => text.strip_prefix(read.front()) == Some(read.rest()),
        None => false,
    }
}

/// The first term that is not packed at its place, or what is packed after all of them.
fn wrong_place(alloc: Global) -> Result<Option<&'static str>, Refusal> {
    let list = list_of(alloc, 2)?;
    let (terms, numbers) = list.parts();
    let packing = Packing::of(alloc, terms, numbers)?;
    let mut left = packing.texts.texts();
    for text in &PACKED {
        if !comes(&mut left, text.as_bytes()) {
            return Ok(Some(*text));
        }
    }
    let is_end = left.next().is_none();
    Ok(if is_end {
        None
    } else {
        Some("a text after them")
    })
}

/// The first count of terms whose numbers take another number of bytes.
fn wrong_width(alloc: Global) -> Result<Option<usize>, AllocError> {
    for row in &WIDTHS {
        let (terms, bytes) = *row;
        if Numbers::new(alloc, terms, 0)?.bytes() != bytes {
            return Ok(Some(terms));
        }
    }
    Ok(None)
}

#[test]
fn lists_come_back_from_their_small_form(rt: HostRuntime) -> Result<(), Fail> {
    assert_eq!(rt; wrong_list(rt.alloc())?, None);
    Ok(())
}

#[test]
fn predicates_are_packed_first(rt: HostRuntime) -> Result<(), Fail> {
    assert_eq!(rt; wrong_place(rt.alloc())?, None);
    Ok(())
}

#[test]
fn numbers_take_few_bytes(rt: HostRuntime) -> Result<(), Fail> {
    assert_eq!(rt; wrong_width(rt.alloc())?, None);
    Ok(())
}
