//! Triples packed and read back, beside the texts of their terms, written by hand (N-Triples, section 2, and its
//! canonical form).
use gs_model::Refusal;
use gs_packed_triples::{PackedTriple, PackedTriples, SplitText, UnpackedTriples};
use gs_term::{TermText, Triple};
use gs_triple_lists::TripleList;
use std::alloc::{AllocError, Global};
use std::test::Fail;

/// The texts of the terms of `term`, in their order.
const TEXTS: [&str; 9] = [
    "<http://example.org/lists/1>",
    "<http://example.org/lists/12>",
    "<http://example.org/terms#name>",
    "<e:p>",
    "_:b1_2",
    "\"\"",
    "\"say \\\"a\\\\b\\\"\\n\"",
    "\"na\u{ef}ve\"@fr",
    "\"1\"^^<e:int>",
];

/// The terms of the triples of two lists, by their numbers: a triple once more at once, after others, and in the
/// other list.
const LISTS: [&[[usize; 3]]; 3] = [
    &[
        [0, 2, 5],
        [0, 2, 5],
        [0, 2, 6],
        [1, 2, 6],
        [4, 3, 0],
        [0, 2, 5],
        [4, 3, 4],
    ],
    &[],
    &[[1, 3, 7], [4, 3, 8], [0, 2, 5], [1, 3, 7]],
];

/// The term of a number.
fn term(alloc: Global, number: usize) -> Result<TermText, Refusal> {
    match number {
        0 => TermText::iri(alloc, "http://example.org/lists/1"),
        1 => TermText::iri(alloc, "http://example.org/lists/12"),
        2 => TermText::iri(alloc, "http://example.org/terms#name"),
        3 => TermText::iri(alloc, "e:p"),
        4 => TermText::blank(alloc, 1, 2),
        5 => TermText::literal(alloc, "", None, None),
        6 => TermText::literal(alloc, "say \"a\\b\"\n", None, None),
        7 => TermText::literal(alloc, "na\u{ef}ve", None, Some("FR")),
        _ => TermText::literal(alloc, "1", Some("e:int"), None),
    }
}

/// The triple of three terms.
fn triple(alloc: Global, terms: &[usize; 3]) -> Result<Triple, Refusal> {
    let subject = term(alloc, terms[0])?;
    let predicate = term(alloc, terms[1])?;
    let object = term(alloc, terms[2])?;
    if !subject.is_subject() || !predicate.is_iri() {
        return Err(Refusal::Syntax(0));
    }
    Ok(Triple::new(subject, predicate, object))
}

/// Appends the triples of a list.
fn push_list(alloc: Global, rows: &[[usize; 3]], triples: &mut TripleList) -> Result<(), Refusal> {
    for row in rows {
        triples.push(triple(alloc, row)?)?;
    }
    Ok(())
}

/// Packs the triples of a list.
fn pack(alloc: Global, rows: &[[usize; 3]], packed: &mut PackedTriples) -> Result<bool, Refusal> {
    let mut triples = TripleList::new(alloc);
    let listed = push_list(alloc, rows, &mut triples);
    let has_room = packed.make_room(&triples);
    if has_room {
        packed.add(&triples);
    }
    drop(triples);
    listed?;
    Ok(has_room)
}

/// Packs the triples of all lists.
fn pack_all(alloc: Global, packed: &mut PackedTriples) -> Result<(), Refusal> {
    for rows in &LISTS {
        if !pack(alloc, *rows, packed)? {
            return Err(Refusal::NoMemory);
        }
    }
    Ok(())
}

/// Whether the text is that of a term's number.
fn is_text(alloc: Global, text: SplitText, number: usize) -> Result<bool, AllocError> {
    let mut bytes = Vec::from_slice(alloc, text.front())?;
    bytes.extend_from_slice(text.rest())?;
    match TEXTS.get(number) {
        Some(wanted) => Ok(bytes.as_slice() == wanted.as_bytes()),
        None => Ok(false),
    }
}

/// Whether the triple that is read has the terms of these numbers.
fn is_triple(alloc: Global, read: PackedTriple, row: &[usize; 3]) -> Result<bool, Refusal> {
    let texts = is_text(alloc, read.subject(), row[0])?
        && is_text(alloc, read.predicate(), row[1])?
        && is_text(alloc, read.object(), row[2])?;
    Ok(texts && read.to_triple(alloc)? == triple(alloc, row)?)
}

/// Whether a reader gives the triples of all lists as they were added, and no others.
fn are_given(alloc: Global, mut reader: UnpackedTriples<'_>) -> Result<bool, Refusal> {
    for rows in &LISTS {
        for row in *rows {
            let Some(read) = reader.next() else {
                return Ok(false);
            };
            if !is_triple(alloc, read, row)? {
                return Ok(false);
            }
        }
    }
    Ok(reader.next().is_none())
}

/// What is wrong of the triples of all lists, packed and then closed.
fn wrong_part(alloc: Global) -> Result<Option<&'static str>, Refusal> {
    let mut packed = PackedTriples::new(alloc);
    pack_all(alloc, &mut packed)?;
    if packed.len() != 11 {
        return Ok(Some("the number of packed triples"));
    }
    if !are_given(alloc, packed.triples())? {
        return Ok(Some("the packed triples"));
    }
    let closed = packed.closed();
    if closed.len() != 11 {
        return Ok(Some("the number of closed triples"));
    }
    let are_right = are_given(alloc, closed.triples())?;
    Ok(if are_right {
        None
    } else {
        Some("the closed triples")
    })
}

/// A name, the terms of the triples of a list, and for how many bytes of texts there is room once they are
/// closed. The first triple has 28, 31 and 2 bytes, and the object of the other one has 16: of the room for
/// two triples 61 of 122 bytes are filled, or 77 of 136, and no more is left.
const ROOMS: [(&str, &[[usize; 3]], usize); 4] = [
    ("no triple", &[], 0),
    ("a triple", &[[0, 2, 5]], 61),
    ("a triple twice", &[[0, 2, 5], [0, 2, 5]], 61),
    ("two objects", &[[0, 2, 5], [0, 2, 6]], 77),
];

/// Whether a list that was packed and closed has so much room.
fn has_room(alloc: Global, rows: &[[usize; 3]], room: usize) -> Result<bool, Refusal> {
    let mut packed = PackedTriples::new(alloc);
    let is_packed = pack(alloc, rows, &mut packed)?;
    let closed = packed.closed();
    Ok(is_packed && closed.len() == rows.len() && closed.capacity() == room)
}

/// The name of the first row of rooms that is wrong.
fn wrong_room(alloc: Global) -> Result<Option<&'static str>, Refusal> {
    for row in &ROOMS {
        let (name, rows, room) = *row;
        if !has_room(alloc, rows, room)? {
            return Ok(Some(name));
        }
    }
    Ok(None)
}

#[test]
fn triples_are_read_as_they_were_added(rt: HostRuntime) -> Result<(), Fail> {
    assert_eq!(rt; wrong_part(rt.alloc())?, None);
    Ok(())
}

#[test]
fn closed_triples_give_their_room_back(rt: HostRuntime) -> Result<(), Fail> {
    assert_eq!(rt; wrong_room(rt.alloc())?, None);
    Ok(())
}

#[test]
fn no_triples_are_read_where_none_were_added(rt: HostRuntime) {
    let packed = PackedTriples::new(rt.alloc());
    assert_eq!(rt; packed.len(), 0);
    assert!(rt; packed.triples().next().is_none());
}
