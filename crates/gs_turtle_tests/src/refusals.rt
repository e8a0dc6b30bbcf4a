//! What a refusal leaves: the list as it was, and a closed reader. With memory these show the
//! usual answers; `rt try --test --fail-alloc N` refuses the request of that number.
use gs_body::BodyReader;
use gs_model::Refusal;
use gs_test_readings::turtle::reader;
use gs_triple_lists::TripleList;
use gs_turtle::TurtleReader;
use std::alloc::Global;
use std::test::Fail;

/// A reader. Where memory is refused once, it is asked for again.
fn reader_again(alloc: Global) -> Result<TurtleReader, Refusal> {
    match reader(alloc, "http://e/a") {
        Ok(reader) => Ok(reader),
        Err(_) => reader(alloc, "http://e/a"),
    }
}

/// Whether each call is refused, and the list stays so long.
fn is_closed(reader: &mut TurtleReader, triples: &mut TripleList, length: usize) -> bool {
    let was_so = triples.len() == length;
    let first = reader.feed(b"", triples);
    let second = reader.feed(b"<a:b> <a:b> <a:b> .", triples);
    let end = reader.finish(triples);
    let closed = Err(Refusal::Closed);
    let are_refused = first == closed && second == closed && end == closed;
    was_so && are_refused && triples.len() == length
}

/// A document in pieces, each with the number of triples that are there after it. A directive, a
/// string and a statement are cut, and the last dot is known as one only at the end.
const PIECES: [(&str, usize); 5] = [
    ("@prefix ex: <http:", 0),
    ("//e/> . _:x a ex:a.b , ( 1 .5 [ ex:p \"x", 0),
    ("\"@EN ] ) . BASE <d", 9),
    ("/> <s> <p> '''a''' ^^ <e> . [ a _:y ; <p> _:x ", 10),
    ("] . <s> a ex:a.", 12),
];

/// Feeds the pieces up to the first one that is refused. Gives whether none was, and nothing where a
/// refusal is another one or leaves something else, or a piece gives other triples.
fn feed_all(reader: &mut TurtleReader, triples: &mut TripleList) -> Option<bool> {
    for (piece, length) in &PIECES {
        let before = triples.len();
        if let Err(refusal) = reader.feed(piece.as_bytes(), triples) {
            let is_so = refusal == Refusal::NoMemory && is_closed(reader, triples, before);
            return if is_so { Some(false) } else { None };
        }
        if triples.len() != *length {
            return None;
        }
    }
    Some(true)
}

/// Whether the text of the pieces ends as it must.
fn ends(reader: &mut TurtleReader, triples: &mut TripleList) -> bool {
    match reader.finish(triples) {
        Ok(()) => is_closed(reader, triples, 13),
        Err(refusal) => refusal == Refusal::NoMemory && is_closed(reader, triples, 12),
    }
}

/// Whether the pieces are read, or refused, as they must be.
fn reads_all(reader: &mut TurtleReader, triples: &mut TripleList) -> bool {
    match feed_all(reader, triples) {
        Some(true) => ends(reader, triples),
        Some(false) => true,
        None => false,
    }
}

/// The same of a new reader.
fn are_read(alloc: Global) -> Result<bool, Refusal> {
    let mut reader = reader_again(alloc)?;
    let mut triples = TripleList::new(alloc);
    let answer = reads_all(&mut reader, &mut triples);
    drop(triples);
    drop(reader);
    Ok(answer)
}

#[test]
fn a_refused_request_for_memory_leaves_the_list(rt: HostRuntime) -> Result<(), Fail> {
    assert!(rt; are_read(rt.alloc())?);
    Ok(())
}

/// Whether this was refused for memory or for a fault there.
fn is_refused(reported: Result<(), Refusal>, at: u64) -> bool {
    reported == Err(Refusal::NoMemory) || reported == Err(Refusal::Syntax(at))
}

/// Whether a fault in the second piece leaves the list.
fn leaves_after_fault(reader: &mut TurtleReader, triples: &mut TripleList) -> bool {
    let first = reader.feed(b"<s> <p> <o> . ", triples);
    if first.is_err() {
        return first == Err(Refusal::NoMemory) && is_closed(reader, triples, 0);
    }
    let second = reader.feed(b"<s> <p> 1 , 2 . <s> <p> . <s> <p> <o> .", triples);
    is_refused(second, 29) && is_closed(reader, triples, 1)
}

/// The same of a new reader.
fn fault_leaves(alloc: Global) -> Result<bool, Refusal> {
    let mut reader = reader_again(alloc)?;
    let mut triples = TripleList::new(alloc);
    let answer = leaves_after_fault(&mut reader, &mut triples);
    drop(triples);
    drop(reader);
    Ok(answer)
}

#[test]
fn a_fault_leaves_the_list(rt: HostRuntime) -> Result<(), Fail> {
    assert!(rt; fault_leaves(rt.alloc())?);
    Ok(())
}

/// Whether a fault at the end leaves the list: the last piece may still go on.
fn leaves_at_end(reader: &mut TurtleReader, triples: &mut TripleList) -> bool {
    let first = reader.feed(b"<s> <p> <o> . [] <p> true.", triples);
    if first.is_err() {
        return first == Err(Refusal::NoMemory) && is_closed(reader, triples, 0);
    }
    let second = reader.feed(b"x", triples);
    if second.is_err() {
        return second == Err(Refusal::NoMemory) && is_closed(reader, triples, 1);
    }
    let end = reader.finish(triples);
    is_refused(end, 26) && is_closed(reader, triples, 1)
}

/// The same of a new reader.
fn fault_at_end_leaves(alloc: Global) -> Result<bool, Refusal> {
    let mut reader = reader_again(alloc)?;
    let mut triples = TripleList::new(alloc);
    let answer = leaves_at_end(&mut reader, &mut triples);
    drop(triples);
    drop(reader);
    Ok(answer)
}

#[test]
fn a_fault_at_the_end_leaves_the_list(rt: HostRuntime) -> Result<(), Fail> {
    assert!(rt; fault_at_end_leaves(rt.alloc())?);
    Ok(())
}
