//! Texts with a fault, and what a refused call leaves.
use gs_body::BodyReader;
use gs_model::Refusal;
use gs_test_readings::SIZES;
use gs_test_readings::turtle::{fault_of, reader};
use gs_triple_lists::TripleList;
use gs_turtle::TurtleReader;
use std::alloc::Global;
use std::test::Fail;

/// Texts with a fault.
const FAULTS: [(&str, Refusal); 15] = [
    ("<s> <p> <o> . <s> <p> .", Refusal::Syntax(13)),
    ("<s> <p> <o> . <s> <p> ~", Refusal::Syntax(13)),
    ("<s> <p> <o> . <s> <p> <o>", Refusal::Syntax(13)),
    ("<s> <p> <o> . e:s ~ <o>", Refusal::Syntax(13)),
    ("<s> <p> <o> . <s> . ~", Refusal::Syntax(13)),
    ("<s> <p> \"", Refusal::Syntax(0)),
    ("@prefix p: <d/> . p:s ~ <o>", Refusal::Syntax(17)),
    ("<s> <p> <o> . @prefix p: <d/>", Refusal::Syntax(13)),
    ("<s> <p> <o> . @prefix p:", Refusal::Syntax(13)),
    ("<s> <p> <o> . @base <d/>", Refusal::Syntax(13)),
    ("<s> <p> <o> . PREFIX p:", Refusal::Syntax(13)),
    ("<s> <p> <o> . BASE <d/> <s> .", Refusal::Syntax(23)),
    // A byte order mark is a character that may begin a prefix; before anything else it is a word
    // that the grammar does not have.
    ("\u{FEFF}<s> <p> <o> .", Refusal::Syntax(0)),
    ("\u{FEFF}@prefix e: <d/> .", Refusal::Syntax(0)),
    ("\u{FEFF}e:s <p> <o> .", Refusal::Syntax(0)),
];

/// The first of these texts that does not have its fault, in pieces of so many bytes.
fn wrong_fault(alloc: Global, size: usize) -> Option<&'static str> {
    for (text, fault) in &FAULTS {
        if fault_of(alloc, "http://b/", text.as_bytes(), size) != Some(*fault) {
            return Some(text);
        }
    }
    None
}

/// The same in pieces of each length.
fn wrong_in_pieces(alloc: Global) -> Option<&'static str> {
    for size in &SIZES {
        if let Some(text) = wrong_fault(alloc, *size) {
            return Some(text);
        }
    }
    None
}

#[test]
fn the_first_fault_of_a_text_is_reported(rt: HostRuntime) {
    assert_eq!(rt; wrong_in_pieces(rt.alloc()), None);
}

/// Whether something that is no token is reported with its piece, before the text ends.
fn is_told_at_once(alloc: Global) -> Result<bool, Refusal> {
    let mut reader = reader(alloc, "http://b/")?;
    let mut triples = TripleList::new(alloc);
    let fed = reader.feed(b"<b c>", &mut triples);
    drop(triples);
    drop(reader);
    Ok(fed == Err(Refusal::Syntax(0)))
}

#[test]
fn what_is_no_token_is_reported_with_its_piece(rt: HostRuntime) -> Result<(), Fail> {
    assert!(rt; is_told_at_once(rt.alloc())?);
    Ok(())
}

/// Whether a fault in the second piece is reported, leaves the list, and closes the reader.
fn leaves(reader: &mut TurtleReader, triples: &mut TripleList) -> Result<bool, Refusal> {
    reader.feed(b"<s> <p> <o> .\n", triples)?;
    let before = triples.len();
    let fed = reader.feed(b"<s> <p> <n> . <s> .\n", triples);
    let after = triples.len();
    let ended = reader.finish(triples);
    let is_reported = fed == Err(Refusal::Syntax(27)) && ended == Err(Refusal::Closed);
    Ok(is_reported && before == 1 && after == 1 && triples.len() == 1)
}

/// The same of a new reader.
fn fault_leaves(alloc: Global) -> Result<bool, Refusal> {
    let mut reader = reader(alloc, "http://b/")?;
    let mut triples = TripleList::new(alloc);
    let answer = leaves(&mut reader, &mut triples);
    drop(triples);
    drop(reader);
    answer
}

#[test]
fn a_refused_call_leaves_the_list(rt: HostRuntime) -> Result<(), Fail> {
    assert!(rt; fault_leaves(rt.alloc())?);
    Ok(())
}
