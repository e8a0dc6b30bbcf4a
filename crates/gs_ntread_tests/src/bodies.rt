//! Each public call once, and the first fault of texts with long tokens.
use gs_body::BodyReader;
use gs_model::Refusal;
use gs_ntread::{NTriplesReader, read_by_characters};
use gs_ntwrite::line;
use gs_term::Triple;
use gs_triple_lists::TripleList;
use std::alloc::{AllocError, Global};
use std::test::Fail;

/// Reads a text that comes in these pieces.
fn read(
    reader: &mut NTriplesReader,
    pieces: &[&[u8]],
    triples: &mut TripleList,
) -> Result<(), Refusal> {
    for piece in pieces {
        reader.feed(piece, triples)?;
    }
    reader.finish(triples)
}

/// The lines of triples, in their order.
fn each_line(alloc: Global, triples: &[Triple]) -> Result<Vec<u8>, Refusal> {
    let mut lines = Vec::new(alloc);
    for triple in triples {
        line(triple, &mut lines)?;
    }
    Ok(lines)
}

/// The lines of a list's triples, in their order.
fn lines_in(alloc: Global, triples: &TripleList) -> Result<Vec<u8>, Refusal> {
    let triples = triples.to_vec(alloc)?;
    each_line(alloc, triples.as_slice())
}

/// The lines of the triples of a text of request 3 that comes in these pieces, in their order.
pub fn lines_of(alloc: Global, pieces: &[&[u8]]) -> Result<Vec<u8>, Refusal> {
    let mut reader = NTriplesReader::new(alloc, 3);
    let mut triples = TripleList::new(alloc);
    let read = read(&mut reader, pieces, &mut triples);
    drop(reader);
    let lines = lines_in(alloc, &triples);
    drop(triples);
    read?;
    lines
}

#[test]
fn a_body_in_two_pieces_gives_its_triples(rt: HostRuntime) -> Result<(), Fail> {
    let pieces = [
        b"_:x.y <http://e/p> \"a\\u00E9\\\"\"@EN . # comment\n<http://e/s> <http://e".as_slice(),
        b"/p> _:x.y.\n".as_slice(),
    ];
    let wanted = "_:b3_1 <http://e/p> \"a\u{E9}\\\"\"@en .\n<http://e/s> <http://e/p> _:b3_1 .\n";
    let lines = lines_of(rt.alloc(), &pieces)?;
    assert_eq!(rt; lines.as_slice(), wanted.as_bytes());
    read_by_characters();
    Ok(())
}

/// Whether a text is refused so as it is fed, and its end then since the reader is closed.
fn is_refused(alloc: Global, text: &[u8], refusal: Refusal) -> bool {
    let mut reader = NTriplesReader::new(alloc, 1);
    let mut triples = TripleList::new(alloc);
    let fed = reader.feed(text, &mut triples);
    let ended = reader.finish(&mut triples);
    drop(triples);
    drop(reader);
    fed == Err(refusal) && ended == Err(Refusal::Closed)
}

#[test]
fn a_relative_iri_is_a_fault(rt: HostRuntime) {
    let text = b"<http://e/s> <p> ";
    assert!(rt; is_refused(rt.alloc(), text, Refusal::Syntax(0)));
}

/// The fault of a text in parts.
pub fn fault_of(alloc: Global, parts: &[&[u8]]) -> Option<Refusal> {
    let mut reader = NTriplesReader::new(alloc, 1);
    let mut triples = TripleList::new(alloc);
    let read = read(&mut reader, parts, &mut triples);
    drop(triples);
    drop(reader);
    read.err()
}

/// Reads a text in pieces of one byte.
fn read_bytes(
    reader: &mut NTriplesReader,
    parts: &[&[u8]],
    triples: &mut TripleList,
) -> Result<(), Refusal> {
    for part in parts {
        for byte in *part {
            reader.feed(&[*byte], triples)?;
        }
    }
    reader.finish(triples)
}

/// The fault of the text in pieces of one byte.
fn fault_in_bytes(alloc: Global, parts: &[&[u8]]) -> Option<Refusal> {
    let mut reader = NTriplesReader::new(alloc, 1);
    let mut triples = TripleList::new(alloc);
    let read = read_bytes(&mut reader, parts, &mut triples);
    drop(triples);
    drop(reader);
    read.err()
}

const SYNTAX: Option<Refusal> = Some(Refusal::Syntax(0));

const LONG: Option<Refusal> = Some(Refusal::TermTooLong);

/// Whether a text has this fault, whole and in pieces of one byte.
fn is_fault(alloc: Global, parts: &[&[u8]], fault: Option<Refusal>) -> bool {
    fault_of(alloc, parts) == fault && fault_in_bytes(alloc, parts) == fault
}

/// What stands before and after 70,000 letters `a`, and the fault of the text.
type Row = (&'static [u8], &'static [u8], Option<Refusal>);

/// The place of the first row whose text has not its fault.
fn wrong_row(alloc: Global, rows: &[Row]) -> Result<Option<usize>, AllocError> {
    let letters = vec![in alloc; b'a'; 70_000]?;
    for (place, (front, back, fault)) in rows.iter().enumerate() {
        if !is_fault(alloc, &[*front, letters.as_slice(), *back], *fault) {
            return Ok(Some(place));
        }
    }
    Ok(None)
}

const FORMS: [Row; 4] = [
    (b"<", b"> <a:p> <a:o> .", SYNTAX),
    (b"<a:", b"> <a:p> <a:o> .", LONG),
    (b"<a:s> <a:p> \"\"^^<", b"> .", SYNTAX),
    (b"<a:s> <a:p> \"", b"\"^^<d> .", SYNTAX),
];

#[test]
fn a_wrong_form_counts_before_a_great_length(rt: HostRuntime) -> Result<(), Fail> {
    assert_eq!(rt; wrong_row(rt.alloc(), &FORMS)?, None);
    Ok(())
}

const STRINGS: [Row; 5] = [
    (b"<a:s> <a:p> \"", b"\"@ .", LONG),
    (b"<a:s> <a:p> \"", b"\"@1 .", LONG),
    (b"<a:s> <a:p> \"", b"\"^ .", LONG),
    (b"<a:s> <a:p> \"", b"\"@", LONG),
    (b"<a:s> <a:p> \"", b"\"^", LONG),
];

#[test]
fn a_string_is_the_term_where_no_suffix_begins(rt: HostRuntime) -> Result<(), Fail> {
    assert_eq!(rt; wrong_row(rt.alloc(), &STRINGS)?, None);
    Ok(())
}

const LITERALS: [Row; 5] = [
    (b"<a:s> <a:p> \"", b"\"@en .", LONG),
    (b"<a:s> <a:p> \"", b"\"@en- .", LONG),
    (b"<a:s> <a:p> \"", b"\"@en-", LONG),
    (b"<a:s> <a:p> \"", b"\"^^<a:d> .", LONG),
    (b"<a:s> <a:p> \"", b"\"^^ .", SYNTAX),
];

#[test]
fn a_literal_is_tested_at_its_last_token(rt: HostRuntime) -> Result<(), Fail> {
    assert_eq!(rt; wrong_row(rt.alloc(), &LITERALS)?, None);
    Ok(())
}

const TAGS: [Row; 4] = [
    (b"<a:s> <a:p> \"\"@", b" .", LONG),
    (b"<a:s> <a:p> \"\"@", b"1 .", LONG),
    (b"<a:s> <a:p> \"\"@", b"-1 .", LONG),
    (b"_:", b" <a:p> <a:o> .", None),
];

#[test]
fn a_tag_ends_before_what_is_no_part_of_it(rt: HostRuntime) -> Result<(), Fail> {
    assert_eq!(rt; wrong_row(rt.alloc(), &TAGS)?, None);
    Ok(())
}

/// Objects that break the grammar.
const OBJECTS: [&[u8]; 5] = [
    b"\"a\"@ .",
    b"\"a\"^ .",
    b"\"a\"@en- .",
    b"\"a\"@",
    b"\"a\"^",
];

/// The first of these objects that does not break the grammar, whole and in pieces of one byte.
fn first_unbroken(alloc: Global, objects: &[&'static [u8]]) -> Option<&'static [u8]> {
    for object in objects {
        if !is_fault(alloc, &[b"<a:s> <a:p> ".as_slice(), *object], SYNTAX) {
            return Some(object);
        }
    }
    None
}

#[test]
fn what_begins_no_suffix_breaks_the_grammar_after_a_string(rt: HostRuntime) -> Result<(), Fail> {
    assert_eq!(rt; first_unbroken(rt.alloc(), &OBJECTS), None);
    Ok(())
}

#[test]
fn long_labels_that_differ_in_their_last_byte_are_two_nodes(rt: HostRuntime) -> Result<(), Fail> {
    let letters = vec![in rt.alloc(); b'a'; 69_999]?;
    let long = letters.as_slice();
    let pieces = [
        b"_:".as_slice(),
        long,
        b"b <a:p> _:".as_slice(),
        long,
        b"c .\n_:".as_slice(),
        long,
        b"b <a:p> <a:o> .".as_slice(),
    ];
    let lines = lines_of(rt.alloc(), &pieces)?;
    let wanted = b"_:b3_1 <a:p> _:b3_2 .\n_:b3_1 <a:p> <a:o> .\n";
    assert_eq!(rt; lines.as_slice(), wanted.as_slice());
    Ok(())
}

#[test]
fn a_label_has_any_number_of_dots_in_a_row(rt: HostRuntime) -> Result<(), Fail> {
    let dots = vec![in rt.alloc(); b'.'; 70_000]?;
    let pieces = [
        b"_:a".as_slice(),
        dots.as_slice(),
        b"a <a:p> _:a".as_slice(),
        dots.as_slice(),
        b".a .".as_slice(),
    ];
    let lines = lines_of(rt.alloc(), &pieces)?;
    let wanted = b"_:b3_1 <a:p> _:b3_2 .\n";
    assert_eq!(rt; lines.as_slice(), wanted.as_slice());
    Ok(())
}

#[test]
fn a_byte_order_mark_is_a_fault(rt: HostRuntime) -> Result<(), Fail> {
    let parts = [b"\xEF\xBB\xBF<a:s> <a:p> <a:o> .".as_slice()];
    assert!(rt; is_fault(rt.alloc(), &parts, SYNTAX));
    Ok(())
}

/// How many triples are given of a text before it ends.
fn given(alloc: Global, text: &[u8]) -> Result<usize, Refusal> {
    let mut reader = NTriplesReader::new(alloc, 1);
    let mut triples = TripleList::new(alloc);
    let fed = reader.feed(text, &mut triples);
    let count = triples.len();
    drop(triples);
    drop(reader);
    fed?;
    Ok(count)
}

#[test]
fn a_cut_character_keeps_no_statement_back(rt: HostRuntime) -> Result<(), Fail> {
    let text = b"<a:s> <a:p> <a:o> .\n# \xC3";
    assert_eq!(rt; given(rt.alloc(), text)?, 1);
    let lines = lines_of(rt.alloc(), &[text.as_slice(), b"\xA9\n".as_slice()])?;
    assert_eq!(rt; lines.as_slice(), b"<a:s> <a:p> <a:o> .\n".as_slice());
    Ok(())
}
