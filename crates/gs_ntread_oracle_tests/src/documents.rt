//! Documents of N-Triples: the reader in pieces says what the plain reader says of the whole text.
use crate::plain::{Meaning, meaning_of};
use gs_model::Refusal;
use gs_ntread::NTriplesReader;
use gs_test_readings::{SIZES, feed, lines_of};
use gs_triple_lists::TripleList;
use std::alloc::{AllocError, Global};
use std::test::Fail;

/// Documents and texts that are none.
const DOCUMENTS: [&str; 44] = [
    "",
    "\n\r\n \t# nothing\n",
    "<a:b> <c:d> <e:f> .",
    "<a:b><c:d><e:f>.",
    "<a:b> <c:d> <e:f> .\n<a:b> <c:d> \"x\" .",
    "<a:b> <c:d> <e:f> . # a comment\r\n# another\r\r_:a <c:d> _:b .\n",
    "<a:b> <c:d> <e:f> . <a:b> <c:d> <e:f> .",
    "<a:b> <c:d> <e:f>",
    "<a:b> <c:d> .",
    "<a:b> \"x\" <e:f> .",
    "\"x\" <c:d> <e:f> .",
    "<a:b> _:p <e:f> .",
    "_:a <c:d> _:a .\n_:b <c:d> _:a.\n_:b <c:d> _:c .",
    "_:a.b <c:d> _:a.b..",
    "_:a. <c:d> _:b .",
    "_:1 <c:d> _:a-b:c .",
    "_:-a <c:d> _:b .",
    "_: <c:d> _:b .",
    "_:\u{E9} <c:d> _:\u{10000} .",
    "_:a\u{B7} <c:d> _:\u{B7}a .",
    "<a> <c:d> <e:f> .",
    "<:a> <c:d> <e:f> .",
    "<1a:b> <c:d> <e:f> .",
    "<a+.-:> <c:d> <e:f> .",
    "<a:\u{E9}\\u00e9\\U0001F600> <c:d> <e:f> .",
    "<a:\\u0020> <c:d> <e:f> .",
    "<a:\\u00g0> <c:d> <e:f> .",
    "<a:\\n> <c:d> <e:f> .",
    "<a:b c> <c:d> <e:f> .",
    "<a:b> <c:d> \"\" .",
    "<a:b> <c:d> \"a\\t\\b\\n\\r\\f\\\"\\'\\\\\" .",
    "<a:b> <c:d> \"\\x\" .",
    "<a:b> <c:d> \"\\uD800\" .",
    "<a:b> <c:d> \"\\U00110000\" .",
    "<a:b> <c:d> \"\\U0010FFFF\\u0000\" .",
    "<a:b> <c:d> \"a\nb\" .",
    "<a:b> <c:d> \"x\"@en-GB-1 .",
    "<a:b> <c:d> \"x\" @EN.",
    "<a:b> <c:d> \"x\"@1 .",
    "<a:b> <c:d> \"x\"@en- .",
    "<a:b> <c:d> \"x\"^^<http://www.w3.org/2001/XMLSchema#string> .",
    "<a:b> <c:d> \"x\" ^^ <e:f> .",
    "<a:b> <c:d> \"x\"^<e:f> .",
    "<a:b> <c:d> \"x\"^^<e> .",
];

/// A document of which each character is left out in turn, and at each character of which another
/// text ends.
const WHOLE: &str =
    "_:a <c:d> \"\\u00e9\\n\"@en-GB .#x\n<a:b><c:d>_:a.b.\n<a:b> <c:d> \"\"^^<e:f>.";

/// Whether the reader in pieces says this of a document. Of a text with a fault that is where the
/// fault is.
fn agrees(alloc: Global, document: &str, size: usize, want: &Meaning) -> Result<bool, Refusal> {
    let mut reader = NTriplesReader::new(alloc, 1);
    let mut triples = TripleList::new(alloc);
    let reported = feed(&mut reader, document.as_bytes(), size, &mut triples);
    let lines = lines_of(alloc, &triples);
    drop(triples);
    if let Some(at) = want.fault {
        return Ok(reported == Err(Refusal::Syntax(at)));
    }
    reported?;
    Ok(lines?.as_slice() == want.lines.as_bytes())
}

/// The first length of pieces in which the reader does not say of a document what the plain reader
/// says.
fn wrong_size(alloc: Global, document: &str) -> Result<Option<usize>, Refusal> {
    let want = meaning_of(alloc, document)?;
    for size in &SIZES {
        if !agrees(alloc, document, *size, &want)? {
            return Ok(Some(*size));
        }
    }
    Ok(None)
}

/// The first document that is wrong in pieces of some length.
fn wrong_document(alloc: Global) -> Result<Option<&'static str>, Refusal> {
    for document in &DOCUMENTS {
        if wrong_size(alloc, document)?.is_some() {
            return Ok(Some(document));
        }
    }
    Ok(None)
}

#[test]
fn both_readers_say_the_same(rt: HostRuntime) -> Result<(), Fail> {
    assert_eq!(rt; wrong_document(rt.alloc())?, None);
    Ok(())
}

/// The text without its character of this number.
fn without(alloc: Global, text: &str, left_out: usize) -> Result<String, AllocError> {
    let mut rest = String::new(alloc);
    for (i, c) in text.chars().enumerate() {
        if i != left_out {
            rest.push(c)?;
        }
    }
    Ok(rest)
}

/// Whether both readers say the same of the text without its character of this number.
fn are_same_without(alloc: Global, left_out: usize) -> Result<bool, Refusal> {
    let rest = without(alloc, WHOLE, left_out)?;
    Ok(wrong_size(alloc, rest.as_str())?.is_none())
}

/// The number of the first character without which the text is wrong, or before which it is wrong
/// as it ends.
fn wrong_damage(alloc: Global) -> Result<Option<usize>, Refusal> {
    let mut front = String::new(alloc);
    for (i, c) in WHOLE.chars().enumerate() {
        if !are_same_without(alloc, i)? || wrong_size(alloc, front.as_str())?.is_some() {
            return Ok(Some(i));
        }
        front.push(c)?;
    }
    Ok(None)
}

#[test]
fn both_readers_say_the_same_of_damaged_documents(rt: HostRuntime) -> Result<(), Fail> {
    assert_eq!(rt; wrong_damage(rt.alloc())?, None);
    assert_eq!(rt; wrong_size(rt.alloc(), WHOLE)?, None);
    Ok(())
}
