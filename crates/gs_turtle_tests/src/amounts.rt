//! How much the texts of a document may take: 16,777,216 bytes, and 64 for each byte that was read. Each
//! row has a name of 64,998 bytes, so of 65,000 as a term, or longer ones that begin with it.
use gs_model::Refusal;
use gs_test_readings::turtle::wrong_count;
use std::alloc::{AllocError, Global};
use std::test::Fail;

/// The lengths of pieces in bytes; the first is whole.
const LENGTHS: [usize; 2] = [usize::MAX, 4_096];

/// How often a letter stands in the long name, after `http://e/`.
const LETTERS: usize = 64_989;

/// What stands before these letters, the letter, and what stands after them.
type Front = (&'static str, &'static str, &'static str);

/// What is repeated, how often, how many spaces follow, and the end. A `#` is another number each time, of
/// three digits.
type Rest = (&'static str, usize, usize, &'static str);

/// A front, a rest, and how many triples the text has, or its refusal.
type Row = (Front, Rest, Result<usize, Refusal>);

const TOO_MUCH: Result<usize, Refusal> = Err(Refusal::NoMemory);

/// A long subject with long objects. The prefix takes 64,998 bytes. Of 256 triples the list has the subject
/// with 65,000 bytes, the first object with 65,002, each further one with 65,003, and the verb of 5 bytes
/// nine times, since the first 16 terms are not looked for. Each of the 33 that wait by themselves then
/// takes 130,008. These are 21,061,074 bytes. The first object ends after 65,027 bytes, and each further
/// one 6 later; the last triple counts at the dot, after 179 spaces more 21,061,056 may be, after 180 more
/// 21,061,120. With 256 triples and no more the last 64 wait: 20,931,130 bytes, and 21,036,928 may be.
const OBJECTS: Front = ("@prefix p: <http://e/", "x", "> . p: <a:b> p:99");

/// A long subject with a short object again and again: what comes again is free.
const SUBJECT: Front = ("@prefix p: <http://e/", "x", "> . p: <a:b> <a:b>");

/// A statement of 20 bytes for each long name, after 65,013 bytes. 327: some 21,320,990 bytes, and
/// 21,356,608 may be. 328: some 21,385,990, and 21,357,888 may be. Or statements of one long name, which
/// counts once.
const STATEMENTS: Front = ("@prefix p: <http://e/", "x", "> .");

/// Prefixes, each the long name, which is the base, and counts for this too. The first one's reference ends
/// after 65,022 bytes, and each further one 16 bytes later. 326: 21,254,346 bytes, and 21,271,424 may be.
/// 327: 21,319,344, and 21,272,448 may be. Or the same base again: its first reference ends after 65,017
/// bytes, and each further one 11 bytes later. 324: 21,124,350 bytes, and 21,165,696 may be. 325:
/// 21,189,348, and 21,166,400 may be.
const BASE: Front = ("@base <http://e/", "x", "> .");

/// A collection of long names, of which each counts once it is read, and its cells do not until they join
/// the list. The first one ends after 65,033 bytes, and each further one 6 bytes later. 322: some 20,996,000
/// bytes, and 21,062,592 may be.
const COLLECTION: Front = ("@prefix p: <http://e/", "x", "> . <a:b> <a:b> (");

/// A statement of 64 long names, which join a list. It takes 4,160,320 bytes and is 526 long. After the
/// fifth some 20,867,400 bytes are taken, and 21,106,368 may be; in the sixth some 25,027,700, and
/// 21,140,032. The first one may become the document's list, or join one that has a triple.
const LISTS: Front = ("@prefix p: <http://e/", "x", "> .");

const LISTS_AFTER: Front = ("@prefix p: <http://e/", "x", "> . <a:b> <a:b> <a:b> .");

const NAMES: &str =
    " <a:b> <a:b> p:#00,p:#01,p:#02,p:#03,p:#04,p:#05,p:#06,p:#07,p:#08,p:#09,p:#10,p:#11,\
    p:#12,p:#13,p:#14,p:#15,p:#16,p:#17,p:#18,p:#19,p:#20,p:#21,p:#22,p:#23,p:#24,p:#25,p:#26,p:#27,p:#28,\
    p:#29,p:#30,p:#31,p:#32,p:#33,p:#34,p:#35,p:#36,p:#37,p:#38,p:#39,p:#40,p:#41,p:#42,p:#43,p:#44,p:#45,\
    p:#46,p:#47,p:#48,p:#49,p:#50,p:#51,p:#52,p:#53,p:#54,p:#55,p:#56,p:#57,p:#58,p:#59,p:#60,p:#61,p:#62,\
    p:#63 .";

/// The same names of a long subject, which stays in the list once. While the 64 triples of a statement wait
/// they take 8,320,640 bytes. In the fourth some 20,931,700 bytes are taken, and 21,073,472 may be; in the
/// fifth some 25,092,000, and 21,107,328.
const NAMES_OF_ONE: &str =
    " p: <a:b> p:#00,p:#01,p:#02,p:#03,p:#04,p:#05,p:#06,p:#07,p:#08,p:#09,p:#10,\
    p:#11,p:#12,p:#13,p:#14,p:#15,p:#16,p:#17,p:#18,p:#19,p:#20,p:#21,p:#22,p:#23,p:#24,p:#25,p:#26,\
    p:#27,p:#28,p:#29,p:#30,p:#31,p:#32,p:#33,p:#34,p:#35,p:#36,p:#37,p:#38,p:#39,p:#40,p:#41,p:#42,\
    p:#43,p:#44,p:#45,p:#46,p:#47,p:#48,p:#49,p:#50,p:#51,p:#52,p:#53,p:#54,p:#55,p:#56,p:#57,p:#58,\
    p:#59,p:#60,p:#61,p:#62,p:#63 .";

/// A long subject with 64 short objects, again and again: it counts once. If it stayed with each statement,
/// 400 of them would take 26,000,000 bytes, and some 24,740,000 may be.
const ONES: &str = " p: <a:b> 1,1,1,1,1,1,1,1,1,1,1,1,1,1,1,1,1,1,1,1,1,1,1,1,1,1,1,1,1,1,1,1,1,1,\
    1,1,1,1,1,1,1,1,1,1,1,1,1,1,1,1,1,1,1,1,1,1,1,1,1,1,1,1,1,1 .";

/// A base that letters follow: 66,074 of them make it 131,072 bytes, as many as a base may have.
const LONG_BASE: Front = ("@base <http://e/", "x", "");

/// A base that goes on with as many '/', and counts 779,928 bytes that are made for each reference without a
/// scheme: 12 for each of its 64,992 '/', and 4 for each of the 6 other bytes. So it is with one whose scheme
/// an escape hides, which takes no time. What is repeated has 63 bytes and four of these, and makes 22 bytes of
/// texts. 34,359,738,368 bytes more may be made than may be kept. After 11,034 times 1,955,230 are left; once
/// more the verb would take 381,613 too many.
const SLASHES: Front = ("@base <http://e/", "/", "> .");

/// In the places of a prefix, a subject, a verb and a datatype.
const REFERENCES: &str = " @prefix p: <\\u0061:b> . <\\u0061:b> <\\u0061:b> \"\"^^<\\u0061:b> .";

const ROWS: [Row; 23] = [
    (OBJECTS, (",p:#", 255, 0, "."), Ok(256)),
    (OBJECTS, (",p:#", 288, 179, "."), TOO_MUCH),
    (OBJECTS, (",p:#", 288, 180, "."), Ok(289)),
    (LISTS, (NAMES, 5, 0, ""), Ok(320)),
    (LISTS, (NAMES, 6, 0, ""), TOO_MUCH),
    (LISTS_AFTER, (NAMES, 5, 0, ""), Ok(321)),
    (LISTS_AFTER, (NAMES, 6, 0, ""), TOO_MUCH),
    (LISTS, (NAMES_OF_ONE, 4, 0, ""), Ok(256)),
    (LISTS, (NAMES_OF_ONE, 5, 0, ""), TOO_MUCH),
    (LISTS, (ONES, 400, 0, ""), Ok(25_600)),
    (SUBJECT, (",<a:b>", 400, 0, "."), Ok(401)),
    (STATEMENTS, (" p:# <a:b> <a:b> .", 327, 0, ""), Ok(327)),
    (STATEMENTS, (" p:# <a:b> <a:b> .", 328, 0, ""), TOO_MUCH),
    (STATEMENTS, (" p: p: p: .", 110, 0, ""), Ok(110)),
    (BASE, (" @prefix p: <> .", 326, 0, ""), Ok(0)),
    (BASE, (" @prefix p: <> .", 327, 0, ""), TOO_MUCH),
    (BASE, (" @base <> .", 324, 0, ""), Ok(0)),
    (BASE, (" @base <> .", 325, 0, ""), TOO_MUCH),
    (LONG_BASE, ("y", 66_074, 0, "> ."), Ok(0)),
    (LONG_BASE, ("y", 66_075, 0, "> ."), TOO_MUCH),
    (COLLECTION, (" p:#", 322, 0, " ) ."), Ok(645)),
    (SLASHES, (REFERENCES, 11_034, 0, ""), Ok(11_034)),
    (SLASHES, (REFERENCES, 11_035, 0, ""), TOO_MUCH),
];

/// Adds a piece, with a number of three digits in the place of each `#`.
fn push_piece(piece: &str, number: usize, text: &mut String) -> Result<(), AllocError> {
    for part in piece.split_inclusive('#') {
        match part.strip_suffix('#') {
            None => text.push_str(part)?,
            Some(front) => write!(text, "{front}{number}")?,
        }
    }
    Ok(())
}

/// The text of a row.
fn text_of(alloc: Global, front: &Front, rest: &Rest) -> Result<String, AllocError> {
    let mut text = String::from_str(alloc, front.0)?;
    text.push_str(front.1.repeat(alloc, LETTERS)?.as_str())?;
    text.push_str(front.2)?;
    for number in 100..rest.1.saturating_add(100) {
        push_piece(rest.0, number, &mut text)?;
    }
    text.push_str(" ".repeat(alloc, rest.2)?.as_str())?;
    text.push_str(rest.3)?;
    Ok(text)
}

/// The place of the first row that has another number of triples, or another refusal.
fn wrong_row(alloc: Global) -> Result<Option<usize>, AllocError> {
    for (place, row) in ROWS.iter().enumerate() {
        let text = text_of(alloc, &row.0, &row.1)?;
        if wrong_count(alloc, &LENGTHS, text.as_str(), row.2).is_some() {
            return Ok(Some(place));
        }
    }
    Ok(None)
}

#[test]
fn texts_take_so_much_for_each_byte(rt: HostRuntime) -> Result<(), Fail> {
    assert_eq!(rt; wrong_row(rt.alloc())?, None);
    Ok(())
}
