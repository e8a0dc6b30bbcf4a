//! Roots read in pieces, against lines written by hand (N-Triples, section 2, and its canonical form).
ghost use Rattle.std.specs.Prelude.{◌≡◌, ◌<◌, true};
ghost use Rattle.std.specs.Bool.{Decides};
ghost use Rattle.gs_tree.specs.Keys.{AllKeys};
ghost use Rattle.gs_keys.specs.Texts.{IsGiven};
ghost use Rattle.gs_keys.specs.Roots.{IsGraphAt};

use gs_dict::{Dict, TermId};
use gs_keys::ByText;
use gs_lines::{Piece, next_piece};
use gs_model::Refusal;
use gs_pool::{Key, Pool};
use gs_term::TermText;
use gs_tree::{is_rising, union};
use std::alloc::{AllocError, Global};
use std::test::Fail;

/// The lines of the triples of `key_of`, in their order.
const LINES: [&str; 5] = [
    "<e:a> <e:p> \"say \\\"a\\\\b\\\"\\n\" .\n",
    "<e:a> <e:p> \"x\"@en .\n",
    "<e:a> <e:p> <e:b> .\n",
    "<e:b> <e:p> \"1\"^^<e:int> .\n",
    "_:b1_2 <e:p> <e:a> .\n",
];

/// A name, how many of the triples the root has, how many lines a piece may have, and the pieces: a
/// digit for each line, with `-` after a piece where lines are left, and `.` after the last.
const ROWS: [(&str, usize, u32, &str); 7] = [
    ("no key", 0, 2, "."),
    ("one key", 1, 2, "1."),
    ("as many keys as a piece has", 2, 2, "12."),
    ("five keys in pieces of 2", 5, 2, "12-34-5."),
    ("four keys in pieces of 2", 4, 2, "12-34."),
    ("a line a piece", 5, 1, "1-2-3-4-5."),
    ("far more lines than there are", 5, u32::MAX, "12345."),
];

/// The key of the triple of a line, whose terms are given numbers: the object's first, so that
/// numbers do not rise as texts do.
fn key_of(alloc: Global, dict: &mut Dict, line: usize) -> Result<Key, Refusal> {
    let object = match line {
        0 => TermText::literal(alloc, "say \"a\\b\"\n", None, None)?,
        1 => TermText::literal(alloc, "x", None, Some("EN"))?,
        2 => TermText::iri(alloc, "e:b")?,
        3 => TermText::literal(alloc, "1", Some("e:int"), None)?,
        _ => TermText::iri(alloc, "e:a")?,
    };
    let subject = match line {
        0 | 1 | 2 => TermText::iri(alloc, "e:a")?,
        3 => TermText::iri(alloc, "e:b")?,
        _ => TermText::blank(alloc, 1, 2)?,
    };
    let predicate = TermText::iri(alloc, "e:p")?;
    let object = dict.intern(&object)?;
    let predicate = dict.intern(&predicate)?;
    let subject = dict.intern(&subject)?;
    Ok(Key {
        subject: subject.number,
        predicate: predicate.number,
        object: object.number,
    })
}

/// Whether the dictionary has each number of a key.
fn is_given(dict: &Dict, key: Key) -> bool
    ensures { Decides result (IsGiven dict.now.terms key) }
{
    let subject = dict.has(TermId {
        number: key.subject,
    });
    let predicate = dict.has(TermId {
        number: key.predicate,
    });
    let object = dict.has(TermId { number: key.object });
    subject && predicate && object
}

/// Whether it has each number of some keys.
fn are_given(dict: &Dict, keys: &[Key]) -> bool
    ensures { result ≡ true → AllKeys (IsGiven dict.now.terms) keys.now }
{
    let Some((key, rest)) = keys.split_first() else {
        return true;
    };
    is_given(dict, *key) && are_given(dict, rest)
}

/// Appends the pieces of a root, in the notation of the rows.
fn push_pieces(
    alloc: Global,
    dict: &Dict,
    pool: &Pool,
    root: Option<u32>,
    count: u32,
    read: &mut Vec<u8>,
) -> Result<(), AllocError>
    requires graph { IsGraphAt dict.now.terms pool.now root }
    requires some { 0 < count }
{
    let mut from = None;
    for _ in 0..9 {
        let piece = next_piece(alloc, dict, pool, root, from, count)?;
        let Piece {
            lines,
            last,
            is_end,
        } = piece;
        read.extend_from_slice(lines.into_bytes().as_slice())?;
        if is_end {
            return read.extend_from_slice(b".");
        }
        read.extend_from_slice(b"-")?;
        from = last;
    }
    Ok(())
}

/// The pieces of the root of these keys, which rise.
fn pieces(alloc: Global, dict: &Dict, keys: &[Key], count: u32) -> Result<Vec<u8>, Refusal> {
    let order = ByText::new(dict);
    if count == 0 || !is_rising(&order, keys) || !are_given(dict, keys) {
        return Err(Refusal::Syntax(0));
    }
    let mut pool = Pool::new(alloc, u32::MAX);
    let merged = union(&mut pool, &order, None, keys, 0, 0)?;
    let mut read = Vec::new(alloc);
    push_pieces(alloc, dict, &pool, merged.root, count, &mut read)?;
    Ok(read)
}

/// The pieces of a row, with the lines in the place of their digits.
fn expected(alloc: Global, pieces: &str) -> Result<Vec<u8>, AllocError> {
    let mut bytes = Vec::new(alloc);
    for mark in pieces.bytes() {
        match LINES.get(usize::from(mark.wrapping_sub(b'1'))) {
            Some(line) => bytes.extend_from_slice(line.as_bytes())?,
            None => bytes.push(mark)?,
        }
    }
    Ok(bytes)
}

/// The pieces of the root of the first so many lines.
fn read(alloc: Global, dict: &mut Dict, triples: usize, count: u32) -> Result<Vec<u8>, Refusal> {
    let mut keys = Vec::new(alloc);
    for line in 0..triples {
        keys.push(key_of(alloc, dict, line)?)?;
    }
    pieces(alloc, dict, keys.as_slice(), count)
}

/// Whether the pieces of a row come.
fn is_right(alloc: Global, triples: usize, count: u32, wanted: &str) -> Result<bool, Refusal> {
    let mut dict = Dict::new(alloc, 1, u32::MAX)?;
    let read = read(alloc, &mut dict, triples, count);
    drop(dict);
    Ok(read?.as_slice() == expected(alloc, wanted)?.as_slice())
}

/// The name of the first row that is wrong.
fn wrong_row(alloc: Global) -> Result<Option<&'static str>, Refusal> {
    for row in &ROWS {
        let (name, triples, count, wanted) = *row;
        if !is_right(alloc, triples, count, wanted)? {
            return Ok(Some(name));
        }
    }
    Ok(None)
}

#[test]
fn a_root_is_read_in_pieces(rt: HostRuntime) -> Result<(), Fail> {
    assert_eq!(rt; wrong_row(rt.alloc())?, None);
    Ok(())
}
