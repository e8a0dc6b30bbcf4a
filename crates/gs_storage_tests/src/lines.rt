//! Lines of a dictionary's terms: put together at once where a text of theirs is in the last block, and
//! else later, whatever is added meanwhile.
use crate::outcome::none_wrong;
use crate::terms::term;
use gs_dict::{Dict, TermId};
use gs_model::Refusal;
use gs_texts::Lines;
use std::alloc::Global;
use std::test::Fail;

/// The numbers of the terms of a line.
type Line = [u32; 3];

/// A row: what it is, the numbers of its lines, and whether they are put together later.
type Row = (&'static str, &'static [Line], bool);

/// So many terms there are when the lines are asked for: 2,690 bytes. The first block has 1,024, which are
/// those of the first 162, and the second one 2,048.
const TERMS: u32 = 400;

/// And so many are added before the lines are put together.
const MORE: u32 = 1_000;

const ROWS: [Row; 9] = [
    ("no line", &[], false),
    ("the first terms", &[[0, 1, 2]], true),
    (
        "the same again, and others",
        &[[0, 1, 2], [0, 3, 2], [4, 3, 0]],
        true,
    ),
    ("the last of the first block", &[[161, 161, 161]], true),
    ("the first after it", &[[162, 162, 162]], false),
    ("the last but one", &[[398, 398, 398]], false),
    ("the last term", &[[0, 1, 399]], false),
    ("the last term as a subject", &[[399, 1, 0]], false),
    (
        "the first terms, and the last as a predicate",
        &[[0, 1, 2], [0, 399, 2]],
        false,
    ),
];

/// What the first line has after its texts, and each second one after it, and what the others have.
const TAILS: [&[u8]; 2] = [b"<http://e/g> .\n", b".\n"];

/// Gives the terms from a number on theirs, up to another one.
fn add(alloc: Global, dict: &mut Dict, from: u32, to: u32) -> Result<(), Refusal> {
    for number in from..to {
        let one = term(alloc, u64::from(number))?;
        let given = dict.intern(&one);
        drop(one);
        let _ = given?;
    }
    Ok(())
}

/// The lines of terms, each with its tail.
fn lines_of(alloc: Global, dict: &Dict, row: &[Line]) -> Result<Lines, Refusal> {
    let mut lines = dict.lines(alloc, row.len())?;
    let mut number = 0usize;
    for line in row {
        lines.begin();
        lines.extend_tail(TAILS[number % 2])?;
        number = number.saturating_add(1);
        if !dict.has(TermId { number: line[0] })
            || !dict.has(TermId { number: line[1] })
            || !dict.has(TermId { number: line[2] })
        {
            return Err(Refusal::WrongPhase);
        }
        lines.push(
            TermId { number: line[0] },
            TermId { number: line[1] },
            TermId { number: line[2] },
        )?;
    }
    Ok(lines.finish()?)
}

/// What they are to be, from the terms themselves.
fn wanted(alloc: Global, row: &[Line]) -> Result<Vec<u8>, Refusal> {
    let mut bytes = Vec::new(alloc);
    let mut number = 0usize;
    for line in row {
        for number in line {
            let one = term(alloc, u64::from(*number))?;
            bytes.extend_from_slice(one.as_bytes())?;
            bytes.push(b' ')?;
        }
        bytes.extend_from_slice(TAILS[number % 2])?;
        number = number.saturating_add(1);
    }
    Ok(bytes)
}

/// Whether a row's lines are put together when they are to be, and are right after more terms came.
fn is_right(alloc: Global, row: &Row) -> Result<bool, Refusal> {
    let mut dict = Dict::new(alloc, 3, u32::MAX)?;
    add(alloc, &mut dict, 0, TERMS)?;
    let lines = lines_of(alloc, &dict, row.1)?;
    let is_later = lines.bytes().is_none();
    add(alloc, &mut dict, TERMS, TERMS + MORE)?;
    drop(dict);
    let bytes = lines.into_bytes();
    let wanted = wanted(alloc, row.1)?;
    Ok(is_later == row.2 && bytes.as_slice() == wanted.as_slice())
}

/// The first row that is wrong.
fn wrong_row(alloc: Global) -> Result<Option<&'static str>, Refusal> {
    for row in &ROWS {
        if !is_right(alloc, row)? {
            return Ok(Some(row.0));
        }
    }
    Ok(None)
}

#[test]
fn lines_are_those_of_the_terms_that_were_there(rt: HostRuntime) -> Result<(), Fail> {
    none_wrong(wrong_row(rt.alloc()))
}
