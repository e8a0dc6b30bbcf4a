//! Terms by their lengths: long ones, and such as just fill the blocks that texts stand in.
use crate::outcome::none_wrong;
use gs_dict::{Dict, TermId};
use gs_model::Refusal;
use gs_term::TermText;
use std::alloc::Global;
use std::test::Fail;

/// The most bytes of a term's text.
pub const LONGEST: usize = 65_535;

/// The literal whose text has so many bytes, two of which are quotes, and this number in front.
pub fn literal_of(alloc: Global, number: u32, bytes: usize) -> Result<TermText, Refusal> {
    let mut text = format!(in alloc; "{number}")?;
    for _ in text.len().saturating_add(2)..bytes {
        text.push('x')?;
    }
    TermText::literal(alloc, text.as_str(), None, None)
}

/// How long the texts of even and of odd numbers are, and how many there are.
type Row = (&'static str, usize, usize, u32);

/// The first blocks have 1,024 bytes, 2,048 and so on, the later ones 262,128, which is four times 65,532.
const ROWS: [Row; 6] = [
    ("the longest", LONGEST, LONGEST, 24),
    ("the longest, and short ones", LONGEST, 8, 24),
    ("short ones, and the longest", 8, LONGEST, 24),
    ("four that fill a block", 65_532, 65_532, 24),
    ("such as fill each of the first blocks", 1_024, 1_024, 600),
    ("such as are longer than the first block", 1_025, 1_025, 600),
];

/// The term of a number in a row.
fn term_of(alloc: Global, row: &Row, number: u32) -> Result<TermText, Refusal> {
    literal_of(alloc, number, if number % 2 == 0 { row.1 } else { row.2 })
}

/// Whether a term is new, and is given this number.
fn is_given(alloc: Global, dict: &mut Dict, row: &Row, number: u32) -> Result<bool, Refusal> {
    let term = term_of(alloc, row, number)?;
    let found = dict.find(&term);
    let id = dict.intern(&term);
    drop(term);
    Ok(found == None && id?.number == number)
}

/// Whether a term has this number, and the number its text.
fn is_kept(alloc: Global, dict: &Dict, row: &Row, number: u32) -> Result<bool, Refusal> {
    let term = term_of(alloc, row, number)?;
    let id = TermId { number };
    Ok(dict.find(&term) == Some(id) && dict.has(id) && dict.text(id) == term.as_bytes())
}

/// Whether all terms of a row are given their numbers, and each then still has its own.
fn is_right(alloc: Global, dict: &mut Dict, row: &Row) -> Result<bool, Refusal> {
    for number in 0..row.3 {
        if !is_given(alloc, dict, row, number)? {
            return Ok(false);
        }
    }
    for number in 0..row.3 {
        if !is_kept(alloc, dict, row, number)? {
            return Ok(false);
        }
    }
    Ok(true)
}

/// The first row that is wrong, each in a dictionary of its own.
fn wrong_row(alloc: Global) -> Result<Option<&'static str>, Refusal> {
    for row in &ROWS {
        let mut dict = Dict::new(alloc, 3, u32::MAX)?;
        let right = is_right(alloc, &mut dict, row);
        drop(dict);
        if !right? {
            return Ok(Some(row.0));
        }
    }
    Ok(None)
}

#[test]
fn texts_of_all_lengths_stand_over_the_ends_of_blocks(rt: HostRuntime) -> Result<(), Fail> {
    none_wrong(wrong_row(rt.alloc()))
}
