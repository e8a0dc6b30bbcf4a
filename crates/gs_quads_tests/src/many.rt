//! Many graphs, each of one line or of none: a walk looks at 256 numbers at a time.
ghost use Rattle.gs_quads_tests.specs.Trees.{AreTrees};

use crate::calls::put;
use crate::reads::pieces;
use crate::trees::{Roots, two_trees};
use gs_dict::Dict;
use gs_model::Refusal;
use gs_pool::Pool;
use gs_records::Records;
use std::alloc::Global;
use std::test::Fail;

/// The first graph is `http://e/100`, so all names have three digits, and rise as their numbers do.
const FIRST: u32 = 100;

/// The number of the first graph that has a line, the number past the last one, and how many lines a piece
/// has at most.
const ROWS: [(&str, u32, u32, u32); 8] = [
    ("256 graphs", 100, 356, 999),
    ("256 graphs and as many lines a piece", 100, 356, 256),
    ("257 graphs", 100, 357, 999),
    ("257 graphs and 256 lines a piece", 100, 357, 256),
    ("513 graphs", 100, 613, 999),
    ("513 graphs and 256 lines a piece", 100, 613, 256),
    ("256 graphs without a line before one", 356, 357, 1),
    ("512 graphs without a line before one", 612, 613, 9),
];

/// Puts graphs of so many triples under the names of numbers.
fn put_range(
    alloc: Global,
    records: &mut Records,
    roots: &Roots,
    from: u32,
    to: u32,
    triples: u64,
) -> Result<bool, Refusal> {
    for number in from..to {
        let name = format!(in alloc; "http://e/{number}")?;
        if !put(alloc, records, roots, name.as_str(), triples)? {
            return Ok(false);
        }
    }
    Ok(true)
}

/// The lines of the graphs of numbers, with `-` between pieces, and `.` after the last.
fn expected(alloc: Global, from: u32, to: u32, count: u32) -> Result<Vec<u8>, Refusal> {
    let mut bytes = Vec::new(alloc);
    let mut left = count;
    for number in from..to {
        if left == 0 {
            bytes.push(b'-')?;
            left = count;
        }
        let line = format!(in alloc; "<e:s> <e:p> <e:1> <http://e/{number}> .\n")?;
        bytes.extend_from_slice(line.as_bytes())?;
        left = left.saturating_sub(1);
    }
    bytes.push(b'.')?;
    Ok(bytes)
}

/// Whether the graphs of a row are put, and its pieces come.
fn is_read(
    alloc: Global,
    dict: &Dict,
    pool: &Pool,
    records: &mut Records,
    roots: &Roots,
    row: &(&'static str, u32, u32, u32),
) -> Result<bool, Refusal>
    requires trees { AreTrees dict.now.terms pool.now roots.now }
{
    let (_, from, to, count) = *row;
    if !put_range(alloc, records, roots, FIRST, from, 0)? {
        return Ok(false);
    }
    if !put_range(alloc, records, roots, from, to, 1)? {
        return Ok(false);
    }
    let version = records.latest();
    let read = pieces(alloc, dict, pool, records, roots, version, count)?;
    let wanted = expected(alloc, from, to, count)?;
    Ok(read.as_slice() == wanted.as_slice())
}

/// The name of the first row that is wrong.
fn wrong_in(
    alloc: Global,
    dict: &mut Dict,
    pool: &mut Pool,
) -> Result<Option<&'static str>, Refusal> {
    let roots = two_trees(alloc, dict, pool)?;
    for row in &ROWS {
        let mut records = Records::new(alloc, 1, 999, 0)?;
        let is_right = is_read(alloc, dict, pool, &mut records, &roots, row);
        drop(records);
        if !is_right? {
            return Ok(Some(row.0));
        }
    }
    Ok(None)
}

/// The same, over a dictionary and a pool of its own.
fn wrong_row(alloc: Global) -> Result<Option<&'static str>, Refusal> {
    let mut dict = Dict::new(alloc, 1, u32::MAX)?;
    let mut pool = Pool::new(alloc, u32::MAX);
    let wrong = wrong_in(alloc, &mut dict, &mut pool);
    drop(pool);
    drop(dict);
    wrong
}

#[test]
fn a_walk_goes_on_after_256_graphs(rt: HostRuntime) -> Result<(), Fail> {
    assert_eq!(rt; wrong_row(rt.alloc())?, None);
    Ok(())
}
