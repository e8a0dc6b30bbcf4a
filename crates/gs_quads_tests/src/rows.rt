//! Histories of few graphs, read at several versions in pieces of several sizes, against lines written by
//! hand (N-Quads, section 2).
ghost use Rattle.gs_quads_tests.specs.Trees.{AreTrees};

use crate::calls::all_made;
use crate::reads::pieces;
use crate::trees::{Roots, two_trees};
use gs_dict::Dict;
use gs_model::Refusal;
use gs_pool::Pool;
use gs_records::Records;
use std::alloc::{AllocError, Global};
use std::test::Fail;

/// A put of an empty default graph, of which no record is kept.
const EMPTY: [(&str, Option<u64>); 1] = [("", Some(0))];

/// A version, how many lines a piece has at most, and the pieces: a digit for each line, with `-` after a
/// piece where lines are left, and `.` after the last.
const EMPTY_ROWS: [(&str, u64, u32, &str); 3] = [
    ("no commit", 0, 1, "."),
    ("an empty default graph", 1, 1, "."),
    ("a version that is not made yet", 9, 9, "."),
];

/// The default graph alone.
const DEFAULT: [(&str, Option<u64>); 1] = [("", Some(2))];

const DEFAULT_LINES: [&str; 2] = ["<e:s> <e:p> <e:2> .\n", "<e:s> <e:p> <e:3> .\n"];

const DEFAULT_ROWS: [(&str, u64, u32, &str); 4] = [
    ("before it is put", 0, 1, "."),
    ("the default graph in pieces of one line", 1, 1, "1-2."),
    ("as many lines as a piece has", 1, 2, "12."),
    ("far more lines than there are", 1, u32::MAX, "12."),
];

/// A name that is a prefix of another, and of two more that stand after both: in a line it has its `>`,
/// which comes after `/`, and before `?` and `a`.
const FRONTS: [(&str, Option<u64>); 5] = [
    ("http://e/ga", Some(1)),
    ("http://e/g?", Some(1)),
    ("http://e/g", Some(2)),
    ("http://e/g/1", Some(1)),
    ("", Some(1)),
];

const FRONT_LINES: [&str; 6] = [
    "<e:s> <e:p> <e:1> .\n",
    "<e:s> <e:p> <e:1> <http://e/g/1> .\n",
    "<e:s> <e:p> <e:2> <http://e/g> .\n",
    "<e:s> <e:p> <e:3> <http://e/g> .\n",
    "<e:s> <e:p> <e:1> <http://e/g?> .\n",
    "<e:s> <e:p> <e:1> <http://e/ga> .\n",
];

const FRONT_ROWS: [(&str, u64, u32, &str); 7] = [
    ("all lines at once", 5, 9, "123456."),
    ("just as many as there are", 5, 6, "123456."),
    ("one less than there are", 5, 5, "12345-6."),
    ("a line a piece", 5, 1, "1-2-3-4-5-6."),
    ("two lines a piece", 5, 2, "12-34-56."),
    ("a piece that ends within a graph", 5, 3, "123-456."),
    ("before the last two commits", 3, 1, "3-4-5-6."),
];

/// An empty graph between two others, and then at the end.
const BETWEEN: [(&str, Option<u64>); 4] = [
    ("http://e/a", Some(1)),
    ("http://e/b", Some(0)),
    ("http://e/c", Some(2)),
    ("http://e/c", None),
];

const BETWEEN_LINES: [&str; 3] = [
    "<e:s> <e:p> <e:1> <http://e/a> .\n",
    "<e:s> <e:p> <e:2> <http://e/c> .\n",
    "<e:s> <e:p> <e:3> <http://e/c> .\n",
];

const BETWEEN_ROWS: [(&str, u64, u32, &str); 5] = [
    ("an empty graph between two", 3, 1, "1-2-3."),
    ("the same in pieces of two", 3, 2, "12-3."),
    ("the same at once", 3, 9, "123."),
    ("an empty graph at the end", 2, 1, "1."),
    ("the same once the last is removed", 4, 1, "1."),
];

/// A graph that is put again, one that is removed, and a new name.
const CHANGES: [(&str, Option<u64>); 6] = [
    ("http://e/a", Some(1)),
    ("http://e/b", Some(2)),
    ("", Some(1)),
    ("http://e/a", Some(2)),
    ("http://e/b", None),
    ("http://e/0", Some(1)),
];

const CHANGE_LINES: [&str; 7] = [
    "<e:s> <e:p> <e:1> .\n",
    "<e:s> <e:p> <e:1> <http://e/0> .\n",
    "<e:s> <e:p> <e:1> <http://e/a> .\n",
    "<e:s> <e:p> <e:2> <http://e/a> .\n",
    "<e:s> <e:p> <e:3> <http://e/a> .\n",
    "<e:s> <e:p> <e:2> <http://e/b> .\n",
    "<e:s> <e:p> <e:3> <http://e/b> .\n",
];

const CHANGE_ROWS: [(&str, u64, u32, &str); 7] = [
    ("one graph", 1, 1, "3."),
    ("two graphs", 2, 2, "36-7."),
    (
        "before the put, the removal and the new name",
        3,
        1,
        "1-3-6-7.",
    ),
    ("the same in pieces of two", 3, 2, "13-67."),
    ("after the put", 4, 2, "14-56-7."),
    ("after the removal", 5, 2, "14-5."),
    ("with the new name", 6, 2, "12-45."),
];

/// The pieces of a row, with the lines in the place of their digits.
fn expected(alloc: Global, lines: &[&str], marks: &str) -> Result<Vec<u8>, AllocError> {
    let mut bytes = Vec::new(alloc);
    for mark in marks.bytes() {
        match lines.get(usize::from(mark.wrapping_sub(b'1'))) {
            Some(line) => bytes.extend_from_slice(line.as_bytes())?,
            None => bytes.push(mark)?,
        }
    }
    Ok(bytes)
}

/// The name of the first row whose pieces do not come.
fn wrong_read(
    alloc: Global,
    dict: &Dict,
    pool: &Pool,
    records: &Records,
    roots: &Roots,
    lines: &[&str],
    rows: &[(&'static str, u64, u32, &'static str)],
) -> Result<Option<&'static str>, Refusal>
    requires trees { AreTrees dict.now.terms pool.now roots.now }
{
    for row in rows {
        let (name, version, count, marks) = *row;
        let read = pieces(alloc, dict, pool, records, roots, version, count)?;
        let wanted = expected(alloc, lines, marks)?;
        if read.as_slice() != wanted.as_slice() {
            return Ok(Some(name));
        }
    }
    Ok(None)
}

/// The same, once a history was made.
fn wrong_in(
    alloc: Global,
    dict: &mut Dict,
    pool: &mut Pool,
    calls: &[(&str, Option<u64>)],
    lines: &[&str],
    rows: &[(&'static str, u64, u32, &'static str)],
) -> Result<Option<&'static str>, Refusal> {
    let roots = two_trees(alloc, dict, pool)?;
    let mut records = Records::new(alloc, 1, 9, 0)?;
    let made = all_made(alloc, &mut records, &roots, calls);
    let wrong = wrong_read(alloc, dict, pool, &records, &roots, lines, rows);
    drop(records);
    if !made? {
        return Ok(Some("a commit"));
    }
    wrong
}

/// The name of the first row of a history that is wrong.
fn wrong_row(
    alloc: Global,
    calls: &[(&str, Option<u64>)],
    lines: &[&str],
    rows: &[(&'static str, u64, u32, &'static str)],
) -> Result<Option<&'static str>, Refusal> {
    let mut dict = Dict::new(alloc, 1, u32::MAX)?;
    let mut pool = Pool::new(alloc, u32::MAX);
    let wrong = wrong_in(alloc, &mut dict, &mut pool, calls, lines, rows);
    drop(pool);
    drop(dict);
    wrong
}

#[test]
fn an_empty_dataset_has_no_line(rt: HostRuntime) -> Result<(), Fail> {
    assert_eq!(rt;
        wrong_row(rt.alloc(), &EMPTY, &DEFAULT_LINES, &EMPTY_ROWS)?,
        None
    );
    Ok(())
}

#[test]
fn the_default_graph_has_no_name(rt: HostRuntime) -> Result<(), Fail> {
    assert_eq!(rt;
        wrong_row(rt.alloc(), &DEFAULT, &DEFAULT_LINES, &DEFAULT_ROWS)?,
        None
    );
    Ok(())
}

#[test]
fn graphs_stand_in_the_order_of_their_names(rt: HostRuntime) -> Result<(), Fail> {
    assert_eq!(rt;
        wrong_row(rt.alloc(), &FRONTS, &FRONT_LINES, &FRONT_ROWS)?,
        None
    );
    Ok(())
}

#[test]
fn an_empty_graph_is_passed_over(rt: HostRuntime) -> Result<(), Fail> {
    assert_eq!(rt;
        wrong_row(rt.alloc(), &BETWEEN, &BETWEEN_LINES, &BETWEEN_ROWS)?,
        None
    );
    Ok(())
}

#[test]
fn lines_are_those_of_the_version(rt: HostRuntime) -> Result<(), Fail> {
    assert_eq!(rt;
        wrong_row(rt.alloc(), &CHANGES, &CHANGE_LINES, &CHANGE_ROWS)?,
        None
    );
    Ok(())
}
