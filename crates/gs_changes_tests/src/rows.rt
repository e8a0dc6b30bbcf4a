//! Commits on small sets, and what is there in the end, worked by hand.
use crate::commits::{Trial, comes_back, is_kept, is_left_alone};
use gs_model::Refusal;
use gs_pool::Key;
use gs_tree_tests::key;
use std::alloc::Global;
use std::test::Fail;

/// A row has a name, the numbers of a set, those of another one that go into it, those that go out, those
/// that are there in the end, and how many came and how many went.
const ROWS: &str = r#"
nothing comes or goes | 1 2 3 | | | 1 2 3 | 0 | 0
a set comes into none | | 1 2 | | 1 2 | 2 | 0
what is there does not come again | 1 2 | 1 2 | | 1 2 | 0 | 0
some are there and some come | 1 2 | 2 3 | | 1 2 3 | 1 | 0
they come between and around others | 2 4 6 | 1 3 5 7 | | 1 2 3 4 5 6 7 | 4 | 0
one goes | 1 2 3 | | 2 | 1 3 | 0 | 1
what is not there does not go | 1 3 | | 2 4 | 1 3 | 0 | 0
what is listed twice goes once | 1 2 | | 2 2 | 1 | 0 | 1
they go in any order | 1 2 3 4 5 6 7 | | 6 1 4 | 2 3 5 7 | 0 | 3
all go | 1 2 3 | | 3 1 2 | | 0 | 3
what came goes again | 1 | 2 3 | 2 | 1 3 | 2 | 1
what came and what was there go | 1 4 | 2 3 | 3 4 | 1 2 | 2 | 2
all that came goes again | 1 2 3 | 4 5 | 4 5 | 1 2 3 | 2 | 2
none is left of two sets | 1 3 5 | 2 4 | 1 2 3 4 5 | | 2 | 5
many | 1 2 3 4 5 6 7 8 9 | 5 6 7 8 9 10 11 12 13 | 2 4 6 8 10 12 14 | 1 3 5 7 9 11 13 | 4 | 6
"#;

/// A row has a name, a set, another one, what goes out, and the last number that a node may have. A
/// removal asks for the most that it may copy, three nodes a level, or all that there are.
const REFUSED: &str = r#"
none may come | 1 2 3 | 4 | | 3
the copies do not fit | 1 2 3 4 5 6 7 | 8 | | 8
none may go | 1 2 3 | | 2 | 2
the second may not go | 1 2 3 4 5 6 7 | | 1 7 | 13
one may come, none may go | 1 | 2 | 1 | 3
"#;

/// The keys of numbers with spaces between them.
fn keys(alloc: Global, column: Option<&str>) -> Result<Vec<Key>, Refusal> {
    let mut keys = Vec::new(alloc);
    for word in column.unwrap_or_default().split(' ') {
        if let Ok(number) = word.parse::<u32>() {
            keys.push(key(number))?;
        }
    }
    Ok(keys)
}

/// The number that a column has.
fn number(column: Option<&str>) -> usize {
    column
        .unwrap_or_default()
        .trim()
        .parse::<usize>()
        .unwrap_or(usize::MAX)
}

/// The sets of a row, after its name.
fn trial(
    alloc: Global,
    set: Option<&str>,
    other: Option<&str>,
    out: Option<&str>,
) -> Result<Trial, Refusal> {
    Ok(Trial {
        set: keys(alloc, set)?,
        other: keys(alloc, other)?,
        out: keys(alloc, out)?,
    })
}

/// Whether a row is right, kept and taken back, and the set that comes in can be freed and made again.
fn is_so(alloc: Global, row: &str) -> Result<bool, Refusal> {
    let mut columns = row.split('|');
    let _name = columns.next();
    let trial = trial(alloc, columns.next(), columns.next(), columns.next())?;
    let wanted = keys(alloc, columns.next())?;
    let added = number(columns.next());
    let removed = number(columns.next());
    Ok(
        is_kept(alloc, &trial, wanted.as_slice(), added, removed)?
            && is_left_alone(alloc, &trial, u32::MAX)? == Some(false)
            && comes_back(alloc, &trial)?,
    )
}

/// Whether a row is refused, and leaves all as it was.
fn is_refused(alloc: Global, row: &str) -> Result<bool, Refusal> {
    let mut columns = row.split('|');
    let _name = columns.next();
    let trial = trial(alloc, columns.next(), columns.next(), columns.next())?;
    let last = columns
        .next()
        .unwrap_or_default()
        .trim()
        .parse::<u32>()
        .unwrap_or_default();
    Ok(is_left_alone(alloc, &trial, last)? == Some(true))
}

/// The first row that is wrong, and else how many there are.
fn count_right(alloc: Global) -> Result<Result<usize, &'static str>, Refusal> {
    let mut right = 0usize;
    for row in ROWS.lines() {
        if row.contains('|') {
            if !is_so(alloc, row)? {
                return Ok(Err(row));
            }
            right = right.saturating_add(1);
        }
    }
    Ok(Ok(right))
}

/// The same, of the rows that are refused.
fn count_refused(alloc: Global) -> Result<Result<usize, &'static str>, Refusal> {
    let mut right = 0usize;
    for row in REFUSED.lines() {
        if row.contains('|') {
            if !is_refused(alloc, row)? {
                return Ok(Err(row));
            }
            right = right.saturating_add(1);
        }
    }
    Ok(Ok(right))
}

#[test]
fn commits_make_what_they_should(rt: HostRuntime) -> Result<(), Fail> {
    assert_eq!(rt; count_right(rt.alloc())?, Ok(15));
    Ok(())
}

#[test]
fn a_refused_commit_leaves_all_as_it_was(rt: HostRuntime) -> Result<(), Fail> {
    assert_eq!(rt; count_refused(rt.alloc())?, Ok(5));
    Ok(())
}

/// Whether a commit leaves all as it was, whether it was refused or taken back, and is right again
/// where a request for memory was refused.
fn is_right_again(alloc: Global) -> Result<bool, Refusal> {
    let row = "| 1 2 3 4 5 6 7 8 9 | 8 9 10 11 12 | 2 4 6 8 10 | 1 3 5 7 9 11 12 | 3 | 5";
    let mut columns = row.split('|');
    let _name = columns.next();
    let trial = trial(alloc, columns.next(), columns.next(), columns.next())?;
    match is_left_alone(alloc, &trial, u32::MAX) {
        Ok(None) => Ok(false),
        _ => is_so(alloc, row),
    }
}

/// `rt try --test --fail-alloc N` refuses the request of that number.
#[test]
fn a_commit_is_right_after_a_refused_one(rt: HostRuntime) -> Result<(), Fail> {
    let right = match is_right_again(rt.alloc()) {
        Err(Refusal::NoMemory) => is_right_again(rt.alloc()),
        other => other,
    };
    assert!(rt; right?);
    Ok(())
}

/// Keys go into a set by 4,096 at once. A row has a name, how many come to a set of one, the last number
/// that a node may have, and whether they are refused. In both rows the numbers are enough for the nodes
/// of both sets, for 4,096 keys and for a copy of the one key: so all are in but the last one, where one
/// more comes.
const IN_PIECES: [(&str, u32, u32, bool); 2] = [
    ("as many as go in at once", 4_096, 8_193, false),
    (
        "one more, which is refused when the others are in",
        4_097,
        8_194,
        true,
    ),
];

/// A set of one key, and so many others above it, which go in.
fn many_more(alloc: Global, count: u32) -> Result<Trial, Refusal> {
    let mut trial = Trial {
        set: Vec::new(alloc),
        other: Vec::new(alloc),
        out: Vec::new(alloc),
    };
    trial.set.push(key(0))?;
    for number in 0..count {
        trial.other.push(key(number.saturating_add(1)))?;
    }
    Ok(trial)
}

/// The first of those rows that is wrong.
fn wrong_in_pieces(alloc: Global) -> Result<Option<&'static str>, Refusal> {
    for (name, count, last, refused) in &IN_PIECES {
        let trial = many_more(alloc, *count)?;
        let found = is_left_alone(alloc, &trial, *last);
        drop(trial);
        if found? != Some(*refused) {
            return Ok(Some(name));
        }
    }
    Ok(None)
}

#[test]
fn a_commit_that_is_refused_half_way_leaves_all_as_it_was(rt: HostRuntime) -> Result<(), Fail> {
    assert_eq!(rt; wrong_in_pieces(rt.alloc())?, None);
    Ok(())
}
