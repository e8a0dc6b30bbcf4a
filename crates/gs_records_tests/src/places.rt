//! Graphs whose names are a prefix of another's, in the order of a walk.
use crate::calls::{opens, puts, walks};
use gs_model::Refusal;
use gs_records::Records;
use std::alloc::Global;

/// Names in the order of their commits: the numbers go from 0, and the commits from 1.
const PUT: [(u32, &str); 5] = [
    (0, "http://e/ga"),
    (1, "http://e/g?"),
    (2, "http://e/g"),
    (3, "http://e/g/1"),
    (4, ""),
];

/// Puts a graph for each name: whether each has its number.
fn all_put(alloc: Global, records: &mut Records) -> Result<bool, Refusal> {
    for (number, name) in &PUT {
        let commit = u64::from(*number) + 1;
        if !opens(records, *number)? || !puts(alloc, records, *number, name, 1, commit)? {
            return Ok(false);
        }
    }
    Ok(true)
}

/// A version, where a walk begins in it, how many numbers it looks at, those that the version has, and
/// where it goes on.
const WALKS: [(u64, Option<u32>, usize, &[u32], Option<u32>); 10] = [
    (5, None, 9, &[4, 3, 2, 1, 0], None),
    (5, None, 5, &[4, 3, 2, 1, 0], Some(0)),
    (5, Some(0), 5, &[], None),
    (5, None, 2, &[4, 3], Some(3)),
    (5, Some(3), 2, &[2, 1], Some(1)),
    (5, Some(1), 2, &[0], None),
    (2, None, 9, &[1, 0], None),
    (2, None, 2, &[], Some(3)),
    (2, Some(3), 2, &[1], Some(1)),
    (0, None, 9, &[], None),
];

/// Whether each walk is as it should be.
fn all_walked(alloc: Global, records: &Records) -> Result<bool, Refusal> {
    for (version, from, most, wanted, on) in &WALKS {
        if !walks(alloc, records, *version, *from, *most, wanted, *on)? {
            return Ok(false);
        }
    }
    Ok(true)
}

/// Whether all are put and walked.
fn stand_in_order(alloc: Global, records: &mut Records) -> Result<bool, Refusal> {
    Ok(all_put(alloc, records)? && all_walked(alloc, records)?)
}

/// The default graph is first, then the names as they stand in a line, with their brackets.
#[test]
fn graphs_stand_in_the_order_of_their_names(rt: HostRuntime) -> Result<(), Refusal> {
    let mut records = Records::new(rt.alloc(), 1, 9, 0)?;
    let holds = stand_in_order(rt.alloc(), &mut records);
    drop(records);
    assert_eq!(&rt; holds?, true);
    Ok(())
}
