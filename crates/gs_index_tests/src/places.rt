//! Entries of names that are a prefix of another, or longer and yet before it: bytes are compared, that of the
//! bracket after a name too.
use crate::entries::{are_next, list_next};
use gs_index::Index;
use gs_model::Refusal;
use std::alloc::Global;

/// Names and births, in the order in which they are listed: their numbers go from 0.
const LISTED: [(&str, u64); 11] = [
    ("http://e/ga", 1),
    ("http://e/g", 2),
    ("http://e/g/1", 3),
    ("", 4),
    ("http://e/g?", 5),
    ("http://e/g", 6),
    ("e:b", 7),
    ("e:\u{E9}", 8),
    ("E:a", 9),
    ("e:aaaaaaaa", 10),
    ("e:\u{E8}", 11),
];

/// Lists them all: whether each is listed.
fn all_listed(alloc: Global, index: &mut Index) -> Result<bool, Refusal> {
    for (name, birth) in &LISTED {
        if !list_next(alloc, index, name, *birth)? {
            return Ok(false);
        }
    }
    Ok(true)
}

/// Where a walk begins, how many numbers it may give, and which they are.
const WALKS: [(Option<u32>, usize, &[u32]); 7] = [
    (None, 99, &[3, 8, 9, 6, 10, 7, 2, 5, 1, 4, 0]),
    (None, 0, &[]),
    (None, 2, &[3, 8]),
    (Some(8), 4, &[9, 6, 10, 7]),
    (Some(2), 2, &[5, 1]),
    (Some(1), 9, &[4, 0]),
    (Some(0), 9, &[]),
];

/// Whether each walk gives its numbers.
fn all_walked(alloc: Global, index: &Index) -> Result<bool, Refusal> {
    for (from, most, wanted) in &WALKS {
        if !are_next(alloc, index, *from, *most, wanted)? {
            return Ok(false);
        }
    }
    Ok(true)
}

/// Whether all are listed and walked.
fn stand_in_order(alloc: Global, index: &mut Index) -> Result<bool, Refusal> {
    Ok(all_listed(alloc, index)? && all_walked(alloc, index)?)
}

/// The default graph is first, then the names as they stand in a line; of one name the youngest is first.
#[test]
fn names_stand_in_the_order_of_their_lines(rt: HostRuntime) -> Result<(), Refusal> {
    let mut index = Index::new(rt.alloc());
    let holds = stand_in_order(rt.alloc(), &mut index);
    drop(index);
    assert_eq!(&rt; holds?, true);
    Ok(())
}
