//! Which lists are moved into a spare block.
use crate::blocks::SpareBlocks;
use std::alloc::{AllocError, Global};
use std::test::Fail;

/// For how many bytes a spare block has room, how many a list has, and whether it is moved.
const ROWS: [(&str, usize, usize, bool); 7] = [
    ("a list of 63", 100, 63, false),
    ("a list that fills the block", 64, 64, true),
    ("a list of one more", 64, 65, false),
    ("a list that fills half of it", 1_000, 500, true),
    ("a list of one less", 1_000, 499, false),
    ("a list of 65,536", 65_536, 65_536, true),
    ("a list of one more", 65_537, 65_537, false),
];

/// A list of so many bytes, with room for just these.
fn list(alloc: Global, count: usize) -> Result<Vec<u8>, AllocError> {
    vec![in alloc; 7u8; count]
}

/// Whether a list is moved where there is such a block, and is the same then.
fn is_right(alloc: Global, room: usize, count: usize, moved: bool) -> Result<bool, AllocError> {
    let mut blocks = SpareBlocks::new(alloc);
    blocks.give(Vec::with_capacity(alloc, room)?);
    let mut kept = list(alloc, count)?;
    kept.reserve_exact(1)?;
    let before = kept.capacity();
    blocks.take_in(&mut kept);
    let wanted = if moved { room } else { before };
    let same = kept.as_slice() == list(alloc, count)?.as_slice();
    Ok(same && kept.capacity() == wanted)
}

/// The first wrong row.
fn wrong_row(alloc: Global) -> Result<Option<&'static str>, AllocError> {
    for (name, room, count, moved) in &ROWS {
        if !is_right(alloc, *room, *count, *moved)? {
            return Ok(Some(name));
        }
    }
    Ok(None)
}

#[test]
fn lists_are_moved_into_blocks_that_they_fill_by_half(rt: HostRuntime) -> Result<(), Fail> {
    let wrong = wrong_row(rt.alloc()).expect(&rt, "memory");
    assert_eq!(rt; wrong, None);
    Ok(())
}

/// Whether a block is found that was given before so many others of this room, into which the list does
/// not fit.
fn is_found(alloc: Global, others: usize, room: usize) -> Result<bool, AllocError> {
    let mut blocks = SpareBlocks::new(alloc);
    blocks.give(Vec::with_capacity(alloc, 128)?);
    for _ in 0..others {
        blocks.give(Vec::with_capacity(alloc, room)?);
    }
    let mut kept = list(alloc, 100)?;
    blocks.take_in(&mut kept);
    Ok(kept.capacity() == 128)
}

#[test]
fn the_newest_32_blocks_are_looked_at(rt: HostRuntime) -> Result<(), Fail> {
    assert!(rt; is_found(rt.alloc(), 31, 1_000).expect(&rt, "memory"));
    assert!(rt; !is_found(rt.alloc(), 32, 1_000).expect(&rt, "memory"));
    Ok(())
}

#[test]
fn blocks_that_no_list_moves_into_are_not_kept(rt: HostRuntime) -> Result<(), Fail> {
    assert!(rt; is_found(rt.alloc(), 32, 63).expect(&rt, "memory"));
    assert!(rt; is_found(rt.alloc(), 32, 131_074).expect(&rt, "memory"));
    assert!(rt; !is_found(rt.alloc(), 32, 131_073).expect(&rt, "memory"));
    Ok(())
}

/// Whether two lists of 600 find one block for both, where it has room for 1,000.
fn is_found_twice(alloc: Global) -> Result<bool, AllocError> {
    let mut blocks = SpareBlocks::new(alloc);
    blocks.give(Vec::with_capacity(alloc, 1_000)?);
    let mut first = list(alloc, 600)?;
    let mut second = list(alloc, 600)?;
    blocks.take_in(&mut first);
    blocks.take_in(&mut second);
    Ok(first.capacity() != 1_000 || second.capacity() != 600)
}

/// Whether a block is found after all were given back.
fn is_found_cleared(alloc: Global) -> Result<bool, AllocError> {
    let mut blocks = SpareBlocks::new(alloc);
    blocks.give(Vec::with_capacity(alloc, 1_000)?);
    blocks.clear();
    let mut kept = list(alloc, 600)?;
    blocks.take_in(&mut kept);
    Ok(kept.capacity() == 1_000)
}

#[test]
fn a_block_is_used_once(rt: HostRuntime) -> Result<(), Fail> {
    assert!(rt; !is_found_twice(rt.alloc()).expect(&rt, "memory"));
    assert!(rt; !is_found_cleared(rt.alloc()).expect(&rt, "memory"));
    Ok(())
}
