//! Entries of one target, of which one is found at each commit.
use crate::entries::{are_next, list_next, target};
use gs_index::{Entry, Index};
use gs_model::Refusal;
use gs_term::Target;
use std::alloc::Global;

/// Lists three entries of one name, and one of a name before it and after it: whether each is listed.
fn all_listed(alloc: Global, index: &mut Index) -> Result<bool, Refusal> {
    let first = list_next(alloc, index, "e:b", 2)? && list_next(alloc, index, "e:b", 7)?;
    let others = list_next(alloc, index, "e:a", 1)? && list_next(alloc, index, "e:c", 1)?;
    Ok(first && others && list_next(alloc, index, "e:b", 5)?)
}

/// Commits, and the numbers that are found at them.
const FOUND: [(u64, Option<u32>); 7] = [
    (0, None),
    (1, None),
    (2, Some(0)),
    (4, Some(0)),
    (5, Some(4)),
    (6, Some(4)),
    (u64::MAX, Some(1)),
];

/// Those that are found after the number 4 is taken off the list.
const LEFT: [(u64, Option<u32>); 4] = [(1, None), (4, Some(0)), (6, Some(0)), (7, Some(1))];

/// Whether each number is found at its commit.
fn are_found(index: &Index, target: &Target, rows: &[(u64, Option<u32>)]) -> bool {
    for (commit, wanted) in rows {
        if index.find(target, *commit) != *wanted {
            return false;
        }
    }
    true
}

/// Whether an entry is blank.
fn is_blank(entry: &Entry) -> bool {
    let is_unnamed = matches!(entry.target, Target::Default);
    is_unnamed && entry.birth == 0 && entry.death == None && entry.version.triples == 0
}

/// Takes the number 4 off the list: whether its entry is blank then.
fn is_taken(index: &mut Index) -> bool {
    if !index.is_listed(4) || index.len() != 5 {
        return false;
    }
    index.unlist(4);
    !index.is_listed(4) && is_blank(index.entry(4))
}

/// Ends the entry of the number 0: whether it says so, and stays where it is.
fn is_ended(alloc: Global, index: &mut Index) -> Result<bool, Refusal> {
    if index.len() != 5 {
        return Ok(false);
    }
    index.end(0, 5);
    let entry = index.entry(0);
    let holds = entry.death == Some(5) && entry.birth == 2;
    Ok(holds && are_next(alloc, index, None, 9, &[2, 1, 0, 3])?)
}

/// Whether each is found, also after one is taken out and one has ended.
fn found_by_age(alloc: Global, index: &mut Index, target: &Target) -> Result<bool, Refusal> {
    if !all_listed(alloc, index)? || !are_found(index, target, &FOUND) || !is_taken(index) {
        return Ok(false);
    }
    Ok(is_ended(alloc, index)? && are_found(index, target, &LEFT))
}

/// Of the entries of a target the youngest is found that was made by a commit or an earlier one.
#[test]
fn the_youngest_entry_by_a_commit_is_found(rt: HostRuntime) -> Result<(), Refusal> {
    let named = target(rt.alloc(), "e:b")?;
    let mut index = Index::new(rt.alloc());
    let holds = found_by_age(rt.alloc(), &mut index, &named);
    drop(index);
    drop(named);
    assert_eq!(&rt; holds?, true);
    Ok(())
}
