//! Sets where a request for memory is refused. With memory these show the usual answers;
//! `rt try --test --fail-alloc N` refuses the request of that number.
use crate::number_sets::{NumberSet, key};
use crate::outcome::none_wrong;
use gs_model::Refusal;
use gs_pool::Key;
use std::alloc::Global;
use std::test::Fail;

/// How many numbers come one by one.
const NUMBERS: u32 = 120;

/// The keys of a set, which are asked for once more where memory was refused; then there are none of them
/// yet.
fn read(set: &NumberSet, keys: &mut Vec<Key>) -> Result<bool, Refusal> {
    if set.next_keys(None, NUMBERS as usize, keys).is_err() {
        if !keys.is_empty() {
            return Ok(false);
        }
        set.next_keys(None, NUMBERS as usize, keys)?;
    }
    Ok(true)
}

/// Whether these are the keys of all numbers below a count.
fn are_below(keys: &[Key], count: u32) -> bool {
    for (wanted, found) in keys.iter().enumerate() {
        if found.object as usize != wanted {
            return false;
        }
    }
    keys.len() == count as usize
}

/// Whether a set has this many nodes in use, and all numbers below a count and no other.
fn is_filled(alloc: Global, set: &NumberSet, count: u32, used: u64) -> Result<bool, Refusal> {
    let mut keys: Vec<Key> = Vec::new(alloc);
    let is_read = read(set, &mut keys);
    let is_right = are_below(&keys, count) && set.nodes_in_use() == used;
    drop(keys);
    Ok(is_read? && is_right)
}

/// Whether a number goes into a set, in a commit of its own, and a refusal leaves the set as it was.
fn is_added(alloc: Global, set: &mut NumberSet, number: u32) -> Result<bool, Refusal> {
    let used = set.nodes_in_use();
    let commit = u64::from(number).saturating_add(1);
    let added = match set.insert(number, commit) {
        Ok(added) => added,
        Err(_) => is_filled(alloc, set, number, used)? && set.insert(number, commit)?,
    };
    Ok(added && set.contains(number))
}

/// The same, of a number that goes out of a set, which has all numbers up to it.
fn is_removed(alloc: Global, set: &mut NumberSet, number: u32) -> Result<bool, Refusal> {
    let used = set.nodes_in_use();
    let count = number.saturating_add(1);
    let commit = 1_000u64.saturating_sub(u64::from(number));
    let removed = match set.remove(number, commit) {
        Ok(removed) => removed,
        Err(_) => is_filled(alloc, set, count, used)? && set.remove(number, commit)?,
    };
    Ok(removed && !set.contains(number))
}

/// The first number that does not go into a set, in which the others are looked for too, or how many there
/// are where it has not as many then.
fn first_not_added(alloc: Global, set: &mut NumberSet) -> Result<Option<u32>, Refusal> {
    for number in 0..NUMBERS {
        if !is_added(alloc, set, number)? {
            return Ok(Some(number));
        }
    }
    let is_full = set.count() == NUMBERS as usize;
    Ok(if is_full { None } else { Some(NUMBERS) })
}

/// The first number that does not go out of the set, or how many there are where it is not empty then.
fn first_not_removed(alloc: Global, set: &mut NumberSet) -> Result<Option<u32>, Refusal> {
    for place in 0..NUMBERS {
        let number = NUMBERS.saturating_sub(1).saturating_sub(place);
        if !is_removed(alloc, set, number)? {
            return Ok(Some(number));
        }
    }
    Ok(if set.count() == 0 {
        None
    } else {
        Some(NUMBERS)
    })
}

/// The first number that does not go into the set, or out of it once all are there.
fn first_wrong(alloc: Global, set: &mut NumberSet) -> Result<Option<u32>, Refusal> {
    match first_not_added(alloc, set)? {
        None => first_not_removed(alloc, set),
        number => Ok(number),
    }
}

#[test]
fn a_refused_number_is_not_there_and_a_refused_removal_leaves_it(
    rt: HostRuntime,
) -> Result<(), Fail> {
    let mut set = NumberSet::new(rt.alloc());
    let first = first_wrong(rt.alloc(), &mut set);
    drop(set);
    none_wrong(first)
}

/// Puts the numbers below 40 into a set, and all into a run.
fn begin(set: &mut NumberSet, run: &mut Vec<Key>) -> Result<(), Refusal> {
    for number in 0..NUMBERS {
        if number < 40 {
            set.insert(number, 1)?;
        }
        run.push(key(number))?;
    }
    Ok(())
}

/// Whether a run of numbers goes into a set that has those below 40, and a refusal leaves it so.
fn is_run_added(alloc: Global, set: &mut NumberSet, run: &[Key]) -> Result<bool, Refusal> {
    let used = set.nodes_in_use();
    let added = match set.add_run(run, 2) {
        Ok(added) => added,
        Err(_) if is_filled(alloc, set, 40, used)? => set.add_run(run, 2)?,
        Err(refusal) => return Err(refusal),
    };
    let used = set.nodes_in_use();
    Ok(added == Some(80) && is_filled(alloc, set, NUMBERS, used)?)
}

/// The same from the beginning.
fn is_run_there(alloc: Global, set: &mut NumberSet, run: &mut Vec<Key>) -> Result<bool, Refusal> {
    begin(set, run)?;
    is_run_added(alloc, set, run)
}

#[test]
fn a_refused_run_is_not_there(rt: HostRuntime) -> Result<(), Fail> {
    let mut set = NumberSet::new(rt.alloc());
    let mut run: Vec<Key> = Vec::new(rt.alloc());
    let is_there = is_run_there(rt.alloc(), &mut set, &mut run);
    drop(run);
    drop(set);
    assert!(rt; is_there?);
    Ok(())
}
