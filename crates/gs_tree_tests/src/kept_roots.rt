//! Roots that are kept while their set is changed by later commits, beside the lists of what they had.
use crate::draws::Draws;
use crate::number_sets::{NumberSet, key};
use crate::outcome::none_wrong;
use gs_model::Refusal;
use gs_pool::{Key, Node};
use std::alloc::Global;
use std::test::Fail;

/// All numbers are below this one.
const NUMBERS: u32 = 600;

/// A walk takes no more steps than this, which is more than two for each number.
const STEPS: u32 = 10_000;

/// A root, and the numbers that the set had when the root was kept.
#[derive(Drop)]
struct Kept {
    root: Option<u32>,
    numbers: Vec<u32>,
}

/// Adds the numbers of a root's tree to a list, from left to right, as the nodes have them now. Whether
/// the walk ends, and has come to no node that is not there.
fn walk(
    set: &NumberSet,
    root: Option<u32>,
    above: &mut Vec<Node>,
    numbers: &mut Vec<u32>,
) -> Result<bool, Refusal> {
    let mut at = root;
    for _ in 0..STEPS {
        if let Some(id) = at {
            let Some(node) = set.node(id) else {
                return Ok(false);
            };
            at = node.left;
            above.push(node)?;
        } else if let Some(node) = above.pop() {
            numbers.push(node.key.object)?;
            at = node.right;
        } else {
            return Ok(true);
        }
    }
    // The walk goes round and round.
    Ok(false)
}

/// Whether a root's tree has exactly these numbers.
fn has_numbers(
    alloc: Global,
    set: &NumberSet,
    root: Option<u32>,
    wanted: &[u32],
) -> Result<bool, Refusal> {
    let mut above: Vec<Node> = Vec::new(alloc);
    let mut numbers: Vec<u32> = Vec::new(alloc);
    let ends = walk(set, root, &mut above, &mut numbers);
    let is_same = numbers.as_slice() == wanted;
    drop(numbers);
    drop(above);
    Ok(ends? && is_same)
}

/// Keeps the root of a set, with the sorted list beside it.
fn keep(set: &NumberSet, list: &[u32], kept: &mut Vec<Kept>, alloc: Global) -> Result<(), Refusal> {
    let numbers = Vec::from_slice(alloc, list)?;
    let root = set.root();
    kept.push(Kept { root, numbers })?;
    Ok(())
}

/// Whether each root that was kept has the numbers that it had then, and the last root those of the list.
fn are_kept(alloc: Global, set: &NumberSet, list: &[u32], kept: &[Kept]) -> Result<bool, Refusal> {
    for it in kept {
        if !has_numbers(alloc, set, it.root, it.numbers.as_slice())? {
            return Ok(false);
        }
    }
    has_numbers(alloc, set, set.root(), list)
}

/// Where a number stands in a sorted list, or would.
fn place_in(list: &[u32], number: u32) -> usize {
    for (place, other) in list.iter().enumerate() {
        if *other >= number {
            return place;
        }
    }
    list.len()
}

/// Puts a number into a sorted list, and says whether the list lacked it.
fn list_insert(list: &mut Vec<u32>, number: u32) -> Result<bool, Refusal> {
    let place = place_in(list, number);
    if list.get(place).copied() == Some(number) {
        return Ok(false);
    }
    if place <= list.len() {
        list.insert(place, number)?;
    }
    Ok(true)
}

/// Takes a number out of a sorted list, and says whether the list had it.
fn list_remove(list: &mut Vec<u32>, number: u32) -> bool {
    let place = place_in(list, number);
    if list.get(place).copied() != Some(number) {
        return false;
    }
    if place < list.len() {
        list.remove(place);
    }
    true
}

/// Puts up to twelve numbers, at equal distances from the first on, into a run and the list, and says how
/// many of them the list lacked.
fn fill(run: &mut Vec<Key>, list: &mut Vec<u32>, draws: &mut Draws) -> Result<usize, Refusal> {
    let mut lacked = 0usize;
    let mut number = (draws.next() % 600) as u32;
    let distance = (draws.next() % 40) as u32 + 1;
    for _ in 0..12 {
        if number < NUMBERS {
            run.push(key(number))?;
            if list_insert(list, number)? {
                lacked = lacked.saturating_add(1);
            }
            number = number.saturating_add(distance);
        }
    }
    Ok(lacked)
}

/// A run that is drawn goes into the set and the list. Whether the set lacked as many.
fn unite(
    alloc: Global,
    set: &mut NumberSet,
    list: &mut Vec<u32>,
    draws: &mut Draws,
    commit: u64,
) -> Result<bool, Refusal> {
    let mut run: Vec<Key> = Vec::new(alloc);
    let lacked = fill(&mut run, list, draws);
    let added = set.add_run(&run, commit);
    drop(run);
    Ok(added? == Some(lacked?))
}

/// One commit changes the set and the list alike: a number goes in, a number goes out, or a run goes in.
/// Whether the set answers as the list does.
fn change(
    alloc: Global,
    set: &mut NumberSet,
    list: &mut Vec<u32>,
    draws: &mut Draws,
    commit: u64,
) -> Result<bool, Refusal> {
    let number = (draws.next() % 600) as u32;
    match draws.next() % 4 {
        0 => {
            let lacked = list_insert(list, number)?;
            Ok(set.insert(number, commit)? == lacked)
        }
        1 => unite(alloc, set, list, draws, commit),
        _ => {
            let had = list_remove(list, number);
            Ok(set.remove(number, commit)? == had)
        }
    }
}

/// Whether 400 numbers go into the set as into the list.
fn begin(set: &mut NumberSet, list: &mut Vec<u32>, draws: &mut Draws) -> Result<bool, Refusal> {
    for _ in 0..400 {
        let number = (draws.next() % 600) as u32;
        let lacked = list_insert(list, number)?;
        if set.insert(number, 1)? != lacked {
            return Ok(false);
        }
    }
    Ok(true)
}

/// The first of 200 steps after which something is not right, or their number where the set did not
/// begin like the list, or too little was kept, or too much.
fn wrong_step(
    alloc: Global,
    set: &mut NumberSet,
    list: &mut Vec<u32>,
    kept: &mut Vec<Kept>,
) -> Result<Option<u64>, Refusal> {
    let mut draws = Draws::new(7);
    if !begin(set, list, &mut draws)? {
        return Ok(Some(200));
    }
    for step in 0..200u64 {
        if step % 10 == 0 {
            keep(set, list, kept, alloc)?;
        }
        let commit = step.saturating_add(2);
        if !change(alloc, set, list, &mut draws, commit)? || !are_kept(alloc, set, list, kept)? {
            return Ok(Some(step));
        }
    }
    let is_filled = list.len() > 200 && list.len() < 500 && set.nodes_in_use() > 1_000;
    Ok(if kept.len() == 20 && is_filled {
        None
    } else {
        Some(200)
    })
}

#[test]
fn a_kept_root_has_the_numbers_that_it_had(rt: HostRuntime) -> Result<(), Fail> {
    let mut set = NumberSet::new(rt.alloc());
    let mut list: Vec<u32> = Vec::new(rt.alloc());
    let mut kept: Vec<Kept> = Vec::new(rt.alloc());
    let wrong = wrong_step(rt.alloc(), &mut set, &mut list, &mut kept);
    drop(kept);
    drop(list);
    drop(set);
    none_wrong(wrong)
}
