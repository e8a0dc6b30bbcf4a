//! Sets beside a table that says of each number whether it is there.
use crate::draws::Draws;
use crate::number_sets::NumberSet;
use crate::outcome::none_wrong;
use gs_model::Refusal;
use gs_pool::Key;
use std::test::Fail;

/// All numbers are below this one.
const NUMBERS: u32 = 200;

/// Whether the table has a number.
fn has(table: &[bool], number: u32) -> bool {
    match table.get(number as usize) {
        Some(there) => *there,
        None => false,
    }
}

/// The least number of the table above this one.
fn after_in(table: &[bool], number: u32) -> Option<u32> {
    for next in number.saturating_add(1)..NUMBERS {
        if has(table, next) {
            return Some(next);
        }
    }
    None
}

/// One number goes into the set and the table, or out of both. Whether the set says what the table does.
fn change(
    set: &mut NumberSet,
    table: &mut [bool],
    number: u32,
    adds: bool,
    commit: u64,
) -> Result<bool, Refusal> {
    let there = has(table, number);
    if (number as usize) < table.len() {
        table[number as usize] = adds;
    }
    if adds {
        Ok(set.insert(number, commit)? != there)
    } else {
        Ok(set.remove(number, commit)? == there)
    }
}

/// Whether the keys are what the table has from a number on: seven of them, or all.
fn are_next(table: &[bool], from: u32, keys: &[Key]) -> bool {
    let mut at = Some(from);
    for found in keys {
        at = match at {
            Some(number) => after_in(table, number),
            None => None,
        };
        if at != Some(found.object) {
            return false;
        }
    }
    keys.len() >= 7
        || match at {
            Some(number) => after_in(table, number) == None,
            None => false,
        }
}

/// Whether the set gives from a number on what the table has.
fn walks(set: &NumberSet, table: &[bool], from: u32, keys: &mut Vec<Key>) -> Result<bool, Refusal> {
    keys.clear();
    set.next_keys(Some(from), 7, keys)?;
    Ok(are_next(table, from, keys))
}

/// One step that is drawn. Whether it is right.
fn is_right(
    set: &mut NumberSet,
    table: &mut [bool],
    keys: &mut Vec<Key>,
    draws: &mut Draws,
    commit: u64,
) -> Result<bool, Refusal> {
    let number = (draws.next() % 200) as u32;
    let adds = draws.next() % 2 == 0;
    let is_changed = change(set, table, number, adds, commit)?;
    let asked = (draws.next() % 200) as u32;
    Ok(
        is_changed
            && set.contains(asked) == has(table, asked)
            && set.after(asked) == after_in(table, asked)
            && walks(set, table, asked, keys)?,
    )
}

/// The first step that is not right, or the number of all where the set ends with too few numbers or too
/// many.
fn wrong_step(set: &mut NumberSet, keys: &mut Vec<Key>) -> Result<Option<u64>, Refusal> {
    let mut table = [false; 200];
    let mut draws = Draws::new(5);
    for step in 0..10_000u64 {
        if !is_right(set, &mut table, keys, &mut draws, step / 10)? {
            return Ok(Some(step));
        }
    }
    Ok(if set.count() > 50 && set.count() < 150 {
        None
    } else {
        Some(10_000)
    })
}

#[test]
fn numbers_are_those_of_a_table(rt: HostRuntime) -> Result<(), Fail> {
    let mut set = NumberSet::new(rt.alloc());
    let mut keys: Vec<Key> = Vec::new(rt.alloc());
    let wrong = wrong_step(&mut set, &mut keys);
    drop(keys);
    drop(set);
    none_wrong(wrong)
}
