//! Sets that are filled in one order, and emptied again.
use crate::number_sets::NumberSet;
use crate::outcome::none_wrong;
use gs_model::Refusal;
use gs_pool::Key;
use std::alloc::Global;
use std::test::Fail;

/// An order in which all numbers below a count are taken.
#[derive(Clone, Copy)]
enum Way {
    Rising,
    Falling,
    Zigzag,
}

/// The number at a place of the order. A zigzag takes the least and the greatest in turn.
fn number_at(way: Way, place: u32, count: u32) -> u32 {
    let mirrored = count.saturating_sub(1).saturating_sub(place);
    match way {
        Way::Rising => place,
        Way::Falling => mirrored,
        Way::Zigzag => {
            if place % 2 == 0 {
                place / 2
            } else {
                count.saturating_sub(1).saturating_sub(place / 2)
            }
        }
    }
}

/// Whether a number goes into the set, and only once.
fn goes_in(set: &mut NumberSet, number: u32) -> Result<bool, Refusal> {
    let is_new = !set.contains(number);
    Ok(is_new && set.insert(number, 0)? && !set.insert(number, 0)?)
}

/// Whether all numbers below a count go into the set.
fn is_filled(set: &mut NumberSet, way: Way, count: u32) -> Result<bool, Refusal> {
    for place in 0..count {
        if !goes_in(set, number_at(way, place, count))? {
            return Ok(false);
        }
    }
    Ok(set.count() == count as usize && set.nodes_in_use() == u64::from(count))
}

/// Whether the keys are all numbers below a count in order, and the set has each, and gives the next one
/// after it.
fn are_all(set: &NumberSet, keys: &[Key], count: u32) -> bool {
    let mut wanted = 0u32;
    for found in keys {
        let next = wanted.saturating_add(1);
        let after = if next < count { Some(next) } else { None };
        if found.object != wanted || !set.contains(wanted) || set.after(wanted) != after {
            return false;
        }
        wanted = next;
    }
    keys.len() == count as usize && !set.contains(count)
}

/// Whether the set gives all numbers below a count in order, by one walk and one after another.
fn gives_all(alloc: Global, set: &NumberSet, count: u32) -> Result<bool, Refusal> {
    let mut keys: Vec<Key> = Vec::new(alloc);
    let walked = set.next_keys(None, count as usize, &mut keys);
    let is_right = are_all(set, &keys, count);
    drop(keys);
    walked?;
    Ok(is_right)
}

/// Whether a number goes out of the set, and only once.
fn goes_out(set: &mut NumberSet, number: u32) -> Result<bool, Refusal> {
    Ok(set.remove(number, 0)? && !set.remove(number, 0)?)
}

/// Whether all numbers below a count go out of the set.
fn is_emptied(set: &mut NumberSet, way: Way, count: u32) -> Result<bool, Refusal> {
    for place in 0..count {
        if !goes_out(set, number_at(way, place, count))? {
            return Ok(false);
        }
    }
    Ok(set.count() == 0 && set.nodes_in_use() == 0)
}

/// Whether a set is filled in one order and emptied in another.
fn turns(
    alloc: Global,
    set: &mut NumberSet,
    fills: Way,
    empties: Way,
    count: u32,
) -> Result<bool, Refusal> {
    Ok(
        is_filled(set, fills, count)?
            && gives_all(alloc, set, count)?
            && is_emptied(set, empties, count)?,
    )
}

/// The order of a name.
fn way_of(name: &str) -> Option<Way> {
    match name {
        "rising" => Some(Way::Rising),
        "falling" => Some(Way::Falling),
        "zigzag" => Some(Way::Zigzag),
        _ => None,
    }
}

/// Whether a row is so: the order in which a new set is filled, that in which it is emptied, and how many
/// numbers it has.
fn is_so(alloc: Global, row: &str) -> Result<bool, Refusal> {
    let mut words = row.split(' ');
    let Some(fills) = way_of(words.next().unwrap_or_default()) else {
        return Ok(false);
    };
    let Some(empties) = way_of(words.next().unwrap_or_default()) else {
        return Ok(false);
    };
    let Ok(count) = words.next().unwrap_or_default().parse::<u32>() else {
        return Ok(false);
    };
    let mut set = NumberSet::new(alloc);
    let answer = turns(alloc, &mut set, fills, empties, count);
    drop(set);
    answer
}

/// The first row that is not so.
fn wrong_row(alloc: Global, rows: &'static str) -> Result<Option<&'static str>, Refusal> {
    for row in rows.split(',') {
        if !is_so(alloc, row)? {
            return Ok(Some(row));
        }
    }
    Ok(None)
}

#[test]
fn sets_of_no_number_and_of_one_and_two(rt: HostRuntime) -> Result<(), Fail> {
    let rows = "rising rising 0,rising rising 1,rising rising 2,falling rising 2";
    none_wrong(wrong_row(rt.alloc(), rows))
}

#[test]
fn numbers_that_rise(rt: HostRuntime) -> Result<(), Fail> {
    none_wrong(wrong_row(rt.alloc(), "rising zigzag 65536"))
}

#[test]
fn numbers_that_fall(rt: HostRuntime) -> Result<(), Fail> {
    none_wrong(wrong_row(rt.alloc(), "falling rising 65536"))
}

#[test]
fn numbers_from_both_ends(rt: HostRuntime) -> Result<(), Fail> {
    none_wrong(wrong_row(rt.alloc(), "zigzag falling 65536"))
}
