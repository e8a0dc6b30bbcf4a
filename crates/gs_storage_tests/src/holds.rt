//! Retired nodes that pins need, on lists of their own.
use crate::outcome::none_wrong;
use gs_model::Refusal;
use gs_pool::{Key, Node, Pool, Retired};
use std::alloc::Global;
use std::test::Fail;

/// A row has a name, how many lists the pool has, and eight steps: what is done, and what is to be seen of
/// it.
///
/// - `pin 1 5`: seat 1 has version 5 pinned now, and by `unpin 1` none.
/// - `held 1 3 9`: a node of birth 3 dies at 9. The pin of list 1 needs it, so it is held there.
/// - `loose 1 3 9`: the same where the pin does not need it; it is on the list of those that are looked at.
/// - `over 0 1`: all that list 0 has goes over to list 1, where both are kept for the same version.
/// - `swap 0 1`: two lists change places.
/// - `gives 0 1`: exactly these numbers, up to three, come off the list of nodes that are looked at.
/// - `kept`: a node is retired still, and by `none` none is.
const ROWS: &str = "
a held node is not given until its pin has ended | 2 | pin 1 5, held 1 3 9, gives, kept, unpin 1, gives 0, none, gives
a pin needs what was born by its version and died after it | 1 | pin 0 5, held 0 5 6, loose 0 6 9, loose 0 1 5, loose 0 5 0, gives 1 2 3, pin 0 6, gives 0
a seat that has the same version pinned keeps its list | 1 | pin 0 5, held 0 3 9, pin 0 5, gives, held 0 4 9, pin 0 5, pin 0 8, gives 0 1
a list that was handed over is kept by the other pin | 2 | pin 0 5, held 0 3 9, held 0 4 9, pin 1 5, over 0 1, unpin 0, gives, kept
a list that got another's nodes lets go all of them | 2 | pin 0 5, held 0 3 9, pin 1 5, held 1 4 9, over 0 1, gives, unpin 1, gives 0 1
a list with no node has none to give | 2 | pin 0 5, pin 1 5, held 1 4 9, over 0 1, unpin 0, gives, unpin 1, gives 0
two lists that change places take their pins along | 2 | pin 0 5, held 0 3 9, pin 1 7, held 1 7 9, swap 0 1, pin 1 5, unpin 0, gives 1
a pool with no list holds none | 0 | loose 0 3 9, loose 7 3 9, kept, gives 0 1, none, gives, pin 0 5, loose 0 3 9
";

fn node(birth: u64) -> Node {
    Node {
        key: Key {
            subject: 1,
            predicate: 2,
            object: 3,
        },
        left: None,
        right: None,
        height: 1,
        birth,
    }
}

/// A node dies: whether the pin of a list needs it.
fn dies(pool: &mut Pool, list: usize, birth: u64, death: u64) -> Result<bool, Refusal> {
    let id = pool.alloc(node(birth))?;
    let entry = Retired::alone(id, death);
    if !pool.is_plain(id) {
        return Ok(false);
    }
    let needed = pool.is_needed_by(list, id, death);
    if needed {
        pool.hold(entry, list);
    } else {
        pool.retire(entry);
    }
    Ok(needed)
}

/// The numbers that come off the list of nodes that are looked at; each stays in use.
fn given(pool: &mut Pool) -> u64 {
    let mut bits = 0u64;
    for _ in 0..64 {
        let Some(entry) = pool.next_retired() else {
            return bits;
        };
        bits |= 1u64.checked_shl(entry.id).unwrap_or(0);
    }
    bits
}

/// Whether all that a list had went to another one.
fn hand_over(pool: &mut Pool, list: usize, other: usize) -> bool {
    if list < pool.lists()
        && other < pool.lists()
        && list != other
        && pool.pin_at(list) == pool.pin_at(other)
    {
        pool.hand_over(list, other);
        return true;
    }
    false
}

/// Whether two lists changed places.
fn exchange(pool: &mut Pool, list: usize, other: usize) -> bool {
    if list < pool.lists() && other < pool.lists() && list != other {
        pool.exchange(list, other);
        return true;
    }
    false
}

/// Whether a seat has its pin now, which it has not where there is no list for it.
fn is_pinned(pool: &mut Pool, list: usize, pin: Option<u64>) -> bool {
    if list >= pool.lists() {
        return pool.pin_at(list) == None;
    }
    pool.follow(list, pin);
    pool.pin_at(list) == pin
}

/// The numbers of a step, up to three: nothing where a word after the first is none.
fn numbers(step: &str) -> Option<[Option<u64>; 3]> {
    let mut found = [None; 3];
    let mut place = 0usize;
    let mut words = step.split(' ');
    let _name = words.next();
    for word in words {
        if place >= 3 {
            return None;
        }
        found[place] = Some(word.parse::<u64>().ok()?);
        place += 1;
    }
    Some(found)
}

/// The bit of a number, or none.
fn bit(number: Option<u64>) -> u64 {
    match number {
        Some(number) if number < 64 => 1 << number,
        _ => 0,
    }
}

/// Whether a step does what is to be seen of it.
fn is_right(pool: &mut Pool, step: &str) -> Result<bool, Refusal> {
    let Some(found) = numbers(step) else {
        return Ok(false);
    };
    let [first, second, third] = found;
    let list = first.unwrap_or_default() as usize;
    let other = second.unwrap_or_default();
    let death = third.unwrap_or_default();
    Ok(match step.split(' ').next().unwrap_or_default() {
        "pin" | "unpin" => is_pinned(pool, list, second),
        "held" => dies(pool, list, other, death)?,
        "loose" => !dies(pool, list, other, death)?,
        "over" => hand_over(pool, list, other as usize),
        "swap" => exchange(pool, list, other as usize),
        "gives" => given(pool) == bit(first) | bit(second) | bit(third),
        "kept" => pool.has_retired(),
        "none" => !pool.has_retired(),
        _ => false,
    })
}

/// Whether each step at a pool does what is to be seen of it, and there are eight.
fn are_right(pool: &mut Pool, steps: &str) -> Result<bool, Refusal> {
    let mut right = 0usize;
    for step in steps.split(',') {
        if !is_right(pool, step.trim())? {
            return Ok(false);
        }
        right = right.saturating_add(1);
    }
    Ok(right == 8)
}

/// Whether each step of a row is right, at a new pool.
fn is_right_row(alloc: Global, row: &str) -> Result<bool, Refusal> {
    let (lists, steps) = row.split_once('|').unwrap_or_default();
    let lists = lists.trim().parse::<usize>().unwrap_or_default();
    let mut pool = Pool::with_lists(alloc, 99, lists)?;
    let answer = are_right(&mut pool, steps);
    drop(pool);
    answer
}

/// The first row with a step that is not right, or `rows` where they are not eight.
fn wrong_row(alloc: Global) -> Result<Option<&'static str>, Refusal> {
    let mut right = 0usize;
    for row in ROWS.lines() {
        if let Some((_, case)) = row.split_once('|') {
            if !is_right_row(alloc, case)? {
                return Ok(Some(row));
            }
            right = right.saturating_add(1);
        }
    }
    Ok(if right == 8 { None } else { Some("rows") })
}

#[test]
fn nodes_are_held_as_long_as_a_pin_needs_them(rt: HostRuntime) -> Result<(), Fail> {
    none_wrong(wrong_row(rt.alloc()))
}
