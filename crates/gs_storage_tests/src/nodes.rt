//! Pools beside a plain list of what each number has.
use crate::draws::Draws;
use crate::outcome::none_wrong;
use gs_model::Refusal;
use gs_pool::{Key, Node, Pool, Retired};
use std::test::Fail;

/// What a number has, in the list.
#[derive(Clone, Copy)]
enum Slot {
    Free,
    Plain(u32),
    /// It is set aside, or else retired.
    Off(u32, u64, bool, bool),
}

fn node(object: u32) -> Node {
    Node {
        key: Key {
            subject: 1,
            predicate: 2,
            object,
        },
        left: None,
        right: Some(object),
        height: 1,
        birth: 3,
    }
}

/// How many numbers the list has in use.
fn used_in(list: &[Slot]) -> u64 {
    let mut used = 0u64;
    for slot in list {
        if !matches!(slot, Slot::Free) {
            used = used.saturating_add(1);
        }
    }
    used
}

/// Puts what a number has into the list, and says whether it may stand there: a number after the last
/// may come only where none is free.
fn put(list: &mut Vec<Slot>, id: u32, slot: Slot) -> Result<bool, Refusal> {
    let place = id as usize;
    if place < list.len() {
        list[place] = slot;
        return Ok(true);
    }
    let is_next = place == list.len() && used_in(list) == list.len() as u64;
    list.push(slot)?;
    Ok(is_next)
}

/// What a plain number of the list has.
fn plain_in(list: &[Slot], id: u32) -> Option<u32> {
    match list.get(id as usize) {
        Some(Slot::Plain(object)) => Some(*object),
        _ => None,
    }
}

/// Whether the list has a number set aside, or else retired, with this object and as this entry says.
fn is_off(list: &[Slot], entry: Retired, object: u32, is_aside: bool) -> bool {
    match list.get(entry.id as usize) {
        Some(Slot::Off(has, death, whole, aside)) => {
            *has == object && *death == entry.death && *whole == entry.whole && *aside == is_aside
        }
        _ => false,
    }
}

/// Whether the list has no number set aside, or else none retired.
fn none_off(list: &[Slot], is_aside: bool) -> bool {
    for slot in list {
        if let Slot::Off(_, _, _, aside) = slot
            && *aside == is_aside
        {
            return false;
        }
    }
    true
}

/// One step of the pool and of the list, at a number that is plain. Whether it is right.
fn change(
    pool: &mut Pool,
    list: &mut Vec<Slot>,
    id: u32,
    object: u32,
    kind: u64,
) -> Result<bool, Refusal> {
    let whole = object % 2 == 0;
    let death = u64::from(object % 100);
    if !pool.is_plain(id) {
        return Ok(true);
    }
    let had = pool.get(id).key.object;
    let entry = Retired { id, death, whole };
    let slot = match kind {
        0 => {
            pool.free(id);
            Slot::Free
        }
        1 => {
            pool.set_aside(entry);
            Slot::Off(had, death, whole, true)
        }
        2 => {
            pool.retire(entry);
            Slot::Off(had, death, whole, false)
        }
        _ => {
            pool.set(id, node(object));
            Slot::Plain(object)
        }
    };
    put(list, id, slot)
}

/// A node that came off one of the pool's lists is plain again. Whether the list had it so.
fn take(
    list: &mut Vec<Slot>,
    entry: Retired,
    object: u32,
    is_aside: bool,
) -> Result<bool, Refusal> {
    let is_there = is_off(list, entry, object, is_aside);
    Ok(put(list, entry.id, Slot::Plain(object))? && is_there)
}

/// A node that is set aside comes off its list. Whether the list has it so, or none.
fn take_aside(pool: &mut Pool, list: &mut Vec<Slot>) -> Result<bool, Refusal> {
    match pool.next_aside() {
        Some(entry) => take(list, entry, pool.get(entry.id).key.object, true),
        None => Ok(none_off(list, true)),
    }
}

/// The same, of a node that is retired.
fn take_retired(pool: &mut Pool, list: &mut Vec<Slot>) -> Result<bool, Refusal> {
    match pool.next_retired() {
        Some(entry) => take(list, entry, pool.get(entry.id).key.object, false),
        None => Ok(none_off(list, false)),
    }
}

/// Both.
fn take_both(pool: &mut Pool, list: &mut Vec<Slot>) -> Result<bool, Refusal> {
    Ok(take_aside(pool, list)? && take_retired(pool, list)?)
}

/// A node goes into the pool and the list. Whether it is right: it is refused only where all numbers
/// are in use, and then counted.
fn add(
    pool: &mut Pool,
    list: &mut Vec<Slot>,
    object: u32,
    refused: &mut u32,
) -> Result<bool, Refusal> {
    match pool.alloc(node(object)) {
        Ok(made) => put(list, made, Slot::Plain(object)),
        Err(_) => {
            *refused = refused.saturating_add(1);
            Ok(used_in(list) == 64)
        }
    }
}

/// Whether the pool has so many nodes, and at a number what the list has.
fn is_alike(pool: &Pool, list: &[Slot], id: u32) -> bool {
    let plain = plain_in(list, id);
    if pool.nodes_in_use() != used_in(list) || pool.is_plain(id) != plain.is_some() {
        return false;
    }
    !pool.is_plain(id) || plain == Some(pool.get(id).key.object)
}

/// One step that is drawn. Whether it is right.
fn is_right(
    pool: &mut Pool,
    list: &mut Vec<Slot>,
    draws: &mut Draws,
    refused: &mut u32,
) -> Result<bool, Refusal> {
    let object = (draws.next() % 1_000_000) as u32;
    let id = (draws.next() % 64) as u32;
    let done = match draws.next() % 8 {
        0..=2 => add(pool, list, object, refused),
        3..=6 => change(pool, list, id, object, draws.next() % 4),
        _ => take_both(pool, list),
    };
    Ok(done? && is_alike(pool, list, id))
}

/// The first step that is not right, or the number of all steps where too few nodes were refused or the
/// list is not full at the end.
fn wrong_step(pool: &mut Pool, list: &mut Vec<Slot>) -> Result<Option<u32>, Refusal> {
    let mut draws = Draws::new(3);
    let mut refused = 0u32;
    for step in 0..10_000 {
        if !is_right(pool, list, &mut draws, &mut refused)? {
            return Ok(Some(step));
        }
    }
    Ok(if refused > 10 && list.len() == 64 {
        None
    } else {
        Some(10_000)
    })
}

#[test]
fn nodes_are_those_of_a_list(rt: HostRuntime) -> Result<(), Fail> {
    let mut pool = Pool::new(rt.alloc(), 63);
    let mut list: Vec<Slot> = Vec::new(rt.alloc());
    let wrong = wrong_step(&mut pool, &mut list);
    drop(list);
    drop(pool);
    none_wrong(wrong)
}

/// Whether a pool of three numbers gives a number again that was freed.
fn gives_again(pool: &mut Pool) -> Result<bool, Refusal> {
    for wanted in 0..3 {
        if pool.alloc(node(wanted))? != wanted {
            return Ok(false);
        }
    }
    let is_full = pool.alloc(node(3)).is_err();
    if pool.is_plain(1) {
        pool.free(1);
    }
    let is_freed = pool.nodes_in_use() == 2;
    let is_again = pool.alloc(node(4))? == 1;
    Ok(is_full && is_freed && is_again && pool.nodes_in_use() == 3)
}

#[test]
fn a_freed_number_is_given_again(rt: HostRuntime) -> Result<(), Fail> {
    let mut pool = Pool::new(rt.alloc(), 2);
    let is_given = gives_again(&mut pool);
    drop(pool);
    assert!(&rt; is_given?);
    Ok(())
}
