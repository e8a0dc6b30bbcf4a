//! What is read from a set. Nothing here asks what a node is marked as, so a set that was replaced
//! or retired can be read as long as its nodes are in use.
ghost use Rattle.std.specs.Prelude.{◌≡◌, ◌+◌, ◌<◌, ◌≤◌, ◌^◌, [], ◌∷◌, Some, Option, length, max, vec_len, vec_capacity, IsOk, OnOk, OnErr};
ghost use Rattle.std.specs.Bool.{Decides};
ghost use Rattle.gs_tree.specs.Keys.{HasKey};
ghost use Rattle.gs_tree.specs.Tree.{height_at};
ghost use Rattle.gs_tree.specs.Reading.{IsTreeAt, IsReadableAt, keys_at, HasTreeAt, is_past as is_past_in, keys_from, first_key, filled_up, FillsUp, AppendsKeys, IsEnough, key_count, keys_seen, HasSeen, height_seen};

use crate::orders::KeyOrder;
use gs_pool::{Key, Pool};
use std::alloc::AllocError;
use std::cmp::Ordering;

/// Whether a set has a key.
pub fn contains<O: KeyOrder>(pool: &Pool, order: &O, root: Option<u32>, key: Key) -> bool
    requires { IsReadableAt (O.compare order.now) pool.now root }
    ensures { Decides result (HasKey (O.compare order.now) key (keys_at pool.now root)) }
{
    let Some(id) = root else {
        return false;
    };
    let node = pool.get(id);
    match order.compare(key, node.key) {
        Ordering::Less => contains(pool, order, node.left, key),
        Ordering::Equal => true,
        Ordering::Greater => contains(pool, order, node.right, key),
    }
}

// Whether a key is above the one given, where one is.
fn is_past<O: KeyOrder>(order: &O, from: Option<Key>, key: Key) -> bool
    ensures { result ≡ is_past_in (O.compare order.now) from key }
{
    match from {
        None => true,
        Some(x) => matches!(order.compare(x, key), Ordering::Less),
    }
}

/// The least key of a set that is above this one, whether the set has this one or not.
pub fn after<O: KeyOrder>(pool: &Pool, order: &O, root: Option<u32>, key: Key) -> Option<Key>
    requires { IsReadableAt (O.compare order.now) pool.now root }
    ensures { result ≡ first_key (keys_from (O.compare order.now) (Some key) (keys_at pool.now root)) }
{
    let Some(id) = root else {
        return None;
    };
    let node = pool.get(id);
    if !is_past(order, Some(key), node.key) {
        return after(pool, order, node.right, key);
    }
    let Some(found) = after(pool, order, node.left, key) else {
        return Some(node.key);
    };
    Some(found)
}

// One side of a node, as far as its own node shows it.
#[derive(Clone, Copy)]
enum Side {
    Empty,
    // One key alone.
    One(Key),
    // The number of a node that has sides of its own.
    Tree(u32),
}

// Looks at one side of a node.
#[inline(always)]
fn look_at(pool: &Pool, side: Option<u32>) -> Side
    requires { HasTreeAt pool.now side }
    ensures keys { keys_seen pool.now result ≡ keys_at pool.now side }
    ensures tree { HasSeen pool.now result }
    ensures height { height_seen pool.now result ≤ height_at pool.now side }
{
    let Some(id) = side else {
        return Side::Empty;
    };
    let node = pool.get(id);
    if node.left.is_none() && node.right.is_none() {
        Side::One(node.key)
    } else {
        Side::Tree(id)
    }
}

// Appends the keys of a node and of all below it, in order, until there are `end` of them. Takes no
// memory. Both sides are looked at before either is walked, so that memory brings them together.
#[cycle(walk_all)]
fn walk_all(pool: &Pool, id: u32, end: usize, to: &mut Vec<Key>)
    requires tree { HasTreeAt pool.now (Some id) }
    requires room { end ≤ vec_capacity to.old }
    ensures keys { to.new.items ≡ filled_up end to.old.items (keys_at pool.now (Some id)) }
    ensures capacity { vec_capacity to.new ≡ vec_capacity to.old }
{
    if to.len() >= end {
        return;
    }
    let node = pool.get(id);
    let right = look_at(pool, node.right);
    let left = look_at(pool, node.left);
    walk_side(pool, left, end, to);
    push_below(end, node.key, to);
    walk_side(pool, right, end, to);
}

// Appends the keys of one side of a node. Most sides are empty or have one key, which costs no call.
#[cycle(walk_all)]
#[inline(always)]
fn walk_side(pool: &Pool, side: Side, end: usize, to: &mut Vec<Key>)
    requires tree { HasSeen pool.now side }
    requires room { end ≤ vec_capacity to.old }
    ensures keys { to.new.items ≡ filled_up end to.old.items (keys_seen pool.now side) }
    ensures capacity { vec_capacity to.new ≡ vec_capacity to.old }
{
    match side {
        Side::Empty => {}
        Side::One(key) => push_below(end, key, to),
        Side::Tree(id) => walk_all(pool, id, end, to),
    }
}

// Appends the keys of a tree.
fn walk_tree(pool: &Pool, root: Option<u32>, end: usize, to: &mut Vec<Key>)
    requires tree { HasTreeAt pool.now root }
    requires room { end ≤ vec_capacity to.old }
    ensures keys { to.new.items ≡ filled_up end to.old.items (keys_at pool.now root) }
    ensures capacity { vec_capacity to.new ≡ vec_capacity to.old }
{
    match root {
        None => {}
        Some(id) => walk_all(pool, id, end, to),
    }
}

// Appends the keys above the one given, in order, until there are `end` of them. Takes no memory.
fn walk<O: KeyOrder>(
    pool: &Pool,
    order: &O,
    root: Option<u32>,
    from: Option<Key>,
    end: usize,
    to: &mut Vec<Key>,
)
    requires set { IsReadableAt (O.compare order.now) pool.now root }
    requires room { end ≤ vec_capacity to.old }
    ensures keys { FillsUp (O.compare order.now) pool.now root from end to.old.items to.new.items }
    ensures capacity { vec_capacity to.new ≡ vec_capacity to.old }
{
    let Some(id) = root else {
        return;
    };
    if to.len() >= end {
        return;
    }
    let node = pool.get(id);
    if !is_past(order, from, node.key) {
        walk(pool, order, node.right, from, end, to);
        return;
    }
    walk(pool, order, node.left, from, end, to);
    push_below(end, node.key, to);
    walk_tree(pool, node.right, end, to);
}

// Appends a key where there are fewer than `end`.
fn push_below(end: usize, key: Key, to: &mut Vec<Key>)
    requires { end ≤ vec_capacity to.old }
    ensures keys { to.new.items ≡ filled_up end to.old.items (key ∷ []) }
    ensures capacity { vec_capacity to.new ≡ vec_capacity to.old }
{
    if to.len() < end {
        to.push_reserved(key);
    }
}

// How many keys are above the one given, where they are no more than `most`, and else `most`.
fn count_from<O: KeyOrder>(
    pool: &Pool,
    order: &O,
    root: Option<u32>,
    from: Option<Key>,
    most: usize,
) -> usize
    requires { IsReadableAt (O.compare order.now) pool.now root }
    ensures { result ≡ key_count (O.compare order.now) pool.now root from most }
{
    let Some(id) = root else {
        return 0;
    };
    if most == 0 {
        return 0;
    }
    let node = pool.get(id);
    if !is_past(order, from, node.key) {
        return count_from(pool, order, node.right, from, most);
    }
    let low = count_from(pool, order, node.left, from, most);
    if low == most {
        return most;
    }
    low + 1 + count_from(pool, order, node.right, None, most - low - 1)
}

// How many keys to make room for: those that will come are only counted where `spare` may be too few.
fn keys_wanted<O: KeyOrder>(
    pool: &Pool,
    order: &O,
    root: Option<u32>,
    from: Option<Key>,
    most: usize,
    spare: usize,
) -> usize
    requires { IsReadableAt (O.compare order.now) pool.now root }
    ensures all { IsEnough (keys_from (O.compare order.now) from (keys_at pool.now root)) most result }
    ensures fits { result ≤ max spare (key_count (O.compare order.now) pool.now root from most) }
{
    if most <= spare {
        return most;
    }
    count_from(pool, order, root, from, most)
}

/// Appends the keys of a set that are above `from`, or all where it is `None`: in order, by one
/// walk, and `most` of them at most. Memory is wanted for the room of those that are there, before
/// the first; where `most` keys may not fit, they are counted first.
pub fn next_keys<O: KeyOrder>(
    pool: &Pool,
    order: &O,
    root: Option<u32>,
    from: Option<Key>,
    most: usize,
    to: &mut Vec<Key>,
) -> Result<(), AllocError>
    requires { IsReadableAt (O.compare order.now) pool.now root }
    ensures ok { OnOk result
        (AppendsKeys (O.compare order.now) pool.now root from most to.old.items to.new.items) }
    ensures kept { OnErr result (to.new.items ≡ to.old.items) }
    ensures had_room { vec_len to.old + key_count (O.compare order.now) pool.now root from most
        ≤ vec_capacity to.old → IsOk result }
{
    let spare = to.capacity() - to.len();
    let more = keys_wanted(pool, order, root, from, most, spare);
    to.reserve(more)?;
    let end = to.len() + more;
    walk(pool, order, root, from, end, to);
    Ok(())
}

// How many keys a tree has, in a pool that bounds their number.
fn count_below(pool: &Pool, root: Option<u32>) -> usize
    requires tree { IsTreeAt pool.now root }
    requires few { length pool.now.nodes < 2 ^ 32 }
    ensures { result ≡ length (keys_at pool.now root) }
{
    let Some(id) = root else {
        return 0;
    };
    let node = pool.get(id);
    count_below(pool, node.left) + count_below(pool, node.right) + 1
}

/// How many keys a tree has, by a walk over all of them.
pub fn count(pool: &Pool, root: Option<u32>) -> usize
    requires { IsTreeAt pool.now root }
    ensures { result ≡ length (keys_at pool.now root) }
{
    // A set has no more keys than nodes are in use, which are fewer than 2^32.
    let _most = pool.nodes_in_use();
    count_below(pool, root)
}
