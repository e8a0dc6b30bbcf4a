//! A key out of a set.
ghost use Rattle.std.specs.Prelude.{◌≡◌, ℕ, ◌<◌, ◌≤◌, ◌∷◌, length, Some, IsSome, Option, IsOk, IfOk, OnErr};
ghost use Rattle.gs_pool.specs.Pool.{node_at, mark_at, plain};
ghost use Rattle.gs_tree.specs.Keys.{IsRising, HasKey, remove_key};
ghost use Rattle.gs_tree.specs.Steps.{SameTotal};
ghost use Rattle.gs_tree.specs.Shrinking.{CanShrinkAt, ShrinksAt, Discards};
ghost use Rattle.gs_tree.specs.Reading.{keys_at};
ghost use Rattle.gs_tree.specs.Sets.{IsSetAt, RemovesAt, HasRemoveRoom};

use crate::balance::{copy_if_older, height_of, settle};
use crate::orders::KeyOrder;
use crate::room::copy_bound;
use gs_pool::{Key, Pool};
use std::alloc::AllocError;
use std::cmp::Ordering;

// Takes a node out of use: an older one goes on the list of replaced ones.
fn discard(pool: &mut Pool, id: u32, since: u64)
    requires used { IsSome (node_at pool.old id) }
    requires unlisted { mark_at pool.old id ≡ plain }
    ensures { Discards since pool.old pool.new id }
{
    if pool.get(id).birth < since {
        pool.mark_replaced(id);
    } else {
        pool.free(id);
    }
}

/// A tree's least key, and the tree without it.
#[derive(Clone, Copy)]
struct Least {
    key: Key,
    rest: Option<u32>,
}

// Takes the least key out of a tree.
fn take_least(pool: &mut Pool, id: u32, since: u64, birth: u64) -> Least
    requires can { CanShrinkAt since pool.old (Some id) }
    requires birth { since ≤ birth }
    ensures shrinks { ShrinksAt since birth pool.old pool.new (Some id) result.rest }
    ensures keys { keys_at pool.old (Some id) ≡ result.key ∷ keys_at pool.new result.rest }
{
    let node = pool.get(id);
    let Some(below) = node.left else {
        discard(pool, id, since);
        return Least {
            key: node.key,
            rest: node.right,
        };
    };
    let least = take_least(pool, below, since, birth);
    let top = copy_if_older(pool, id, since, birth);
    let root = settle(pool, top, least.rest, node.key, node.right, since, birth);
    Least {
        key: least.key,
        rest: Some(root),
    }
}

// Takes a key out that the tree has.
fn remove_at<O: KeyOrder>(
    pool: &mut Pool,
    order: &O,
    root: Option<u32>,
    key: Key,
    since: u64,
    birth: u64,
) -> Option<u32>
    requires can { CanShrinkAt since pool.old root }
    requires rising { IsRising (O.compare order.now) (keys_at pool.old root) }
    requires has { HasKey (O.compare order.now) key (keys_at pool.old root) }
    requires birth { since ≤ birth }
    ensures shrinks { ShrinksAt since birth pool.old pool.new root result }
    ensures keys { keys_at pool.new result ≡ remove_key (O.compare order.now) key (keys_at pool.old root) }
{
    let Some(id) = root else { unreachable!() };
    let node = pool.get(id);
    match order.compare(key, node.key) {
        Ordering::Less => {
            let left = remove_at(pool, order, node.left, key, since, birth);
            let top = copy_if_older(pool, id, since, birth);
            Some(settle(pool, top, left, node.key, node.right, since, birth))
        }
        Ordering::Greater => {
            let right = remove_at(pool, order, node.right, key, since, birth);
            let top = copy_if_older(pool, id, since, birth);
            Some(settle(pool, top, node.left, node.key, right, since, birth))
        }
        Ordering::Equal => {
            let Some(above) = node.right else {
                discard(pool, id, since);
                return node.left;
            };
            let least = take_least(pool, above, since, birth);
            let top = copy_if_older(pool, id, since, birth);
            Some(settle(pool, top, node.left, least.key, least.rest, since, birth))
        }
    }
}

/// Takes a key out that the set has. Nodes older than `since` stay as they are. It makes at most
/// 6 d nodes, where the set's size has d binary digits.
pub fn remove<O: KeyOrder>(
    pool: &mut Pool,
    order: &O,
    root: Option<u32>,
    key: Key,
    since: u64,
    birth: u64,
) -> Result<Option<u32>, AllocError>
    requires set { IsSetAt (O.compare order.now) pool.old root }
    requires has { HasKey (O.compare order.now) key (keys_at pool.old root) }
    requires birth { since ≤ birth }
    ensures ok { IfOk result (RemovesAt (O.compare order.now) since birth pool.old pool.new root key) }
    ensures had_room { HasRemoveRoom since pool.old root → IsOk result }
    ensures total { SameTotal pool.old pool.new }
    ensures kept { OnErr result (pool.new ≡ pool.old) }
{
    let most = 3 * height_of(pool, root) as usize;
    let copies = copy_bound(pool, root, since, most);
    pool.reserve(copies)?;
    Ok(remove_at(pool, order, root, key, since, birth))
}
