//! Many keys out of a set.
ghost use Rattle.std.specs.Prelude.{◌≡◌, ◌+◌, ◌^◌, ◌<◌, IfOk, IfErr, OnErr};
ghost use Rattle.gs_tree.specs.Reading.{keys_at};
ghost use Rattle.gs_tree.specs.Sets.{IsSetAt};
ghost use Rattle.gs_changes.specs.Changes.{ChangesAt, RemovesSome};
ghost use Rattle.gs_changes.specs.Keys.{remove_keys};
ghost use Rattle.gs_changes.specs.Pieces.{RemovesKey};

use gs_pool::{Key, Pool};
use gs_tree::{KeyOrder, contains, remove};
use std::alloc::AllocError;

/// A set after keys went out of it, and how many of them it had.
#[derive(Clone, Copy)]
pub struct Pruned {
    pub root: Option<u32>,
    pub removed: usize,
}

/// Memory was refused in the middle of a change: what the tree is by now, for `take_back`.
#[derive(Clone, Copy)]
pub struct HalfDone {
    pub root: Option<u32>,
}

// A key out of the set, where the set has it.
fn remove_key<O: KeyOrder>(
    pool: &mut Pool,
    order: &O,
    pruned: Pruned,
    key: Key,
    birth: u64,
) -> Result<Pruned, AllocError>
    requires set { IsSetAt (O.compare order.now) pool.old pruned.root }
    requires counted { pruned.removed + 1 < 2 ^ 64 }
    ensures ok { IfOk result (RemovesKey (O.compare order.now) birth pool.old pool.new pruned key) }
    ensures kept { OnErr result (pool.new ≡ pool.old) }
{
    if !contains(pool, order, pruned.root, key) {
        return Ok(pruned);
    }
    let root = remove(pool, order, pruned.root, key, birth, birth)?;
    Ok(Pruned {
        root,
        removed: pruned.removed + 1,
    })
}

/// Takes keys out of a set, in any order; those that it lacks are passed over. Older nodes are copied,
/// and set aside. Where memory is refused, some of the keys may be out: the caller takes the change back.
pub fn remove_all<O: KeyOrder>(
    pool: &mut Pool,
    order: &O,
    root: Option<u32>,
    keys: &[Key],
    birth: u64,
) -> Result<Pruned, HalfDone>
    requires { IsSetAt (O.compare order.now) pool.old root }
    ensures ok { IfOk result (λ m. ChangesAt (O.compare order.now) birth pool.old pool.new
        root m.root 0 m.removed) }
    ensures keys { IfOk result (λ m. keys_at pool.new m.root
        ≡ remove_keys (O.compare order.now) keys.now (keys_at pool.old root)) }
    ensures half { IfErr result
        (λ h. RemovesSome (O.compare order.now) birth pool.old pool.new root h.root) }
{
    let mut pruned = Pruned { root, removed: 0 };
    for key in keys {
        match remove_key(pool, order, pruned, *key, birth) {
            Ok(rest) => pruned = rest,
            Err(_) => return Err(HalfDone { root: pruned.root }),
        }
    }
    Ok(pruned)
}
