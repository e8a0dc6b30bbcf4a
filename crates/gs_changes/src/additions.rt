//! Keys into a set of an earlier version, all or none.
ghost use Rattle.std.specs.Prelude.{◌≡◌, ◌≤◌, length, IfOk, IfErr, OnErr};
ghost use Rattle.gs_pool.specs.Pool.{aside_count};
ghost use Rattle.gs_tree.specs.Tree.{tree_at};
ghost use Rattle.gs_tree.specs.Reading.{keys_at};
ghost use Rattle.gs_tree.specs.Keys.{IsRising, merge_keys};
ghost use Rattle.gs_tree.specs.Sets.{IsSetAt};
ghost use Rattle.gs_tree.specs.Steps.{SameTotal};
ghost use Rattle.gs_changes.specs.Changes.{ChangesAt, AddsSome, IsEarlier};
ghost use Rattle.gs_changes.specs.Pieces.{AddsPiece};
ghost use Rattle.gs_changes.specs.Endings.{Restores};

use crate::endings::take_back;
use crate::removals::HalfDone;
use gs_pool::{Key, Pool};
use gs_tree::{KeyOrder, Merged, union};
use std::alloc::AllocError;

/// How many keys go into the set by one union, which bounds the room that it asks for.
const KEYS_AT_ONCE: usize = 4_096;

// A piece of keys into the set: one more union of the same change.
fn add_piece<O: KeyOrder>(
    pool: &mut Pool,
    order: &O,
    merged: Merged,
    piece: &[Key],
    birth: u64,
) -> Result<Merged, AllocError>
    requires set { IsSetAt (O.compare order.now) pool.old merged.root }
    requires rising { IsRising (O.compare order.now) piece.now }
    requires counted { merged.added ≤ length (keys_at pool.old merged.root) }
    ensures ok { IfOk result (AddsPiece (O.compare order.now) birth pool.old pool.new merged piece.now) }
    ensures total { SameTotal pool.old pool.new }
    ensures kept { OnErr result (pool.new ≡ pool.old) }
{
    let more = union(pool, order, merged.root, piece, birth, birth)?;
    // A set has no more keys than nodes are in use, which are fewer than 2^32.
    let _most = pool.nodes_in_use();
    Ok(Merged {
        root: more.root,
        added: merged.added + more.added,
    })
}

// Keys into a set, so many at once. Where memory is refused, some may be in.
fn add_pieces<O: KeyOrder>(
    pool: &mut Pool,
    order: &O,
    root: Option<u32>,
    keys: &[Key],
    birth: u64,
) -> Result<Merged, HalfDone>
    requires set { IsSetAt (O.compare order.now) pool.old root }
    requires rising { IsRising (O.compare order.now) keys.now }
    ensures ok { IfOk result (λ m. ChangesAt (O.compare order.now) birth pool.old pool.new
        root m.root m.added 0) }
    ensures keys { IfOk result (λ m. keys_at pool.new m.root
        ≡ merge_keys (O.compare order.now) keys.now (keys_at pool.old root)) }
    ensures half { IfErr result (λ h. AddsSome (O.compare order.now) birth pool.old pool.new root h.root) }
    ensures total { SameTotal pool.old pool.new }
{
    let mut merged = Merged { root, added: 0 };
    let mut rest = keys;
    'pieces: while !rest.is_empty() {
        let (piece, later) = rest.split_at(rest.len().min(KEYS_AT_ONCE));
        match add_piece(pool, order, merged, piece, birth) {
            Ok(more) => merged = more,
            Err(_) => return Err(HalfDone { root: merged.root }),
        }
        rest = later;
    }
    Ok(merged)
}

/// Adds keys to a set of an earlier version; those that the set has already stay as they are. Older nodes
/// are copied, and set aside. Where memory is refused, nothing changes, but that there may be more room.
pub fn add_keys<O: KeyOrder>(
    pool: &mut Pool,
    order: &O,
    root: Option<u32>,
    keys: &[Key],
    birth: u64,
) -> Result<Merged, AllocError>
    requires set { IsSetAt (O.compare order.now) pool.old root }
    requires earlier { IsEarlier birth pool.old (tree_at pool.old root) }
    requires none_aside { aside_count pool.old ≡ 0 }
    requires rising { IsRising (O.compare order.now) keys.now }
    ensures ok { IfOk result (λ m. ChangesAt (O.compare order.now) birth pool.old pool.new
        root m.root m.added 0) }
    ensures keys { IfOk result (λ m. keys_at pool.new m.root
        ≡ merge_keys (O.compare order.now) keys.now (keys_at pool.old root)) }
    ensures kept { OnErr result (Restores pool.old pool.new) }
    ensures total { SameTotal pool.old pool.new }
{
    // A number that is free has no mark, which is what makes the way back exact.
    let _used = pool.nodes_in_use();
    match add_pieces(pool, order, root, keys, birth) {
        Ok(merged) => Ok(merged),
        Err(half) => {
            take_back(pool, half.root, birth);
            Err(AllocError)
        }
    }
}
