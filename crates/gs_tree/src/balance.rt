//! A node that may be written, rotations, and the join of two trees.
ghost use Rattle.std.specs.Prelude.{◌≡◌, ℕ, ◌+◌, ◌<◌, ◌≤◌, ◌^◌, max, Some, None, IsSome, IfSome, Option};
ghost use Rattle.gs_pool.specs.Pool.{node_at, mark_at, plain, room};
ghost use Rattle.gs_tree.specs.Tree.{height_at, IsRoot, tree_at, height, DifferByAtMost};
ghost use Rattle.gs_tree.specs.Steps.{CopiesIfOlder, IsOlder, Links};
ghost use Rattle.gs_tree.specs.Joining.{CanSettleAt, CanJoinAt, SettledAt, KeepsHeight};

use gs_pool::{Key, Node, Pool};

/// The height of a tree.
pub fn height_of(pool: &Pool, root: Option<u32>) -> u16
    requires { IsRoot pool.now root }
    ensures { result ≡ height_at pool.now root }
{
    match root {
        None => 0,
        Some(id) => pool.get(id).height,
    }
}

/// The node itself where it is no older than `since`, and else a copy of it.
pub fn copy_if_older(pool: &mut Pool, id: u32, since: u64, birth: u64) -> u32
    requires used { IsSome (node_at pool.old id) }
    requires unlisted { mark_at pool.old id ≡ plain }
    requires room { IsOlder since pool.old id → 0 < room pool.old }
    requires birth { since ≤ birth }
    ensures { CopiesIfOlder since birth pool.old pool.new id result }
{
    let node = pool.get(id);
    if node.birth >= since {
        id
    } else {
        pool.replace(id, Node { birth, ..node })
    }
}

/// Makes a node the parent of two trees.
pub fn link(pool: &mut Pool, id: u32, left: Option<u32>, key: Key, right: Option<u32>, birth: u64)
    requires left { IsRoot pool.old left }
    requires right { IsRoot pool.old right }
    requires used { IsSome (node_at pool.old id) }
    requires unlisted { mark_at pool.old id ≡ plain }
    requires left_fits { height_at pool.old left < 2 ^ 15 }
    requires right_fits { height_at pool.old right < 2 ^ 15 }
    ensures { Links pool.old pool.new id left key right birth }
{
    let height = height_of(pool, left).max(height_of(pool, right)) + 1;
    pool.set(
        id,
        Node {
            key,
            left,
            right,
            height,
            birth,
        },
    );
}

/// A rotation, where the left tree is two levels higher than the right one.
pub fn lean_left(
    pool: &mut Pool,
    top: u32,
    left: u32,
    key: Key,
    right: Option<u32>,
    since: u64,
    birth: u64,
) -> u32
    requires can { CanSettleAt since pool.old top (Some left) right }
    requires higher { height (tree_at pool.old (Some left)) ≡ height (tree_at pool.old right) + 2 }
    requires birth { since ≤ birth }
    ensures { SettledAt since birth pool.old pool.new top (Some left) key right result }
{
    let below = pool.get(left);
    let turned = copy_if_older(pool, left, since, birth);
    if height_of(pool, below.left) >= height_of(pool, below.right) {
        link(pool, top, below.right, key, right, birth);
        link(pool, turned, below.left, below.key, Some(top), birth);
        return turned;
    }
    let Some(inner) = below.right else {
        unreachable!()
    };
    let node = pool.get(inner);
    let middle = copy_if_older(pool, inner, since, birth);
    link(pool, turned, below.left, below.key, node.left, birth);
    link(pool, top, node.right, key, right, birth);
    link(pool, middle, Some(turned), node.key, Some(top), birth);
    middle
}

/// The same, where the right tree is two levels higher than the left one.
pub fn lean_right(
    pool: &mut Pool,
    top: u32,
    left: Option<u32>,
    key: Key,
    right: u32,
    since: u64,
    birth: u64,
) -> u32
    requires can { CanSettleAt since pool.old top left (Some right) }
    requires higher { height (tree_at pool.old (Some right)) ≡ height (tree_at pool.old left) + 2 }
    requires birth { since ≤ birth }
    ensures { SettledAt since birth pool.old pool.new top left key (Some right) result }
{
    let below = pool.get(right);
    let turned = copy_if_older(pool, right, since, birth);
    if height_of(pool, below.right) >= height_of(pool, below.left) {
        link(pool, top, left, key, below.left, birth);
        link(pool, turned, Some(top), below.key, below.right, birth);
        return turned;
    }
    let Some(inner) = below.left else {
        unreachable!()
    };
    let node = pool.get(inner);
    let middle = copy_if_older(pool, inner, since, birth);
    link(pool, turned, node.right, below.key, below.right, birth);
    link(pool, top, left, key, node.left, birth);
    link(pool, middle, Some(top), node.key, Some(turned), birth);
    middle
}

/// Makes a node the parent of two trees, and balances them.
pub fn settle(
    pool: &mut Pool,
    top: u32,
    left: Option<u32>,
    key: Key,
    right: Option<u32>,
    since: u64,
    birth: u64,
) -> u32
    requires can { CanSettleAt since pool.old top left right }
    requires near { DifferByAtMost 2 (height (tree_at pool.old left)) (height (tree_at pool.old right)) }
    requires birth { since ≤ birth }
    ensures { SettledAt since birth pool.old pool.new top left key right result }
{
    let left_height = height_of(pool, left);
    let right_height = height_of(pool, right);
    if left_height > right_height + 1 {
        let Some(below) = left else { unreachable!() };
        return lean_left(pool, top, below, key, right, since, birth);
    }
    if right_height > left_height + 1 {
        let Some(below) = right else { unreachable!() };
        return lean_right(pool, top, left, key, below, since, birth);
    }
    link(pool, top, left, key, right, birth);
    top
}

/// Makes a node the parent of two trees of any heights, and balances them.
pub fn join(
    pool: &mut Pool,
    left: Option<u32>,
    top: u32,
    key: Key,
    right: Option<u32>,
    since: u64,
    birth: u64,
) -> u32
    requires can { CanJoinAt since pool.old top left right }
    requires birth { since ≤ birth }
    ensures { SettledAt since birth pool.old pool.new top left key right result }
{
    let left_height = height_of(pool, left);
    let right_height = height_of(pool, right);
    if left_height > right_height + 2 {
        let Some(id) = left else { unreachable!() };
        let node = pool.get(id);
        let inner = join(pool, node.right, top, key, right, since, birth);
        let turned = copy_if_older(pool, id, since, birth);
        return settle(pool, turned, node.left, node.key, Some(inner), since, birth);
    }
    if right_height > left_height + 2 {
        let Some(id) = right else { unreachable!() };
        let node = pool.get(id);
        let inner = join(pool, left, top, key, node.left, since, birth);
        let turned = copy_if_older(pool, id, since, birth);
        return settle(
            pool,
            turned,
            Some(inner),
            node.key,
            node.right,
            since,
            birth,
        );
    }
    settle(pool, top, left, key, right, since, birth)
}

// Makes a node the parent of two trees whose heights are known, so that neither is read.
fn relink(
    pool: &mut Pool,
    id: u32,
    left: Option<u32>,
    key: Key,
    right: Option<u32>,
    height: u16,
    birth: u64,
)
    requires used { IsSome (node_at pool.old id) }
    requires unlisted { mark_at pool.old id ≡ plain }
    requires above { height ≡ max (height_at pool.old left) (height_at pool.old right) + 1 }
    ensures { Links pool.old pool.new id left key right birth }
{
    pool.set(
        id,
        Node {
            key,
            left,
            right,
            height,
            birth,
        },
    );
}

/// Makes a node the parent of two trees of any heights, and balances them. Where they are known to be
/// in balance below a node of a height, neither is read.
pub fn rejoin(
    pool: &mut Pool,
    left: Option<u32>,
    top: u32,
    key: Key,
    right: Option<u32>,
    kept: Option<u16>,
    since: u64,
    birth: u64,
) -> u32
    requires can { CanJoinAt since pool.old top left right }
    requires kept { IfSome kept (KeepsHeight pool.old left right) }
    requires birth { since ≤ birth }
    ensures { SettledAt since birth pool.old pool.new top left key right result }
{
    let Some(height) = kept else {
        return join(pool, left, top, key, right, since, birth);
    };
    relink(pool, top, left, key, right, height, birth);
    top
}
