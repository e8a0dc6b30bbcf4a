//! How much room a change asks for.
ghost use Rattle.std.specs.Prelude.{◌≡◌, ◌-◌, ◌^◌, ◌<◌, min};
ghost use Rattle.gs_pool.specs.Pool.{in_use};
ghost use Rattle.gs_tree.specs.Tree.{IsRoot, height_at};
ghost use Rattle.gs_tree.specs.Sets.{copied_most};

use crate::balance::height_of;
use gs_pool::Pool;

// How many nodes a tree has at most, by its height and by the nodes in use.
fn size_bound(used: usize, height: u16) -> usize
    requires { used < 2 ^ 32 }
    ensures { result ≡ min used (2 ^ height - 1) }
{
    if height >= 32 {
        return used;
    }
    used.min((1usize << height) - 1)
}

/// How many nodes a change copies at most, where it would copy `most` of a tree with no end.
pub fn copy_bound(pool: &Pool, root: Option<u32>, since: u64, most: usize) -> usize
    requires { IsRoot pool.now root }
    ensures { result ≡ copied_most since most (height_at pool.now root) (in_use pool.now) }
{
    if since == 0 {
        return 0;
    }
    let used = pool.nodes_in_use() as usize;
    most.min(size_bound(used, height_of(pool, root)))
}
