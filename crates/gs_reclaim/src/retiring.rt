//! What is retired with all below it, and how such a node is freed.
ghost use Rattle.std.specs.Prelude.{◌≡◌, ◌+◌, ◌*◌, ◌≤◌, Some, None, Option};
ghost use Rattle.gs_pool.specs.Pool.{in_use, aside_count, retired_count};
ghost use Rattle.gs_ledger.specs.Changes.{RetiresRoot, RetiresSides};
ghost use Rattle.gs_reclaim.specs.Reclaims.{CanRetireRoot, AreSides, CanFree, Unrolls};

use gs_pool::{Node, Pool, Retired};

/// Retires what a root means with all nodes below it, which stay plain. Takes no memory.
pub fn retire_root(pool: &mut Pool, root: Option<u32>, death: u64)
    requires { CanRetireRoot pool.old root }
    ensures retires { RetiresRoot pool.old pool.new root death }
    ensures nodes { pool.new.nodes ≡ pool.old.nodes }
    ensures aside { aside_count pool.new ≡ aside_count pool.old }
    ensures retired { retired_count pool.new ≤ retired_count pool.old + 1 }
    ensures loose { pool.new.loose ≤ pool.old.loose + 1 }
    ensures pins { pool.new.pins ≡ pool.old.pins }
{
    if let Some(id) = root {
        pool.retire_tree(id, death);
    }
}

// Retires the sides of a node, where all below it died.
fn retire_sides(pool: &mut Pool, id: u32, node: Node, death: u64, whole: bool)
    requires { AreSides whole pool.old id node }
    ensures sides { RetiresSides whole pool.old pool.new node death }
    ensures nodes { pool.new.nodes ≡ pool.old.nodes }
    ensures aside { aside_count pool.new ≡ aside_count pool.old }
    ensures loose { pool.new.loose ≤ pool.old.loose + 2 }
    ensures pins { pool.new.pins ≡ pool.old.pins }
{
    if !whole {
        return;
    }
    retire_root(pool, node.left, death);
    retire_root(pool, node.right, death);
}

/// Frees a plain node that died. Where all below it died, its sides are retired, as nodes of their own.
pub fn free_top(pool: &mut Pool, entry: Retired)
    requires { CanFree pool.old entry.id entry.whole }
    ensures unrolls { Unrolls pool.old pool.new entry.id entry.death entry.whole }
    ensures fewer { in_use pool.new + 1 ≡ in_use pool.old }
    ensures aside { aside_count pool.new ≡ aside_count pool.old }
    ensures loose { pool.new.loose ≤ pool.old.loose + 2 }
    ensures pins { pool.new.pins ≡ pool.old.pins }
{
    let node = pool.get(entry.id);
    retire_sides(pool, entry.id, node, entry.death, entry.whole);
    pool.free(entry.id);
}
