//! The two ends of a change: it is taken back, or it is kept and what it replaced dies; and the end of a
//! tree that no version has. None takes memory.
ghost use Rattle.std.specs.Prelude.{◌<◌, ◌↔◌, IsTrue};
ghost use Rattle.gs_tree.specs.Tree.{tree_at};
ghost use Rattle.gs_tree.specs.Steps.{SameTotal};
ghost use Rattle.gs_changes.specs.Endings.{IsDraftAt, FreesYoung, KeepsAllMarks, Returns};
ghost use Rattle.gs_changes.specs.Endings.{TakesBack, UndoesAll, Retires, FreesTree};

use gs_pool::{Node, Pool};

// Whether a node was there before the change.
fn is_older(node: Node, since: u64) -> bool
    ensures { IsTrue result ↔ (node.birth < since) }
{
    node.birth < since
}

// Frees the nodes of a tree that are no older than `since`: they are its upper part.
fn free_young(pool: &mut Pool, root: Option<u32>, since: u64)
    requires { IsDraftAt pool.old root }
    ensures frees { FreesYoung since pool.old pool.new (tree_at pool.old root) }
    ensures marks { KeepsAllMarks pool.old pool.new }
    ensures total { SameTotal pool.old pool.new }
{
    let Some(id) = root else {
        return;
    };
    let node = pool.get(id);
    if is_older(node, since) {
        return;
    }
    free_young(pool, node.left, since);
    free_young(pool, node.right, since);
    pool.free(id);
}

// Makes plain what is set aside.
fn return_aside(pool: &mut Pool)
    ensures { Returns pool.old pool.new }
{
    'aside: while let Some(_) = pool.next_aside() {}
}

/// Takes a change back, of which `root` is what the tree became: what was made since is freed, and what
/// was set aside is plain again. The pool is as it was where the change began.
pub fn take_back(pool: &mut Pool, root: Option<u32>, since: u64)
    requires { IsDraftAt pool.old root }
    ensures takes { TakesBack since pool.old pool.new (tree_at pool.old root) }
    ensures undoes { UndoesAll since pool.old pool.new (tree_at pool.old root) }
    ensures total { SameTotal pool.old pool.new }
{
    free_young(pool, root, since);
    return_aside(pool);
}

/// Frees a tree that no version has: all its nodes, and no other. Takes no memory.
pub fn free_tree(pool: &mut Pool, root: Option<u32>)
    requires { IsDraftAt pool.old root }
    ensures frees { FreesTree pool.old pool.new (tree_at pool.old root) }
    ensures total { SameTotal pool.old pool.new }
{
    free_young(pool, root, 0);
}

/// Keeps a change: what it replaced dies by this commit, and is retired.
pub fn retire_replaced(pool: &mut Pool, death: u64)
    ensures { Retires death pool.old pool.new }
{
    'aside: while let Some(gone) = pool.next_aside() {
        pool.retire_one(gone.id, death);
    }
}
