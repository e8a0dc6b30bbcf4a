//! The ends of commits. None of them takes memory.
ghost use Rattle.std.specs.Prelude.{◌≡◌, ◌+◌, ◌<◌};
ghost use Rattle.gs_model.specs.Limits.{last_number};
ghost use Rattle.gs_pool.specs.Pool.{aside_count};
ghost use Rattle.gs_versions.specs.Pins.{at_commit};
ghost use Rattle.gs_reclaim.specs.Reclaims.{CanRetireRoot};
ghost use Rattle.gs_commit.specs.Commits.{HandsOverAll, DropsAll, KeepsDraftAll};

use gs_changes::retire_replaced;
use gs_pool::Pool;
use gs_reclaim::retire_root;
use gs_versions::Versions;

/// The death of what no version had: none needs it.
const NEVER: u64 = 0;

/// Ends a commit that gives a graph another tree, that of an upload or a leaf: `root` is what the graph
/// had, which died by this commit. A Delete gives a leaf, which stands for no upload
/// (`a_leaf_is_no_upload`).
pub fn end_tree(pool: &mut Pool, versions: &mut Versions, root: Option<u32>)
    requires root { CanRetireRoot pool.old root }
    requires number { versions.old.commit < last_number }
    ensures ledgers { HandsOverAll versions.old versions.new pool.old pool.new root }
    ensures commit { versions.new ≡ at_commit versions.old (versions.old.commit + 1) }
    ensures nodes { pool.new.nodes ≡ pool.old.nodes }
    ensures aside { aside_count pool.new ≡ aside_count pool.old }
{
    let death = versions.commit() + 1;
    retire_root(pool, root, death);
    versions.advance();
}

/// Drops the tree of an upload that no version had: for a Cancel, for an upload that comes too late, and
/// for a PUT or a new graph that is not stored.
pub fn drop_tree(pool: &mut Pool, root: Option<u32>)
    requires { CanRetireRoot pool.old root }
    ensures ledgers { DropsAll pool.old pool.new root }
    ensures nodes { pool.new.nodes ≡ pool.old.nodes }
    ensures aside { aside_count pool.new ≡ aside_count pool.old }
{
    retire_root(pool, root, NEVER);
}

/// Ends a commit that made a draft of a graph's tree by copies: what these replaced died by this commit.
pub fn keep_draft(pool: &mut Pool, versions: &mut Versions)
    requires { versions.old.commit < last_number }
    ensures ledgers { KeepsDraftAll versions.old versions.new pool.old pool.new }
    ensures commit { versions.new ≡ at_commit versions.old (versions.old.commit + 1) }
    ensures nodes { pool.new.nodes ≡ pool.old.nodes }
    ensures aside { aside_count pool.new ≡ 0 }
{
    let death = versions.commit() + 1;
    retire_replaced(pool, death);
    versions.advance();
}
