//! Drafts of a graph's tree, by copies of its nodes.
ghost use Rattle.std.specs.Prelude.{◌≡◌, ◌+◌, ◌*◌, ◌^◌, ◌<◌, ◌≤◌, length, map, IfOk, OnErr};
ghost use Rattle.gs_model.specs.Graphs.{with_triples};
ghost use Rattle.gs_event.specs.Updates.{updated, inserted_by, removed_by};
ghost use Rattle.gs_tree.specs.Steps.{SameTotal};
ghost use Rattle.gs_keys.specs.Texts.{triple_at};
ghost use Rattle.gs_keys.specs.Roots.{graph_of_root};
ghost use Rattle.gs_changes.specs.Endings.{Restores};
ghost use Rattle.gs_staging.specs.Keys.{Grows};
ghost use Rattle.gs_tree_store.specs.Drafts.{CanDraft, IsRun, Drafts};

use gs_catalogue::GraphVersion;
use gs_changes::add_keys;
use gs_dict::Dict;
use gs_event::Op;
use gs_keys::ByText;
use gs_patch::patch;
use gs_pool::{Key, Pool};
use std::alloc::{AllocError, Global};

/// A draft of a graph with the triples of these keys too. Where memory is refused, the pool is as it was.
pub fn united(
    dict: &Dict,
    pool: &mut Pool,
    old: GraphVersion,
    keys: &[Key],
    birth: u64,
) -> Result<GraphVersion, AllocError>
    requires can { CanDraft birth dict.now.terms pool.old old }
    requires run { IsRun dict.now.terms keys.now }
    ensures ok { IfOk result (λ v. Drafts birth dict.now.terms pool.old pool.new old v
        (with_triples (graph_of_root dict.now.terms pool.old old.root) (map (triple_at dict.now.terms) keys.now))
        (259 * length keys.now)) }
    ensures kept { OnErr result (Restores pool.old pool.new) }
    ensures total { SameTotal pool.old pool.new }
{
    // A number that is free has no mark.
    let _used = pool.nodes_in_use();
    // No term has two numbers.
    let _terms = dict.len();
    let order = ByText::new(dict);
    let merged = add_keys(pool, &order, old.root, keys, birth)?;
    // A tree has no more keys than nodes are in use, which are fewer than 2^32.
    let _most = pool.nodes_in_use();
    Ok(GraphVersion {
        root: merged.root,
        triples: old.triples + merged.added as u64,
    })
}

/// A draft of a graph after the operations of an update. Where memory is refused, the pool is as it was.
pub fn patched(
    alloc: Global,
    dict: &mut Dict,
    pool: &mut Pool,
    old: GraphVersion,
    operations: &[Op],
    birth: u64,
) -> Result<GraphVersion, AllocError>
    requires { CanDraft birth dict.old.terms pool.old old }
    ensures grows { Grows dict.old dict.new }
    ensures ok { IfOk result (λ v. Drafts birth dict.new.terms pool.old pool.new old v
        (updated (graph_of_root dict.old.terms pool.old old.root) operations.now)
        (259 * inserted_by (graph_of_root dict.old.terms pool.old old.root) operations.now
        + 261 * removed_by (graph_of_root dict.old.terms pool.old old.root) operations.now)) }
    ensures kept { OnErr result (Restores pool.old pool.new) }
{
    // A number that is free has no mark.
    let _used = pool.nodes_in_use();
    let Ok(draft) = patch(alloc, dict, pool, old.root, operations, birth) else {
        return Err(AllocError);
    };
    // A tree has no more keys than nodes are in use, which are fewer than 2^32.
    let _most = pool.nodes_in_use();
    Ok(GraphVersion {
        root: draft.root,
        triples: counted(old.triples, draft.added, draft.removed),
    })
}

/// How many triples there are where there were so many, and these came and went.
fn counted(before: u64, added: u128, removed: u128) -> u64
    requires some { removed ≤ before + added }
    requires few { before + added < 2 ^ 32 + removed }
    ensures { result + removed ≡ before + added }
{
    if added >= removed {
        return before + (added - removed) as u64;
    }
    before - (removed - added) as u64
}
