//! An upload apart from its tree: its keys in a list, while a graph takes them.
ghost use Rattle.std.specs.Prelude.{◌≡◌, ◌≤◌, length, IfOk, OnErr};
ghost use Rattle.gs_pool.specs.Pool.{room};
ghost use Rattle.gs_changes.specs.Endings.{IsDraftAt};
ghost use Rattle.gs_datasets.specs.Standing.{IsVersion};
ghost use Rattle.gs_tree_store.specs.Uploads.{TakesKeys, MakesAgain};

use gs_catalogue::GraphVersion;
use gs_changes::free_tree;
use gs_dict::Dict;
use gs_keys::ByText;
use gs_pool::{Key, Pool};
use gs_tree::{build, next_keys};
use std::alloc::{AllocError, Global};

/// The keys of an upload, whose nodes are free then: a graph that takes the keys needs a node
/// for each that is new to it, and so both never stand at once. Where memory is refused, nothing
/// changes.
pub fn take_keys(
    alloc: Global,
    dict: &Dict,
    pool: &mut Pool,
    upload: GraphVersion,
) -> Result<Vec<Key>, AllocError>
    requires version { IsVersion dict.now.terms pool.old upload }
    requires draft { IsDraftAt pool.old upload.root }
    ensures ok { IfOk result (λ keys. TakesKeys pool.old pool.new upload.root keys.items) }
    ensures kept { OnErr result (pool.new ≡ pool.old) }
{
    let order = ByText::new(dict);
    let count = upload.triples as usize;
    let mut keys = Vec::with_capacity(alloc, count)?;
    next_keys(pool, &order, upload.root, None, count, &mut keys)?;
    free_tree(pool, upload.root);
    Ok(keys)
}

/// The keys as an upload again, in room that is there. Takes no memory.
pub fn make_again(pool: &mut Pool, keys: &[Key], birth: u64) -> GraphVersion
    requires { length keys.now ≤ room pool.old }
    ensures { MakesAgain birth pool.old pool.new keys.now result }
{
    GraphVersion {
        root: build(pool, keys, birth),
        triples: keys.len() as u64,
    }
}
