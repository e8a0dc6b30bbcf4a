//! A set of commit 1, keys in and out of it at commit 2, and what is there once the commit has ended.
ghost use Rattle.std.specs.Prelude.{◌≡◌, IfOk};
ghost use Rattle.gs_pool.specs.Pool.{aside_count};
ghost use Rattle.gs_tree.specs.Keys.{IsRising};
ghost use Rattle.gs_changes.specs.Endings.{IsDraftAt};
ghost use Rattle.gs_tree_tests.specs.ObjectOrder.{by_object};
ghost use Rattle.gs_changes_tests.specs.Ready.{IsReady};

use gs_changes::{add_keys, free_tree, remove_all, retire_replaced, take_back};
use gs_model::Refusal;
use gs_pool::{Key, Pool};
use gs_tree::{build, is_rising, union};
use gs_tree_tests::ByObject;
use std::alloc::{AllocError, Global};

/// A walk goes no deeper than this, which is more than any tree of a test.
const DEPTH: u32 = 16;

/// The keys of a set, those of another one that go into it, and those that go out.
#[derive(Drop)]
pub struct Trial {
    pub set: Vec<Key>,
    pub other: Vec<Key>,
    pub out: Vec<Key>,
}

/// A number above those of all nodes that a test makes: both sets, and each commit's keys and copies.
fn places(trial: &Trial) -> u32 {
    let keys = trial.set.len().saturating_add(trial.other.len());
    u32::try_from(keys.saturating_mul(2).saturating_add(200)).unwrap_or(u32::MAX)
}

/// The roots of two sets in one pool.
#[derive(Clone, Copy)]
struct Roots {
    set: Option<u32>,
    other: Option<u32>,
}

/// What a commit made of a set, and how many keys went in and out.
#[derive(Clone, Copy)]
struct Changed {
    root: Option<u32>,
    added: usize,
    removed: usize,
}

/// Two sets at commit 1.
fn begin(pool: &mut Pool, set: &[Key], other: &[Key]) -> Result<Roots, AllocError>
    requires set { IsRising by_object set.now }
    requires other { IsRising by_object other.now }
    requires none_aside { aside_count pool.old ≡ 0 }
    ensures { IfOk result (IsReady pool.new) }
{
    let theirs = union(pool, &ByObject, None, other, 0, 1)?;
    let ours = union(pool, &ByObject, None, set, 0, 1)?;
    Ok(Roots {
        set: ours.root,
        other: theirs.root,
    })
}

/// Keys in and out of a set at commit 2. Where memory is refused, all of it is taken back.
fn change(pool: &mut Pool, roots: Roots, more: &[Key], out: &[Key]) -> Result<Changed, AllocError>
    requires ready { IsReady pool.old roots }
    requires rising { IsRising by_object more.now }
    ensures { IfOk result (λ changed. IsDraftAt pool.new changed.root) }
{
    let more = add_keys(pool, &ByObject, roots.set, more, 2)?;
    match remove_all(pool, &ByObject, more.root, out, 2) {
        Ok(less) => Ok(Changed {
            root: less.root,
            added: more.added,
            removed: less.removed,
        }),
        Err(half) => {
            take_back(pool, half.root, 2);
            Err(AllocError)
        }
    }
}

/// The keys of a tree, from left to right, as the nodes have them now.
fn put_keys(
    pool: &Pool,
    root: Option<u32>,
    depth: u32,
    keys: &mut Vec<Key>,
) -> Result<(), AllocError> {
    let Some(id) = root else {
        return Ok(());
    };
    if depth == 0 || !pool.is_in_use(id) {
        return Ok(());
    }
    let node = pool.get(id);
    put_keys(pool, node.left, depth - 1, keys)?;
    keys.push(node.key)?;
    put_keys(pool, node.right, depth - 1, keys)
}

/// Whether a tree has exactly these keys.
fn has_just(
    alloc: Global,
    pool: &Pool,
    root: Option<u32>,
    wanted: &[Key],
) -> Result<bool, AllocError> {
    let mut keys = Vec::new(alloc);
    put_keys(pool, root, DEPTH, &mut keys)?;
    Ok(
        keys.len() == wanted.len()
            && keys
                .iter()
                .zip(wanted)
                .all(|(key, it)| key.object == it.object),
    )
}

/// Whether both sets have the keys that they had, and no node is plain but theirs and those of a tree
/// that replaced the first one.
fn stands(
    alloc: Global,
    pool: &Pool,
    roots: Roots,
    trial: &Trial,
    now: Option<u32>,
    keys: &[Key],
) -> Result<bool, AllocError> {
    let mut plain = 0usize;
    for id in 0..places(trial) {
        if pool.is_plain(id) {
            plain = plain.saturating_add(1);
        }
    }
    let wanted = keys.len().saturating_add(trial.other.len());
    Ok(
        plain == wanted
            && has_just(alloc, pool, now, keys)?
            && has_just(alloc, pool, roots.set, trial.set.as_slice())?
            && has_just(alloc, pool, roots.other, trial.other.as_slice())?,
    )
}

/// The same as below, in a pool that is lent.
fn is_kept_in(
    alloc: Global,
    pool: &mut Pool,
    trial: &Trial,
    keys: &[Key],
    added: usize,
    removed: usize,
) -> Result<bool, Refusal>
    requires { aside_count pool.old ≡ 0 }
{
    if !is_rising(&ByObject, trial.set.as_slice())
        || !is_rising(&ByObject, trial.other.as_slice())
    {
        return Ok(false);
    }
    let roots = begin(pool, trial.set.as_slice(), trial.other.as_slice())?;
    let changed = change(pool, roots, trial.other.as_slice(), trial.out.as_slice())?;
    retire_replaced(pool, 2);
    let right = stands(alloc, pool, roots, trial, changed.root, keys)?;
    Ok(right && changed.added == added && changed.removed == removed && pool.next_aside().is_none())
}

/// Whether a commit that is kept makes a set of exactly these keys, and says that so many came and so many
/// went. What it replaced is retired; both sets still have the keys that they had.
pub fn is_kept(
    alloc: Global,
    trial: &Trial,
    keys: &[Key],
    added: usize,
    removed: usize,
) -> Result<bool, Refusal> {
    let mut pool = Pool::new(alloc, u32::MAX);
    let answer = is_kept_in(alloc, &mut pool, trial, keys, added, removed);
    drop(pool);
    answer
}

/// The same as below, in a pool that is lent.
fn is_left_alone_in(alloc: Global, pool: &mut Pool, trial: &Trial) -> Result<Option<bool>, Refusal>
    requires { aside_count pool.old ≡ 0 }
{
    if !is_rising(&ByObject, trial.set.as_slice())
        || !is_rising(&ByObject, trial.other.as_slice())
    {
        return Ok(None);
    }
    let roots = begin(pool, trial.set.as_slice(), trial.other.as_slice())?;
    let used = pool.nodes_in_use();
    let refused = match change(pool, roots, trial.other.as_slice(), trial.out.as_slice()) {
        Ok(changed) => {
            take_back(pool, changed.root, 2);
            false
        }
        Err(_) => true,
    };
    let right = stands(alloc, pool, roots, trial, roots.set, trial.set.as_slice())?;
    if right && pool.nodes_in_use() == used {
        Ok(Some(refused))
    } else {
        Ok(None)
    }
}

/// Whether a commit that is refused or taken back leaves both sets, and no node of its own, where the
/// numbers of nodes end at `last`: if so, whether it was refused.
pub fn is_left_alone(alloc: Global, trial: &Trial, last: u32) -> Result<Option<bool>, Refusal> {
    let mut pool = Pool::new(alloc, last);
    let answer = is_left_alone_in(alloc, &mut pool, trial);
    drop(pool);
    answer
}

/// The same as below, in a pool that is lent.
fn comes_back_in(alloc: Global, pool: &mut Pool, trial: &Trial) -> Result<bool, Refusal>
    requires { aside_count pool.old ≡ 0 }
{
    if !is_rising(&ByObject, trial.set.as_slice())
        || !is_rising(&ByObject, trial.other.as_slice())
    {
        return Ok(false);
    }
    let roots = begin(pool, trial.set.as_slice(), trial.other.as_slice())?;
    let used = pool.nodes_in_use();
    free_tree(pool, roots.other);
    let fewer = pool.nodes_in_use() == trial.set.len() as u64
        && has_just(alloc, pool, roots.set, trial.set.as_slice())?;
    pool.reserve(trial.other.len())?;
    let again = build(pool, trial.other.as_slice(), 2);
    Ok(
        fewer
            && pool.nodes_in_use() == used
            && has_just(alloc, pool, roots.set, trial.set.as_slice())?
            && has_just(alloc, pool, again, trial.other.as_slice())?,
    )
}

/// Whether the nodes of the second set, and no others, are free once it was freed, and a tree of its keys has as
/// many again.
pub fn comes_back(alloc: Global, trial: &Trial) -> Result<bool, Refusal> {
    let mut pool = Pool::new(alloc, u32::MAX);
    let answer = comes_back_in(alloc, &mut pool, trial);
    drop(pool);
    answer
}
