//! One operation on the tree of a graph.
ghost use Rattle.std.specs.Prelude.{◌≡◌, map, IfOk, IfErr, OnErr};
ghost use Rattle.gs_event.specs.Solutions.{instances_of};
ghost use Rattle.gs_tree.specs.Keys.{AllKeys};
ghost use Rattle.gs_keys.specs.Texts.{triple_at, IsGiven};
ghost use Rattle.gs_keys.specs.Roots.{graph_of_root};
ghost use Rattle.gs_staging.specs.Keys.{Grows, GivesOnly, IsTermIn};
ghost use Rattle.gs_staging.specs.Staging.{IsStaged};
ghost use Rattle.gs_patch.specs.Operations.{GainsTriples, LosesTriples, ChangesSome, Operates};
ghost use Rattle.gs_patch.specs.Inserted.{IsInsertedBy};

use crate::known::known_keys;
use gs_changes::{HalfDone, Pruned, remove_all};
use gs_dict::Dict;
use gs_event::Op;
use gs_keys::ByText;
use gs_match::solve;
use gs_model::Refusal;
use gs_pool::{Key, Pool};
use gs_staging::run_of;
use gs_term::Pattern;
use gs_tree::{Merged, union};
use gs_triple_lists::TripleList;
use std::alloc::Global;

/// A tree after one operation, and how many keys came to it and went from it.
#[derive(Clone, Copy)]
pub struct Operated {
    pub root: Option<u32>,
    pub added: usize,
    pub removed: usize,
}

/// Triples into the tree, in one union. Where memory is refused, the pool is as it was.
fn insert(
    alloc: Global,
    dict: &mut Dict,
    pool: &mut Pool,
    root: Option<u32>,
    triples: &TripleList,
    birth: u64,
) -> Result<Merged, Refusal>
    requires { IsStaged dict.old.terms pool.old root }
    ensures grows { Grows dict.old dict.new }
    ensures only { GivesOnly (IsTermIn triples.now.items) dict.old.terms dict.new.terms }
    ensures ok { IfOk result (GainsTriples birth dict.old.terms dict.new.terms pool.old pool.new root
        triples.now.items) }
    ensures kept { OnErr result (pool.new ≡ pool.old) }
{
    let keys = run_of(alloc, dict, triples)?;
    // That no term has two numbers.
    let _terms = dict.len();
    let order = ByText::new(dict);
    Ok(union(pool, &order, root, keys.as_slice(), birth, birth)?)
}

/// Keys out of the tree. Where memory is refused, some may be out.
fn take_out(
    dict: &Dict,
    pool: &mut Pool,
    root: Option<u32>,
    keys: &[Key],
    birth: u64,
) -> Result<Pruned, HalfDone>
    requires staged { IsStaged dict.now.terms pool.old root }
    requires given { AllKeys (IsGiven dict.now.terms) keys.now }
    ensures ok { IfOk result (LosesTriples birth dict.now.terms pool.old pool.new root
        (map (triple_at dict.now.terms) keys.now)) }
    ensures half { IfErr result (λ h. ChangesSome birth dict.now.terms pool.old pool.new root h.root) }
{
    let order = ByText::new(dict);
    remove_all(pool, &order, root, keys, birth)
}

/// Triples out of the tree; those that it lacks are passed over.
fn delete(
    alloc: Global,
    dict: &Dict,
    pool: &mut Pool,
    root: Option<u32>,
    triples: &TripleList,
    birth: u64,
) -> Result<Pruned, HalfDone>
    requires { IsStaged dict.now.terms pool.old root }
    ensures ok { IfOk result (LosesTriples birth dict.now.terms pool.old pool.new root triples.now.items) }
    ensures half { IfErr result (λ h. ChangesSome birth dict.now.terms pool.old pool.new root h.root) }
{
    let Ok(keys) = known_keys(alloc, dict, triples) else {
        return Err(HalfDone { root });
    };
    take_out(dict, pool, root, keys.as_slice(), birth)
}

/// The instances of patterns out of the tree, under all their solutions in it.
fn delete_instances(
    alloc: Global,
    dict: &Dict,
    pool: &mut Pool,
    root: Option<u32>,
    patterns: &[Pattern],
    birth: u64,
) -> Result<Pruned, HalfDone>
    requires { IsStaged dict.now.terms pool.old root }
    ensures ok { IfOk result (LosesTriples birth dict.now.terms pool.old pool.new root
        (instances_of (graph_of_root dict.now.terms pool.old root) patterns.now)) }
    ensures half { IfErr result (λ h. ChangesSome birth dict.now.terms pool.old pool.new root h.root) }
{
    let Ok(keys) = solve(alloc, pool, root, dict, patterns) else {
        return Err(HalfDone { root });
    };
    take_out(dict, pool, root, keys.as_slice(), birth)
}

/// One operation on the tree of a graph, older nodes being copied and set aside. Where memory is
/// refused, some of it may be done: the caller takes it back.
pub fn operate(
    alloc: Global,
    dict: &mut Dict,
    pool: &mut Pool,
    root: Option<u32>,
    operation: &Op,
    birth: u64,
) -> Result<Operated, HalfDone>
    requires { IsStaged dict.old.terms pool.old root }
    ensures grows { Grows dict.old dict.new }
    ensures only { GivesOnly (IsInsertedBy operation.now) dict.old.terms dict.new.terms }
    ensures ok { IfOk result (Operates birth dict.old.terms dict.new.terms pool.old pool.new root
        operation.now) }
    ensures half { IfErr result (λ h. ChangesSome birth dict.new.terms pool.old pool.new root h.root) }
{
    match operation {
        Op::Insert(triples) => match insert(alloc, dict, pool, root, triples, birth) {
            Ok(merged) => Ok(Operated {
                root: merged.root,
                added: merged.added,
                removed: 0,
            }),
            Err(_) => Err(HalfDone { root }),
        },
        Op::DeleteData(triples) => {
            let pruned = delete(alloc, dict, pool, root, triples, birth)?;
            Ok(Operated {
                root: pruned.root,
                added: 0,
                removed: pruned.removed,
            })
        }
        Op::DeleteWhere(patterns) => {
            let pruned = delete_instances(alloc, dict, pool, root, patterns.as_slice(), birth)?;
            Ok(Operated {
                root: pruned.root,
                added: 0,
                removed: pruned.removed,
            })
        }
    }
}
