//! The operations of an update, one after another.
ghost use Rattle.std.specs.Prelude.{◌≡◌, IfOk, IfErr, OnErr};
ghost use Rattle.gs_model.specs.declared.refusals.Refusal.TheVariants.{NoMemory};
ghost use Rattle.gs_pool.specs.Pool.{aside_count};
ghost use Rattle.gs_tree.specs.Tree.{tree_at};
ghost use Rattle.gs_changes.specs.Changes.{IsEarlier};
ghost use Rattle.gs_changes.specs.Endings.{IsDraftAt, UndoesAll, Restores};
ghost use Rattle.gs_staging.specs.Keys.{Grows, GivesOnly};
ghost use Rattle.gs_staging.specs.Staging.{IsStaged};
ghost use Rattle.gs_patch.specs.Operations.{ChangesSome};
ghost use Rattle.gs_patch.specs.Inserted.{IsInserted};
ghost use Rattle.gs_patch.specs.Patches.{Patches};

use crate::operations::operate;
use gs_changes::{HalfDone, take_back};
use gs_dict::Dict;
use gs_event::Op;
use gs_model::Refusal;
use gs_pool::Pool;
use std::alloc::Global;

/// A graph's tree after the operations of an update, and how many triples came to it and went from
/// it on the way: fewer than 2^64 by an operation, of which a list has fewer than 2^64.
#[derive(Clone, Copy)]
pub struct Draft {
    pub root: Option<u32>,
    pub added: u128,
    pub removed: u128,
}

/// The operations in their order. Where memory is refused, some may be done.
fn operate_all(
    alloc: Global,
    dict: &mut Dict,
    pool: &mut Pool,
    root: Option<u32>,
    operations: &[Op],
    birth: u64,
) -> Result<Draft, HalfDone>
    requires { IsStaged dict.old.terms pool.old root }
    ensures grows { Grows dict.old dict.new }
    ensures only { GivesOnly (IsInserted operations.now) dict.old.terms dict.new.terms }
    ensures ok { IfOk result (Patches birth dict.old.terms dict.new.terms pool.old pool.new root
        operations.now) }
    ensures half { IfErr result (λ h. ChangesSome birth dict.new.terms pool.old pool.new root h.root) }
{
    let mut draft = Draft {
        root,
        added: 0,
        removed: 0,
    };
    let mut left = operations;
    while let Some((operation, rest)) = left.split_first() {
        match operate(alloc, dict, pool, draft.root, operation, birth) {
            Ok(done) => {
                draft = Draft {
                    root: done.root,
                    added: draft.added + done.added as u128,
                    removed: draft.removed + done.removed as u128,
                };
            }
            Err(half) => return Err(half),
        }
        left = rest;
    }
    Ok(draft)
}

/// Takes back what was done of an update.
fn give_up(pool: &mut Pool, half: HalfDone, birth: u64) -> Refusal
    requires { IsDraftAt pool.old half.root }
    ensures undoes { UndoesAll birth pool.old pool.new (tree_at pool.old half.root) }
    ensures refused { result ≡ NoMemory }
{
    take_back(pool, half.root, birth);
    Refusal::NoMemory
}

/// Takes the operations in their order, each on what the one before it left, as one change of a
/// graph's tree of an earlier commit: nodes are made at the commit `birth`, and older ones are copied
/// and set aside. Memory is wanted for the keys of an operation's triples or instances, for new terms
/// and for nodes; that no number is left counts as want of memory. Where it is refused, the pool is as
/// it was, but that there may be more room; terms that were given numbers keep them.
pub fn patch(
    alloc: Global,
    dict: &mut Dict,
    pool: &mut Pool,
    root: Option<u32>,
    operations: &[Op],
    birth: u64,
) -> Result<Draft, Refusal>
    requires graph { IsStaged dict.old.terms pool.old root }
    requires earlier { IsEarlier birth pool.old (tree_at pool.old root) }
    requires none_aside { aside_count pool.old ≡ 0 }
    ensures grows { Grows dict.old dict.new }
    ensures only { GivesOnly (IsInserted operations.now) dict.old.terms dict.new.terms }
    ensures ok { IfOk result (Patches birth dict.old.terms dict.new.terms pool.old pool.new root
        operations.now) }
    ensures refused { IfErr result (λ r. r ≡ NoMemory) }
    ensures kept { OnErr result (Restores pool.old pool.new) }
{
    // A number that is free has no mark, which is what makes the way back exact.
    let _used = pool.nodes_in_use();
    match operate_all(alloc, dict, pool, root, operations, birth) {
        Ok(draft) => Ok(draft),
        Err(half) => Err(give_up(pool, half, birth)),
    }
}
