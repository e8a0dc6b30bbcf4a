//! A piece of triples into the tree of an upload.
ghost use Rattle.std.specs.Prelude.{◌≡◌, IfOk, IfErr, OnErr};
ghost use Rattle.gs_model.specs.declared.refusals.Refusal.TheVariants.{NoMemory};
ghost use Rattle.gs_tree.specs.Keys.{IsRising};
ghost use Rattle.gs_tree.specs.Sets.{IsSetAt, UnitesAt};
ghost use Rattle.gs_keys.specs.Texts.{key_cmp};
ghost use Rattle.gs_staging.specs.Keys.{Grows, GivesOnly, IsTermIn};
ghost use Rattle.gs_staging.specs.Staging.{IsStaged, Stages};

use crate::runs::run_of;
use gs_dict::Dict;
use gs_keys::ByText;
use gs_model::Refusal;
use gs_pool::{Key, Pool};
use gs_tree::{Merged, union};
use gs_triple_lists::TripleList;
use std::alloc::Global;

/// Puts a run of keys into a tree that no version has, in place.
fn unite(
    pool: &mut Pool,
    order: &ByText,
    root: Option<u32>,
    run: &[Key],
    birth: u64,
) -> Result<Merged, Refusal>
    requires set { IsSetAt (key_cmp order.now.dict.now.terms) pool.old root }
    requires rising { IsRising (key_cmp order.now.dict.now.terms) run.now }
    ensures ok { IfOk result (UnitesAt (key_cmp order.now.dict.now.terms) 0 birth pool.old pool.new
        root run.now) }
    ensures refused { IfErr result (λ r. r ≡ NoMemory) }
    ensures kept { OnErr result (pool.new ≡ pool.old) }
{
    Ok(union(pool, order, root, run, 0, birth)?)
}

/// Adds triples to the tree of an upload, and says how many of them it lacked: the whole list goes
/// in, or nothing. No version has the tree, so its nodes are written in place; the nodes that are
/// made are born at the commit `birth`. Memory is wanted for a number for each term of the list, for
/// a key for each triple, for its new terms, and for a node for each; that no number is left counts
/// as want of memory. Terms that were given numbers before a refusal keep them, which shows in the
/// dictionary alone.
pub fn stage(
    alloc: Global,
    dict: &mut Dict,
    pool: &mut Pool,
    root: Option<u32>,
    triples: &TripleList,
    birth: u64,
) -> Result<Merged, Refusal>
    requires staged { IsStaged dict.old.terms pool.old root }
    ensures grows { Grows dict.old dict.new }
    ensures only { GivesOnly (IsTermIn triples.now.items) dict.old.terms dict.new.terms }
    ensures ok { IfOk result (Stages birth dict.old.terms dict.new.terms pool.old pool.new root
        triples.now.items) }
    ensures refused { IfErr result (λ r. r ≡ NoMemory) }
    ensures kept { OnErr result (pool.new ≡ pool.old) }
{
    let keys = run_of(alloc, dict, triples)?;
    // That no term has two numbers.
    let _terms = dict.len();
    let order = ByText::new(dict);
    unite(pool, &order, root, keys.as_slice(), birth)
}
