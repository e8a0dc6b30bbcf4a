//! A graph as a tree of an earlier commit, and the tree after an update.
ghost use Rattle.std.specs.Prelude.{◌≡◌, IfOk};
ghost use Rattle.gs_pool.specs.Pool.{aside_count};
ghost use Rattle.gs_staging.specs.Staging.{IsStaged};

use gs_dict::{Dict, TermId};
use gs_event::Op;
use gs_keys::ByText;
use gs_model::Refusal;
use gs_patch::{Draft, patch};
use gs_pool::{Key, Pool};
use gs_staging::stage;
use gs_term::{TermText, Triple};
use gs_tree::next_keys;
use gs_triple_lists::TripleList;
use std::alloc::Global;

/// Whether a number is a term's.
fn is_term(dict: &Dict, number: u32, term: &TermText) -> bool {
    dict.is_number_of(TermId { number }, term)
}

/// Whether a key is a triple's.
fn is_key(dict: &Dict, key: Key, triple: &Triple) -> bool {
    is_term(dict, key.subject, triple.subject())
        && is_term(dict, key.predicate, triple.predicate())
        && is_term(dict, key.object, triple.object())
}

/// Whether the tree has the keys of exactly these triples, which rise.
fn has_just(
    alloc: Global,
    dict: &Dict,
    pool: &Pool,
    root: Option<u32>,
    triples: &[Triple],
) -> Result<bool, Refusal>
    requires { IsStaged dict.now.terms pool.now root }
{
    let mut keys = Vec::new(alloc);
    let most = triples.len().saturating_add(1);
    next_keys(pool, &ByText::new(dict), root, None, most, &mut keys)?;
    if keys.len() != triples.len() {
        return Ok(false);
    }
    for (key, triple) in keys.iter().zip(triples) {
        if !is_key(dict, *key, triple) {
            return Ok(false);
        }
    }
    Ok(true)
}

/// The tree of these triples, made at commit 1, after an update at commit 2.
fn patched(
    alloc: Global,
    dict: &mut Dict,
    pool: &mut Pool,
    triples: &TripleList,
    operations: &[Op],
) -> Result<Draft, Refusal>
    requires { aside_count pool.old ≡ 0 }
    ensures { IfOk result (λ draft. IsStaged dict.new.terms pool.new draft.root) }
{
    let merged = stage(alloc, dict, pool, None, triples, 1)?;
    patch(alloc, dict, pool, merged.root, operations, 2)
}

/// Whether the update leaves exactly the triples wanted, and says so many, with a dictionary and a pool that
/// are lent.
fn is_left_in(
    alloc: Global,
    dict: &mut Dict,
    pool: &mut Pool,
    triples: &TripleList,
    operations: &[Op],
    wanted: &[Triple],
    counts: (u128, u128),
) -> Result<bool, Refusal>
    requires { aside_count pool.old ≡ 0 }
{
    let draft = patched(alloc, dict, pool, triples, operations)?;
    let (added, removed) = counts;
    if draft.added != added || draft.removed != removed {
        return Ok(false);
    }
    has_just(alloc, dict, pool, draft.root, wanted)
}

/// Whether the update leaves exactly the triples wanted, which rise, of the graph of these triples, and
/// says that so many came and so many went.
pub fn is_left(
    alloc: Global,
    triples: &TripleList,
    operations: &[Op],
    wanted: &[Triple],
    added: u128,
    removed: u128,
) -> Result<bool, Refusal> {
    let mut dict = Dict::new(alloc, 1, u32::MAX)?;
    let mut pool = Pool::new(alloc, u32::MAX);
    let counts = (added, removed);
    let answer = is_left_in(
        alloc, &mut dict, &mut pool, triples, operations, wanted, counts,
    );
    drop(pool);
    drop(dict);
    answer
}
