//! A graph as a tree of keys, and what is left of it without the instances of patterns.
ghost use Rattle.std.specs.Prelude.{◌≡◌, true, OnOk};
ghost use Rattle.std.specs.Bool.{Decides};
ghost use Rattle.gs_tree.specs.Keys.{AllKeys};
ghost use Rattle.gs_keys.specs.Texts.{IsGiven};

use gs_dict::{Dict, TermId};
use gs_keys::ByText;
use gs_match::{Solved, solve_counted};
use gs_model::Refusal;
use gs_ntwrite::line;
use gs_pool::{Key, Pool};
use gs_term::{Pattern, Triple};
use gs_tree::{is_rising, union};
use std::alloc::Global;

/// Whether the dictionary has each number of a key.
fn is_given(dict: &Dict, key: Key) -> bool
    ensures { Decides result (IsGiven dict.now.terms key) }
{
    let subject = dict.has(TermId {
        number: key.subject,
    });
    let predicate = dict.has(TermId {
        number: key.predicate,
    });
    let object = dict.has(TermId { number: key.object });
    subject && predicate && object
}

/// Whether it has each number of some keys.
fn are_given(dict: &Dict, keys: &[Key]) -> bool
    ensures { result ≡ true → AllKeys (IsGiven dict.now.terms) keys.now }
{
    let Some((key, rest)) = keys.split_first() else {
        return true;
    };
    is_given(dict, *key) && are_given(dict, rest)
}

/// The key of a triple, whose terms are given numbers.
fn key_of(dict: &mut Dict, triple: &Triple) -> Result<Key, Refusal> {
    let object = dict.intern(triple.object())?;
    let predicate = dict.intern(triple.predicate())?;
    let subject = dict.intern(triple.subject())?;
    Ok(Key {
        subject: subject.number,
        predicate: predicate.number,
        object: object.number,
    })
}

/// The keys of triples.
fn keys_of(alloc: Global, dict: &mut Dict, triples: &[Triple]) -> Result<Vec<Key>, Refusal> {
    let mut keys = Vec::new(alloc);
    for triple in triples {
        keys.push(key_of(dict, triple)?)?;
    }
    Ok(keys)
}

/// The keys of the instances in the graph of these keys, which rise, and how many were looked at. The
/// graph's tree is made in a pool that is lent.
fn instances_in(
    alloc: Global,
    pool: &mut Pool,
    dict: &Dict,
    keys: &[Key],
    patterns: &[Pattern],
) -> Result<Solved, Refusal> {
    let order = ByText::new(dict);
    if !is_rising(&order, keys) || !are_given(dict, keys) {
        return Err(Refusal::Syntax(0));
    }
    let merged = union(pool, &order, None, keys, 0, 0)?;
    solve_counted(alloc, pool, merged.root, dict, patterns)
}

/// The same in a pool of its own.
fn instances(
    alloc: Global,
    dict: &Dict,
    keys: &[Key],
    patterns: &[Pattern],
) -> Result<Solved, Refusal> {
    let mut pool = Pool::new(alloc, u32::MAX);
    let solved = instances_in(alloc, &mut pool, dict, keys, patterns);
    drop(pool);
    solved
}

/// Whether a list has this key next.
fn is_next(found: &[Key], next: usize, key: Key) -> bool {
    match found.get(next) {
        None => false,
        Some(other) => {
            other.subject == key.subject
                && other.predicate == key.predicate
                && other.object == key.object
        }
    }
}

/// Adds the lines of the triples whose keys are not found. Whether all that are found come in the order
/// of the triples, and each once.
fn push_left(
    triples: &[Triple],
    keys: &[Key],
    found: &[Key],
    bytes: &mut Vec<u8>,
) -> Result<bool, Refusal> {
    let mut next = 0usize;
    for (triple, key) in triples.iter().zip(keys.iter()) {
        if is_next(found, next, *key) {
            next = next.saturating_add(1);
        } else {
            line(triple, bytes)?;
        }
    }
    Ok(next >= found.len())
}

/// The lines that are left, with the dictionary of the graph.
fn left_in(
    alloc: Global,
    dict: &mut Dict,
    triples: &[Triple],
    patterns: &[Pattern],
) -> Result<Vec<u8>, Refusal> {
    let keys = keys_of(alloc, dict, triples)?;
    let found = instances(alloc, dict, keys.as_slice(), patterns)?.keys;
    let mut bytes = Vec::new(alloc);
    if !push_left(triples, keys.as_slice(), found.as_slice(), &mut bytes)? {
        return Err(Refusal::StoreFull);
    }
    Ok(bytes)
}

/// The lines of the triples that are no instances of the patterns, in a graph of rising triples.
/// The instances must come in the graph's order, and each once.
pub fn left_by(
    alloc: Global,
    triples: &[Triple],
    patterns: &[Pattern],
) -> Result<Vec<u8>, Refusal> {
    let mut dict = Dict::new(alloc, 1, u32::MAX)?;
    let left = left_in(alloc, &mut dict, triples, patterns);
    drop(dict);
    left
}

/// How many keys the search looks at, with the dictionary of the graph.
fn looked_in(
    alloc: Global,
    dict: &mut Dict,
    triples: &[Triple],
    patterns: &[Pattern],
) -> Result<u64, Refusal> {
    let keys = keys_of(alloc, dict, triples)?;
    let solved = instances(alloc, dict, keys.as_slice(), patterns)?;
    Ok(solved.looked)
}

/// How many keys the search for the instances looks at, in a graph of rising triples.
pub fn looked_by(alloc: Global, triples: &[Triple], patterns: &[Pattern]) -> Result<u64, Refusal> {
    let mut dict = Dict::new(alloc, 1, u32::MAX)?;
    let looked = looked_in(alloc, &mut dict, triples, patterns);
    drop(dict);
    looked
}
