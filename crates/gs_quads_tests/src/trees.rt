//! Two trees in one pool: that of one triple, and that of two others.
ghost use Rattle.std.specs.Prelude.{◌≡◌, ℕ, true, Option, IfOk, OnOk};
ghost use Rattle.std.specs.Bool.{Decides};
ghost use Rattle.gs_tree.specs.Keys.{AllKeys};
ghost use Rattle.gs_keys.specs.Texts.{IsGiven};
ghost use Rattle.gs_keys.specs.Roots.{IsGraphAt};
ghost use Rattle.gs_quads_tests.specs.Trees.{AreTrees};

use gs_dict::{Dict, TermId};
use gs_keys::ByText;
use gs_model::Refusal;
use gs_pool::{Key, Pool};
use gs_term::TermText;
use gs_tree::{is_rising, union};
use std::alloc::Global;

/// The root of a tree of one triple, and that of a tree of two others.
#[derive(Clone, Copy)]
pub struct Roots {
    pub one: Option<u32>,
    pub two: Option<u32>,
}

/// The key of the triple `<e:s> <e:p> <OBJECT>`, whose terms are given numbers: the object's first, so
/// that numbers do not rise as texts do.
fn key_of(alloc: Global, dict: &mut Dict, object: &str) -> Result<Key, Refusal> {
    let object = TermText::iri(alloc, object)?;
    let predicate = TermText::iri(alloc, "e:p")?;
    let subject = TermText::iri(alloc, "e:s")?;
    let object = dict.intern(&object)?;
    let predicate = dict.intern(&predicate)?;
    let subject = dict.intern(&subject)?;
    Ok(Key {
        subject: subject.number,
        predicate: predicate.number,
        object: object.number,
    })
}

/// The keys of such triples.
fn keys_of(alloc: Global, dict: &mut Dict, objects: &[&str]) -> Result<Vec<Key>, Refusal> {
    let mut keys = Vec::new(alloc);
    for object in objects {
        keys.push(key_of(alloc, dict, *object)?)?;
    }
    Ok(keys)
}

/// Whether the dictionary has each number of a key.
fn is_given(dict: &Dict, key: Key) -> bool
    ensures { Decides result (IsGiven dict.now.terms key) }
{
    let subject = dict.has(TermId {
        number: key.subject,
    });
    let predicate = dict.has(TermId {
        number: key.predicate,
    });
    let object = dict.has(TermId { number: key.object });
    subject && predicate && object
}

/// Whether it has each number of some keys.
fn are_given(dict: &Dict, keys: &[Key]) -> bool
    ensures { result ≡ true → AllKeys (IsGiven dict.now.terms) keys.now }
{
    let Some((key, rest)) = keys.split_first() else {
        return true;
    };
    is_given(dict, *key) && are_given(dict, rest)
}

/// The root of a tree of these keys, which rise. Each graph that the pool had it has still.
fn plant(pool: &mut Pool, dict: &Dict, keys: &[Key]) -> Result<Option<u32>, Refusal>
    ensures graph { IfOk result (IsGraphAt dict.now.terms pool.new) }
    ensures others { OnOk result ((root : Option ℕ) → IsGraphAt dict.now.terms pool.old root
        → IsGraphAt dict.now.terms pool.new root) }
{
    let order = ByText::new(dict);
    if !is_rising(&order, keys) || !are_given(dict, keys) {
        return Err(Refusal::Syntax(0));
    }
    let merged = union(pool, &order, None, keys, 0, 0)?;
    Ok(merged.root)
}

/// Trees of these and of those keys.
fn plant_both(pool: &mut Pool, dict: &Dict, these: &[Key], those: &[Key]) -> Result<Roots, Refusal>
    ensures { IfOk result (AreTrees dict.now.terms pool.new) }
{
    let one = plant(pool, dict, these)?;
    let two = plant(pool, dict, those)?;
    Ok(Roots { one, two })
}

/// The tree of the triple with the object `e:1`, and that of the two with `e:2` and `e:3`.
pub fn two_trees(alloc: Global, dict: &mut Dict, pool: &mut Pool) -> Result<Roots, Refusal>
    ensures { IfOk result (AreTrees dict.new.terms pool.new) }
{
    let those = keys_of(alloc, dict, &["e:2", "e:3"])?;
    let these = keys_of(alloc, dict, &["e:1"])?;
    plant_both(pool, dict, &these, &those)
}
