//! An upload with a dictionary and a pool of its own.
ghost use Rattle.std.specs.Prelude.{◌≡◌};

use gs_dict::{Dict, TermId};
use gs_keys::ByText;
use gs_model::Refusal;
use gs_pool::{Key, Pool};
use gs_staging::stage;
use gs_term::{TermText, Triple};
use gs_tree::next_keys;
use gs_triple_lists::TripleList;
use std::alloc::Global;
use std::marker::Model;

/// The tree of an upload, and the dictionary and the pool that it stands in.
#[derive(Drop)]
pub struct Upload {
    dict: Dict,
    pool: Pool,
    root: Option<u32>,
}

impl Model for Upload {
    ghost use Rattle.std.specs.Prelude.{List};
    ghost use Rattle.gs_pool.specs.declared.nodes.Key.{Key};

    ghost Value = { List Key };

    ghost use Rattle.gs_tree.specs.Reading.{keys_at};
    ghost use Rattle.gs_staging.specs.Staging.{IsStaged};

    ghost view = { λ u. keys_at u.pool u.root };

    ghost invariant = { λ u. IsStaged u.dict.terms u.pool u.root };
}

/// Whether a number is a term's.
fn is_term(dict: &Dict, number: u32, term: &TermText) -> bool {
    dict.is_number_of(TermId { number }, term)
}

/// Whether a key is a triple's.
fn is_key(dict: &Dict, key: Key, triple: &Triple) -> bool {
    is_term(dict, key.subject, triple.subject())
        && is_term(dict, key.predicate, triple.predicate())
        && is_term(dict, key.object, triple.object())
}

impl Upload {
    /// One without a triple. Terms and nodes have numbers up to these at most.
    pub fn new(alloc: Global, last_term: u32, last_node: u32) -> Result<Upload, Refusal> {
        Ok(Upload {
            dict: Dict::new(alloc, 1, last_term)?,
            pool: Pool::new(alloc, last_node),
            root: None,
        })
    }

    /// Begins again without a triple. Terms keep their numbers, and nodes stay in use.
    pub fn begin(&mut self) {
        self.root = None;
    }

    /// Adds triples, and says how many were new.
    pub fn add(&mut self, alloc: Global, triples: &TripleList) -> Result<usize, Refusal> {
        let merged = stage(alloc, &mut self.dict, &mut self.pool, self.root, triples, 1)?;
        self.root = merged.root;
        Ok(merged.added)
    }

    /// How many nodes are in use.
    pub fn nodes_in_use(&self) -> u64 {
        self.pool.nodes_in_use()
    }

    /// How many terms have numbers.
    pub fn count_terms(&self) -> usize {
        self.dict.len()
    }

    /// Whether the tree has the keys of exactly these triples, which rise.
    pub fn is_list(&self, alloc: Global, triples: &[Triple]) -> Result<bool, Refusal> {
        let mut keys = Vec::new(alloc);
        let most = triples.len().saturating_add(1);
        next_keys(
            &self.pool,
            &ByText::new(&self.dict),
            self.root,
            None,
            most,
            &mut keys,
        )?;
        if keys.len() != triples.len() {
            return Ok(false);
        }
        for (key, triple) in keys.iter().zip(triples) {
            if !is_key(&self.dict, *key, triple) {
                return Ok(false);
            }
        }
        Ok(true)
    }
}
