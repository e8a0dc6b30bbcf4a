//! A graph that is filled piece by piece: a dictionary, a pool and a root.
ghost use Rattle.std.specs.Prelude.{◌≡◌, ◌<◌, true, OnOk};
ghost use Rattle.std.specs.Bool.{Decides};
ghost use Rattle.gs_tree.specs.Keys.{IsRising, AllKeys};
ghost use Rattle.gs_keys.specs.Texts.{key_cmp, IsGiven};
ghost use Rattle.gs_storage_bench.specs.Stored.{GrowsByTerms, MayUnite};

use crate::document::Terms;
use gs_dict::{Dict, GUESSED_TOGETHER, NO_TERM, TermId};
use gs_keys::ByText;
use gs_lines::{Piece, next_piece};
use gs_model::Refusal;
use gs_pool::{Key, Pool};
use gs_staging::put_in_order;
use gs_tree::{is_rising, next_keys, union};
use std::alloc::{AllocError, Global};
use std::marker::Model;

/// The seed of the dictionary's hash.
const SEED: u64 = 20_240_229;

/// A set of keys in the order of the texts of their terms, each of which has a number.
#[derive(Drop)]
pub struct Graph {
    dict: Dict,
    pool: Pool,
    root: Option<u32>,
    /// The number of the last subject.
    near: TermId,
}

impl Model for Graph {
    ghost use Rattle.gs_dict.specs.Numbering.{Numbered, numbered_code};

    ghost Value = { Numbered };

    ghost coded = { numbered_code };

    ghost use Rattle.gs_storage_bench.specs.Stored.{IsStoredSet};

    ghost view = { λ g. g.dict };

    ghost invariant = { λ g. IsStoredSet g.dict.terms g.pool g.root };
}

/// The numbers of three terms, of which the subject's is tried first, and a guess for the object's.
fn numbers(dict: &mut Dict, near: TermId, guess: TermId, terms: &Terms) -> Result<Key, Refusal>
    ensures { GrowsByTerms dict.old dict.new }
{
    let subject = dict.intern_near(near, &terms.subject)?;
    let predicate = dict.intern(&terms.predicate)?;
    let object = dict.intern_near(guess, &terms.object)?;
    Ok(Key {
        subject: subject.number,
        predicate: predicate.number,
        object: object.number,
    })
}

/// Whether the dictionary has each number of a key.
fn is_given(dict: &Dict, key: Key) -> bool
    ensures { Decides result (IsGiven dict.now.terms key) }
{
    let subject = dict.has(TermId {
        number: key.subject,
    });
    let predicate = dict.has(TermId {
        number: key.predicate,
    });
    let object = dict.has(TermId { number: key.object });
    subject && predicate && object
}

/// Whether it has each number of some keys.
fn are_given(dict: &Dict, keys: &[Key]) -> bool
    ensures { result ≡ true → AllKeys (IsGiven dict.now.terms) keys.now }
{
    let Some((key, rest)) = keys.split_first() else {
        return true;
    };
    is_given(dict, *key) && are_given(dict, rest)
}

/// Whether keys rise, and have numbers that were given.
fn may_unite(dict: &Dict, keys: &[Key]) -> bool
    ensures { result ≡ true → MayUnite dict.now.terms keys.now }
{
    is_rising(&ByText::new(dict), keys) && are_given(dict, keys)
}

impl Graph {
    /// One without triples.
    pub fn new(alloc: Global) -> Result<Graph, Refusal> {
        Ok(Graph {
            dict: Dict::new(alloc, SEED, u32::MAX)?,
            pool: Pool::new(alloc, u32::MAX),
            root: None,
            near: NO_TERM,
        })
    }

    /// How many terms have a number.
    pub fn terms(&self) -> usize {
        self.dict.len()
    }

    /// How many nodes are in use.
    pub fn nodes(&self) -> u64 {
        self.pool.nodes_in_use()
    }

    /// Guesses of the numbers of the first objects of these. Fewer than are guessed together get none.
    pub fn guesses(&self, piece: &[Terms]) -> [TermId; GUESSED_TOGETHER] {
        if piece.len() < GUESSED_TOGETHER {
            return [NO_TERM; GUESSED_TOGETHER];
        }
        let mut objects = [&piece[0].object; GUESSED_TOGETHER];
        for (place, terms) in objects.iter_mut().zip(piece.iter()) {
            *place = &terms.object;
        }
        self.dict.guesses(&objects)
    }

    /// The key of three terms, which are given numbers.
    pub fn key_of(&mut self, guess: TermId, terms: &Terms) -> Result<Key, Refusal> {
        let key = numbers(&mut self.dict, self.near, guess, terms)?;
        self.near = TermId {
            number: key.subject,
        };
        Ok(key)
    }

    /// Puts keys in their order, each once, as those of an upload are.
    pub fn sort(&self, keys: &mut Vec<Key>) {
        // That no term has two numbers.
        let _terms = self.dict.len();
        if are_given(&self.dict, keys) {
            put_in_order(&ByText::new(&self.dict), keys);
        }
    }

    /// Whether keys rise, and have numbers that were given, as `unite` asks for.
    pub fn may_unite(&self, keys: &[Key]) -> bool {
        may_unite(&self.dict, keys)
    }

    /// Adds a run of keys, by the commit of this number. A commit of 0 copies no node.
    pub fn unite(&mut self, keys: &[Key], commit: u64) -> Result<usize, Refusal> {
        if !may_unite(&self.dict, keys) {
            return Err(Refusal::Syntax(0));
        }
        let order = ByText::new(&self.dict);
        let merged = union(&mut self.pool, &order, self.root, keys, commit, commit)?;
        self.root = merged.root;
        Ok(merged.added)
    }

    /// Appends the keys above `from`, or all where it is `None`, and `most` of them at most.
    pub fn next_keys(
        &self,
        from: Option<Key>,
        most: usize,
        keys: &mut Vec<Key>,
    ) -> Result<(), AllocError> {
        let order = ByText::new(&self.dict);
        next_keys(&self.pool, &order, self.root, from, most, keys)
    }

    /// The lines of the keys above `from`, or of all where it is `None`, and `most` of them at most, as a
    /// read gives them.
    #[tactic(auto, using(gs_keys::proofs::RootLemmas::set_graph))]
    pub fn next_lines(
        &self,
        alloc: Global,
        from: Option<Key>,
        most: u32,
    ) -> Result<Piece, AllocError>
        requires { 0 < most }
    {
        next_piece(alloc, &self.dict, &self.pool, self.root, from, most)
    }
}
