//! A set of numbers, as a tree over a pool of its own. A number stands as the object of a key.
ghost use Rattle.std.specs.Prelude.{◌≡◌};
ghost use Rattle.gs_tree_tests.specs.ObjectOrder.{by_object};

use gs_model::Refusal;
use gs_pool::{Key, Node, Pool};
use gs_tree::{KeyOrder, after, contains, count, insert, is_rising, next_keys, remove, union};
use std::alloc::Global;
use std::cmp::Ordering;
use std::marker::Model;

/// Keys in the order of their objects.
#[derive(Clone, Copy, Drop)]
pub struct ByObject;

impl KeyOrder for ByObject {
    ghost use Rattle.std.proofs.lemmas.Cmp.{nat_cmp_total};

    ghost compare = { λ o. by_object };

    ghost total = { λ o. record {
      antisymm = λ x y. nat_cmp_total.antisymm x.object y.object;
      trans = λ x y z. nat_cmp_total.trans x.object y.object z.object;
      congr = λ x y z. nat_cmp_total.congr x.object y.object z.object;
    } };

    fn compare(&self, a: Key, b: Key) -> Ordering {
        a.object.cmp(&b.object)
    }
}

/// The key of a number.
pub fn key(number: u32) -> Key {
    Key {
        subject: 1,
        predicate: 2,
        object: number,
    }
}

/// The numbers of a tree, and its pool.
#[derive(Drop)]
pub struct NumberSet {
    pool: Pool,
    root: Option<u32>,
}

impl Model for NumberSet {
    ghost use Rattle.std.specs.Prelude.{List};
    ghost use Rattle.gs_pool.specs.declared.nodes.Key.{Key};

    ghost Value = { List Key };

    ghost use Rattle.gs_tree.specs.Reading.{keys_at};
    ghost use Rattle.gs_tree.specs.Sets.{IsSetAt};
    ghost use Rattle.gs_tree_tests.specs.ObjectOrder.{by_object};

    ghost view = { λ s. keys_at s.pool s.root };

    ghost invariant = { λ s. IsSetAt by_object s.pool s.root };
}

impl NumberSet {
    /// The empty set.
    pub fn new(alloc: Global) -> NumberSet {
        NumberSet {
            pool: Pool::new(alloc, u32::MAX),
            root: None,
        }
    }

    /// The root of the set's tree, by which it can be walked after the set has changed.
    pub fn root(&self) -> Option<u32> {
        self.root
    }

    /// The node of a number that is in use, whatever trees it is in.
    pub fn node(&self, id: u32) -> Option<Node> {
        if self.pool.is_in_use(id) {
            Some(self.pool.get(id))
        } else {
            None
        }
    }

    /// Whether the set has a number.
    pub fn contains(&self, number: u32) -> bool {
        contains(&self.pool, &ByObject, self.root, key(number))
    }

    /// The least number of the set above this one.
    pub fn after(&self, number: u32) -> Option<u32> {
        let found = after(&self.pool, &ByObject, self.root, key(number))?;
        Some(found.object)
    }

    /// How many numbers the set has.
    pub fn count(&self) -> usize {
        count(&self.pool, self.root)
    }

    /// How many nodes are in use.
    pub fn nodes_in_use(&self) -> u64 {
        self.pool.nodes_in_use()
    }

    /// The next keys above a number, or from the first one on, and `most` of them at most.
    pub fn next_keys(
        &self,
        from: Option<u32>,
        most: usize,
        keys: &mut Vec<Key>,
    ) -> Result<(), Refusal> {
        let above = match from {
            None => None,
            Some(number) => Some(key(number)),
        };
        next_keys(&self.pool, &ByObject, self.root, above, most, keys)?;
        Ok(())
    }

    /// Adds a number, by the commit of this number, and says whether the set lacked it.
    pub fn insert(&mut self, number: u32, commit: u64) -> Result<bool, Refusal> {
        let merged = insert(
            &mut self.pool,
            &ByObject,
            self.root,
            key(number),
            commit,
            commit,
        )?;
        self.root = merged.root;
        Ok(merged.added == 1)
    }

    /// Adds a run of keys by one union, by the commit of this number, and says how many of them the
    /// set lacked. `None` says that the run does not rise; then nothing is added.
    pub fn add_run(&mut self, run: &[Key], commit: u64) -> Result<Option<usize>, Refusal> {
        if !is_rising(&ByObject, run) {
            return Ok(None);
        }
        let merged = union(&mut self.pool, &ByObject, self.root, run, commit, commit)?;
        self.root = merged.root;
        Ok(Some(merged.added))
    }

    /// Takes a number out, by the commit of this number, and says whether the set had it.
    pub fn remove(&mut self, number: u32, commit: u64) -> Result<bool, Refusal> {
        let gone = key(number);
        if !contains(&self.pool, &ByObject, self.root, gone) {
            return Ok(false);
        }
        self.root = remove(&mut self.pool, &ByObject, self.root, gone, commit, commit)?;
        Ok(true)
    }
}
