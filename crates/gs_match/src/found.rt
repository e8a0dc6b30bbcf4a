//! The set of the keys that are found.
ghost use Rattle.std.specs.Prelude.{◌≡◌, ◌+◌, [], ◌∷◌, None, OnOk, IfOk};
ghost use Rattle.gs_model.specs.Limits.{last_node};
ghost use Rattle.gs_tree.specs.Keys.{IsRising};
ghost use Rattle.gs_keys.specs.Texts.{key_cmp};
ghost use Rattle.gs_match.specs.Found.{IsFound, found_in, GainsKeys};

use gs_keys::ByText;
use gs_pool::{Key, Pool};
use gs_tree::{count, insert, is_rising, next_keys, union};
use std::alloc::{AllocError, Global};

/// Keys, each once, as a tree over a pool of its own.
#[derive(Drop)]
pub struct Found {
    pub pool: Pool,
    pub root: Option<u32>,
}

impl Found {
    /// None yet.
    pub fn new(alloc: Global) -> Found
        ensures root { result.root ≡ None }
        ensures limit { result.pool.limit ≡ last_node + 1 }
    {
        Found {
            pool: Pool::new(alloc, u32::MAX),
            root: None,
        }
    }

    /// Adds a key.
    fn add(&mut self, order: &ByText, key: Key) -> Result<(), AllocError>
        requires { IsFound order.now.dict.now.terms self.old }
        ensures { OnOk result (GainsKeys order.now.dict.now.terms self.old self.new (key ∷ [])) }
    {
        let merged = insert(&mut self.pool, order, self.root, key, 0, 0)?;
        self.root = merged.root;
        Ok(())
    }

    /// Adds keys that rise, by one union.
    fn add_run(&mut self, order: &ByText, run: &[Key]) -> Result<(), AllocError>
        requires set { IsFound order.now.dict.now.terms self.old }
        requires rising { IsRising (key_cmp order.now.dict.now.terms) run.now }
        ensures { OnOk result (GainsKeys order.now.dict.now.terms self.old self.new run.now) }
    {
        let merged = union(&mut self.pool, order, self.root, run, 0, 0)?;
        self.root = merged.root;
        Ok(())
    }

    /// Adds some keys, one by one.
    fn add_each(&mut self, order: &ByText, keys: &[Key]) -> Result<(), AllocError>
        requires { IsFound order.now.dict.now.terms self.old }
        ensures { OnOk result (GainsKeys order.now.dict.now.terms self.old self.new keys.now) }
    {
        for key in keys {
            self.add(order, *key)?;
        }
        Ok(())
    }

    /// Adds some keys.
    pub fn add_all(&mut self, order: &ByText, keys: &[Key]) -> Result<(), AllocError>
        requires { IsFound order.now.dict.now.terms self.old }
        ensures { OnOk result (GainsKeys order.now.dict.now.terms self.old self.new keys.now) }
    {
        if is_rising(order, keys) {
            self.add_run(order, keys)
        } else {
            self.add_each(order, keys)
        }
    }

    /// The keys, in order.
    pub fn list(&self, alloc: Global, order: &ByText) -> Result<Vec<Key>, AllocError>
        requires { IsFound order.now.dict.now.terms self.now }
        ensures { IfOk result (λ list. list.items ≡ found_in self.now) }
    {
        let mut list = Vec::new(alloc);
        let many = count(&self.pool, self.root);
        next_keys(&self.pool, order, self.root, None, many, &mut list)?;
        Ok(list)
    }
}
