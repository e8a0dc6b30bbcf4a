//! The names under which a session reads what it is given.
ghost use Rattle.std.specs.Prelude.{◌≡◌, ◌++◌, ℕ, List, true, codes, string_bytes, IfOk};
ghost use Rattle.gs_model.specs.Bases.{is_base};
ghost use Rattle.gs_model.specs.Iris.{is_absolute};
ghost use Rattle.gs_talk.specs.Bodies.{text_base};

use gs_names::Places;
use gs_term::Target;
use std::alloc::{AllocError, Global};
use std::marker::Model;

/// A store's base, and what is made from it once. A contract sees the base.
#[derive(Drop)]
pub struct Site {
    base: String,
    /// The name of the store itself.
    store: String,
    places: Places,
}

impl Model for Site {
    ghost Value = { List ℕ };

    ghost view = { λ s. string_bytes s.base };

    ghost invariant = { λ s. (is_base (string_bytes s.base) ≡ true) × (string_bytes s.store ≡ string_bytes s.base ++ codes "/store") };
}

impl Site {
    /// The site of a store with this base.
    pub fn new(alloc: Global, base: &str) -> Result<Site, AllocError>
        requires { is_base base.now ≡ true }
        ensures { IfOk result (λ s. s ≡ base.now) }
    {
        let mut name = String::new(alloc);
        name.push_str(base)?;
        let mut store = String::new(alloc);
        store.push_str(base)?;
        store.push_str("/store")?;
        // The routes come last, so that no refusal has to give them back.
        Ok(Site {
            base: name,
            store,
            places: Places::new(alloc)?,
        })
    }

    /// The base.
    pub fn base(&self) -> &[u8]
        ensures { result.now ≡ self.now }
    {
        self.base.as_bytes()
    }

    /// The routes of the store's paths.
    pub fn places(&self) -> &Places {
        &self.places
    }

    /// The base of the text of a body: the name of its graph, or that of the store.
    pub fn text_base<'a>(&'a self, graph: &'a Option<Target>) -> &'a str
        ensures value { result.now ≡ text_base self.now graph.now }
        ensures absolute { is_absolute result.now ≡ true }
    {
        match graph {
            Some(Target::Named(name)) => match str::from_utf8(name.as_bytes()) {
                Ok(text) => text,
                Err(_) => unreachable!(),
            },
            _ => self.store.as_str(),
        }
    }
}
