//! The prefixes that are declared.
ghost use Rattle.std.specs.Prelude.{◌≡◌, true, OnOk, IfSome, option_copied, string_bytes};
ghost use Rattle.std.specs.FinMap as finite;
ghost use Rattle.gs_model.specs.Iris.{is_absolute};

use std::alloc::{AllocError, Global};
use std::collections::BTreeMap;
use std::marker::Model;

/// An absolute IRI.
#[derive(Drop)]
struct Absolute {
    text: String,
    ghost absolute: { is_absolute (string_bytes text) ≡ true },
}

/// The IRI of each declared prefix, which is absolute. A contract sees the map.
#[derive(Drop)]
pub struct Prefixes {
    alloc: Global,
    iris: BTreeMap<String, Absolute>,
}

impl Model for Prefixes {
    ghost use Rattle.std.specs.FinMap as finite;
    ghost use Rattle.std.specs.Coded.{coded_ℕ, coded_list};
    ghost use Rattle.gs_triples.specs.Prefixes.{Prefixes as Declared};
    ghost use Rattle.gs_token_terms.specs.Prefixes.{prefix_texts};

    ghost Value = { Declared };

    ghost coded = { finite.code (coded_list coded_ℕ) (coded_list coded_ℕ) };

    ghost view = { λ p. prefix_texts p.iris };
}

impl Prefixes {
    /// No prefix is declared. Takes no memory.
    pub fn new(alloc: Global) -> Prefixes
        ensures { result ≡ finite.empty }
    {
        Prefixes {
            alloc,
            iris: BTreeMap::new(alloc),
        }
    }

    /// The IRI of a prefix. Logarithmic in the number of prefixes.
    pub fn get(&self, prefix: &str) -> Option<&str>
        ensures value { option_copied result ≡ finite.get self.now prefix.now }
        ensures absolute { IfSome result (λ i. is_absolute i.now ≡ true) }
    {
        match self.iris.get(prefix) {
            None => None,
            Some(iri) => Some(iri.text.as_str()),
        }
    }

    /// Declares a prefix, also where it was declared before.
    pub fn insert(&mut self, prefix: &str, iri: String) -> Result<(), AllocError>
        requires { is_absolute (string_bytes iri) ≡ true }
        ensures { OnOk result (self.new ≡ finite.insert self.old prefix.now (string_bytes iri)) }
    {
        let prefix = String::from_str(self.alloc, prefix)?;
        self.iris.insert(prefix, Absolute { text: iri })?;
        Ok(())
    }
}
