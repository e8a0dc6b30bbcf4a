//! Patterns of triples, which may have variables.
ghost use Rattle.std.specs.Prelude.{◌≡◌, IfOk};

use crate::terms::TermText;
use std::alloc::{AllocError, Global};
use std::marker::Model;

/// The name of a variable, without its mark: `?x` and `$x` have one name. A contract sees its bytes.
#[derive(Debug, Drop)]
pub struct VariableName {
    text: String,
}

impl Model for VariableName {
    ghost use Rattle.std.specs.Prelude.{List, ℕ, string_bytes};

    ghost Value = { List ℕ };

    ghost view = { λ n. string_bytes n.text };
}

impl VariableName {
    /// A name of these characters. One exact allocation.
    pub fn new(alloc: Global, name: &str) -> Result<VariableName, AllocError>
        ensures { IfOk result (λ n. n ≡ name.now) }
    {
        let text = String::from_str(alloc, name)?;
        Ok(VariableName { text })
    }

    /// The characters of the name.
    pub fn as_str(&self) -> &str
        ensures { result.now ≡ self.now }
    {
        self.text.as_str()
    }
}

/// What stands at one place of a pattern.
#[derive(Debug, Drop)]
pub enum Part {
    Term(TermText),
    Variable(VariableName),
}

/// A triple that may have variables (SPARQL 1.1 Query, section 18.1.5).
#[derive(Debug, Drop)]
pub struct Pattern {
    pub subject: Part,
    pub predicate: Part,
    pub object: Part,
}
