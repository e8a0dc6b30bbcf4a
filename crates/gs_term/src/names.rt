//! Names of graphs, and what a request names.
ghost use Rattle.std.specs.Prelude.{◌≡◌};
ghost use Rattle.std.specs.Str.{bytes_eq};
ghost use Rattle.std.proofs.Common.{rules};
ghost use Rattle.std.specs.Cmp.{partial_order_from_own_ties};
ghost use Rattle.std.specs.Cmp.Rules.{comparing};
ghost use Rattle.gs_term.specs.Making.{Names};
ghost use Rattle.gs_term.specs.Names.{in_brackets, name_cmp};
ghost use Rattle.gs_term.specs.NameOrder.{name_ties};

use crate::terms::iri_bytes;
use gs_iri::is_absolute;
use gs_model::{MAX_NAME_BYTES, Refusal};
use std::alloc::{AllocError, Global};
use std::cmp::Ordering;
use std::marker::Model;

/// The IRI of a named graph, kept between `<` and `>`, as it stands in a line. A contract sees the bytes
/// of the IRI.
#[derive(Debug, Drop)]
pub struct GraphName {
    text: Vec<u8>,
}

impl Model for GraphName {
    ghost use Rattle.std.specs.Prelude.{List, ℕ};
    ghost use Rattle.gs_term.specs.Names.{without_brackets, IsNameText};

    ghost Value = { List ℕ };

    ghost view = { λ n. without_brackets n.text.items };

    ghost invariant = { λ n. IsNameText n.text.items };
}

impl GraphName {
    ghost use Rattle.gs_model.specs.Iris.{IsName};

    /// The name of an absolute IRI of at most 2,048 bytes. One exact allocation.
    pub fn new(alloc: Global, text: &str) -> Result<GraphName, Refusal>
        ensures { Names text.now result }
    {
        if !is_absolute(text) {
            return Err(Refusal::Syntax(0));
        }
        if text.len() > MAX_NAME_BYTES {
            return Err(Refusal::TermTooLong);
        }
        let text = iri_bytes(alloc, text)?;
        Ok(GraphName { text })
    }

    /// The bytes of the IRI.
    pub fn as_bytes(&self) -> &[u8]
        ensures text { result.now ≡ self.now }
        ensures name { IsName self.now }
    {
        let end = self.text.len() - 1;
        &self.text.as_slice()[1..end]
    }

    /// The name as it stands in a line: between `<` and `>`. Names are ordered by these bytes.
    pub fn in_brackets(&self) -> &[u8]
        ensures { result.now ≡ in_brackets self.now }
    {
        self.text.as_slice()
    }
}

impl Clone for GraphName {
    ghost is_clone = { λ s t. t ≡ s };

    fn clone(&self) -> Result<GraphName, AllocError> {
        let text = self.text.clone()?;
        Ok(GraphName { text })
    }
}

impl PartialEq for GraphName {
    ghost eq = { bytes_eq };

    ghost laws = { Prim.search (comparing, rules) };

    fn eq(&self, other: &GraphName) -> bool {
        self.text.as_slice() == other.text.as_slice()
    }
}

impl Eq for GraphName {
    ghost laws = { Prim.search (comparing, rules) };
}

impl Ord for GraphName {
    ghost cmp = { name_cmp };

    ghost total = { Prim.search (comparing, rules) };

    ghost matches_partial_cmp = { Prim.search (comparing, rules) };

    ghost matches_eq = { name_ties };

    fn cmp(&self, other: &GraphName) -> Ordering {
        self.text.as_slice().cmp(&other.text.as_slice())
    }
}

impl PartialOrd for GraphName {
    ghost use Rattle.std.specs.Ordering.{as_partial_cmp};

    ghost partial_cmp = { as_partial_cmp name_cmp };

    ghost laws = { partial_order_from_own_ties (Prim.search (comparing, rules)) name_ties };

    fn partial_cmp(&self, other: &GraphName) -> Option<Ordering> {
        Some(self.cmp(other))
    }
}

/// The graph that a request is about (Graph Store Protocol, section 4).
#[derive(Clone, Debug, PartialEq, Eq, Drop)]
pub enum Target {
    /// The default graph, which always exists.
    Default,
    /// The graph of this name.
    Named(GraphName),
}
