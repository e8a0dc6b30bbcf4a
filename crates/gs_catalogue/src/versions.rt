//! A version of a graph.
ghost use Rattle.std.specs.Prelude.{◌≡◌};
ghost use Rattle.gs_catalogue.specs.Catalogues.{empty_version};

/// A version of a graph: the root of its tree, and how many triples it has. That the tree has as many is
/// for the store to see to.
#[derive(Clone, Copy, Debug, PartialEq, Eq)]
pub struct GraphVersion {
    pub root: Option<u32>,
    pub triples: u64,
}

impl GraphVersion {
    /// That of a graph with no triple, whose tree has no node.
    pub fn empty() -> GraphVersion
        ensures { result ≡ empty_version }
    {
        GraphVersion {
            root: None,
            triples: 0,
        }
    }
}
