//! How much a store may hold.

/// The most that a store may hold: a write whose result has more is answered 507.
#[derive(Clone, Copy, Debug, PartialEq, Eq)]
pub struct Limits {
    /// Triples over all graphs.
    pub triples: u64,
    /// Names of graphs.
    pub names: u64,
}
