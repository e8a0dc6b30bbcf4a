//! How much a store may hold: a write whose result has more is answered 507.

/// Triples over all graphs.
pub const MAX_TRIPLES: u64 = 10_000_000;

/// Names of graphs.
pub const MAX_NAMES: u64 = 65_536;
