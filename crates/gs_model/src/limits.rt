//! Limits, each with its unit.

/// The greatest number of a request or of a commit.
pub const LAST_NUMBER: u64 = 999_999_999_999_999_999;

/// The most bytes of a term's canonical text.
pub const MAX_TERM_BYTES: usize = 65_535;

/// The most bytes of the IRI that names a graph.
pub const MAX_NAME_BYTES: usize = 2_048;

/// The most brackets and parentheses that stand one within another.
pub const MAX_NESTING: usize = 64;

/// The most seats of a store.
pub const MAX_SEATS: u16 = 512;

/// The greatest number of a node: numbering begins at 0.
pub const LAST_NODE: u64 = 4_294_967_294;

/// The greatest number of a term: numbering begins at 0.
pub const LAST_TERM: u32 = 4_294_967_294;

/// The most patterns of a DELETE WHERE.
pub const MAX_PATTERNS: usize = 4;
