//! How much a page of history holds.

/// Entries of a page.
pub const PAGE_ENTRIES: usize = 65_536;

/// As how many triples the entries of a page may count, with repeats (`gs_chronicle::list_size`).
pub const PAGE_TRIPLES: usize = 4_000_000;
