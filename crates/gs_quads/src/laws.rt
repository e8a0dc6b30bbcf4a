//! Laws of the lines of all graphs, proved: the bodies are empty, and the contracts are the laws.
ghost use Rattle.gs_quads.specs.Laws.{AllAreTheDatasets, AsManyAsTriples, QuadsOutlast, PiecesAreAll, CallsKeepVersions};

/// From the beginning on, the lines of a version are those of its dataset.
pub fn all_quads_are_the_datasets()
    ensures { AllAreTheDatasets }
{}

/// A version has as many lines as its graphs have triples.
pub fn lines_are_as_many_as_triples()
    ensures { AsManyAsTriples }
{}

/// A read goes on among later records that have the version, in a later pool that has its trees, and where
/// each number that has a term keeps it: the version can be read, its place is one still, and the lines
/// from there on are the same.
pub fn quads_outlast_changes()
    ensures { QuadsOutlast }
{}

/// The pieces of a read to the end, joined, are all lines from its beginning on.
pub fn pieces_are_all_lines()
    ensures { PiecesAreAll }
{}

/// Each call of `gs_records` leaves a version what it has: where it makes a later commit, and where a seat
/// has pinned the version that a reclaim may not let go.
pub fn calls_keep_versions()
    ensures { CallsKeepVersions }
{}
