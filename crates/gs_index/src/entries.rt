//! The entry of one version of one graph.
ghost use Rattle.std.specs.Prelude.{◌≡◌};
ghost use Rattle.gs_index.specs.Ages.{blank_entry};

use gs_catalogue::GraphVersion;
use gs_term::Target;

/// One version of one graph: the graph, its root and its count of triples, the number of the commit
/// that made it, and that of the commit that it died at, where it died.
#[derive(Debug, Drop)]
pub struct Entry {
    pub target: Target,
    pub version: GraphVersion,
    pub birth: u64,
    pub death: Option<u64>,
}

impl Entry {
    /// What stands under a number that is not in use. It owns no memory.
    pub fn blank() -> Entry
        ensures { result ≡ blank_entry }
    {
        Entry {
            target: Target::Default,
            version: GraphVersion::empty(),
            birth: 0,
            death: None,
        }
    }
}
