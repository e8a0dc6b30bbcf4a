//! What a store over trees keeps besides its seats.
ghost use Rattle.std.specs.Prelude.{◌≡◌};
ghost use Rattle.std.specs.Option.{unwrap_or};
ghost use Rattle.gs_catalogue.specs.Catalogues.{version_at, empty_version};
ghost use Rattle.gs_event.specs.Datasets.{is_there as is_there_of};
ghost use Rattle.gs_tree_store.specs.Books.{dataset_of, graphs_of};

use gs_catalogue::GraphVersion;
use gs_dict::Dict;
use gs_event::{Limits, UploadKind};
use gs_pool::{Key, Pool};
use gs_records::Records;
use gs_term::Target;
use gs_versions::Versions;

/// What a seat is doing.
#[derive(Drop)]
pub enum Seat {
    Idle,
    /// An upload: what it will do, its request number, the tree of what was staged, the number of its
    /// open record, and the commit number since which its target must not have been written.
    Writing(UploadKind, u64, GraphVersion, u32, Option<u64>),
    /// A patch of this target's graph, its request number, the number of its open record, and such a
    /// commit number.
    Patching(Target, u64, u32, Option<u64>),
    /// A read: the root of its tree, and the key of the last line that was given.
    Reading(Option<u32>, Option<Key>),
    /// A read of all graphs: the version of the dataset, and the place of the last line that was given,
    /// which is the number of a record and a key of its graph.
    ReadingAll(u64, Option<(u32, Key)>),
}

/// The numbers given out, the terms by number, the nodes of all trees, and the versions of all graphs.
#[derive(Drop)]
pub struct Books {
    /// Names of graphs that the store makes up begin with this.
    pub base: String,
    pub limits: Limits,
    /// The last request number.
    pub request: u64,
    pub dict: Dict,
    pub pool: Pool,
    pub versions: Versions,
    pub records: Records,
    /// The number of the last commit that wrote the default graph, or emptied it.
    pub default_write: u64,
    /// That of the last Delete of a name.
    pub last_delete: u64,
}

/// Whether the target has a graph.
pub fn is_there(books: &Books, target: &Target) -> bool
    ensures { result ≡ is_there_of (dataset_of books.now) target.now }
{
    books.records.get(target).is_some()
}

/// The version of the target's graph, and an empty one where it is missing.
pub fn version_of(books: &Books, target: &Target) -> GraphVersion
    ensures { result ≡ unwrap_or (version_at (graphs_of books.now) target.now) empty_version }
{
    or_empty(books.records.get(target))
}

/// The version of a graph as it was found, and an empty one where it is missing.
pub fn or_empty(found: Option<GraphVersion>) -> GraphVersion
    ensures { result ≡ unwrap_or found empty_version }
{
    match found {
        Some(version) => version,
        None => GraphVersion::empty(),
    }
}
