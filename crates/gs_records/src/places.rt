//! What a record leaves in a pool, room for one more, and of what no record is kept.
ghost use Rattle.std.specs.Prelude.{◌≡◌, length, IfErr, OnOk, OnErr};
ghost use Rattle.gs_catalogue.specs.Catalogues.{no_versions, version_at};
ghost use Rattle.gs_records.specs.Calls.{is_nothing};
ghost use Rattle.gs_records.specs.Stored.{GrowsByEntry};
ghost use Rattle.gs_records.specs.Counts.{named_one};

use gs_catalogue::GraphVersion;
use gs_index::Index;
use gs_model::Refusal;
use gs_pool::{Key, Node, Pool};
use gs_term::Target;

/// The node of a record's lifetime: its birth alone.
pub fn node_of(birth: u64) -> Node
    ensures { result.birth ≡ birth }
{
    let key = Key {
        subject: 0,
        predicate: 0,
        object: 0,
    };
    Node {
        key,
        left: None,
        right: None,
        height: 1,
        birth,
    }
}

/// An entry for the next number, where the nodes of all numbers are in use.
pub fn grow(index: &mut Index, pool: &Pool) -> Result<(), Refusal>
    requires { length pool.now.nodes ≡ length index.old.entries }
    ensures ok { OnOk result (GrowsByEntry index.old index.new pool.now) }
    ensures refused { IfErr result (λ e. e ≡ Refusal.NoMemory) }
    ensures kept { OnErr result (index.new ≡ index.old) }
{
    if pool.nodes_in_use() < index.len() as u64 {
        return Ok(());
    }
    index.push()
}

/// Whether this is the version of an empty default graph.
pub fn is_nothing_of(target: &Target, version: GraphVersion) -> bool
    ensures { result ≡ is_nothing target.now version }
{
    match target {
        Target::Default => version.root.is_none() && version.triples == 0,
        Target::Named(_) => false,
    }
}

/// How many names a graph has: one, or none.
pub fn name_of(target: &Target) -> usize
    ensures { result ≡ named_one target.now }
{
    match target {
        Target::Default => 0,
        Target::Named(_) => 1,
    }
}

/// The version of a graph of which there is no record: the default graph is empty then.
pub fn missing_version(target: &Target) -> Option<GraphVersion>
    ensures { result ≡ version_at no_versions target.now }
{
    match target {
        Target::Default => Some(GraphVersion::empty()),
        Target::Named(_) => None,
    }
}
