//! Commits of graphs.
use crate::trees::Roots;
use gs_catalogue::GraphVersion;
use gs_model::Refusal;
use gs_records::Records;
use gs_term::{GraphName, Target};
use std::alloc::Global;

/// The target of a name; that of no name is the default graph.
fn target(alloc: Global, name: &str) -> Result<Target, Refusal> {
    if name.is_empty() {
        return Ok(Target::Default);
    }
    Ok(Target::Named(GraphName::new(alloc, name)?))
}

/// The version of a graph of no triple, of one or of two.
fn version_of(roots: &Roots, triples: u64) -> GraphVersion {
    let root = match triples {
        0 => None,
        1 => roots.one,
        _ => roots.two,
    };
    GraphVersion { root, triples }
}

/// Puts a graph of so many triples at the next commit: whether it was put.
pub fn put(
    alloc: Global,
    records: &mut Records,
    roots: &Roots,
    name: &str,
    triples: u64,
) -> Result<bool, Refusal> {
    let target = target(alloc, name)?;
    let number = records.open()?;
    let commit = records.latest().saturating_add(1);
    if !records.is_open(number) || commit <= records.latest() {
        return Ok(false);
    }
    records.put(number, target, version_of(roots, triples), commit);
    Ok(true)
}

/// Removes a graph at the next commit: whether it was removed.
fn remove(alloc: Global, records: &mut Records, name: &str) -> Result<bool, Refusal> {
    let target = target(alloc, name)?;
    let commit = records.latest().saturating_add(1);
    if commit <= records.latest() {
        return Ok(false);
    }
    records.remove(&target, commit);
    Ok(true)
}

/// Makes a commit for each name: the graph has so many triples then, or is removed. Whether all were made.
pub fn all_made(
    alloc: Global,
    records: &mut Records,
    roots: &Roots,
    calls: &[(&str, Option<u64>)],
) -> Result<bool, Refusal> {
    for (name, triples) in calls {
        let is_made = match triples {
            Some(triples) => put(alloc, records, roots, *name, *triples)?,
            None => remove(alloc, records, *name)?,
        };
        if !is_made {
            return Ok(false);
        }
    }
    Ok(true)
}
