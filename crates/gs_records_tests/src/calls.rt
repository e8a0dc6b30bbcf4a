//! The calls of the tests, and what is looked at after each.
use gs_catalogue::GraphVersion;
use gs_model::Refusal;
use gs_records::Records;
use gs_term::{GraphName, Target};
use std::alloc::Global;

/// The target of a name; that of no name is the default graph.
pub fn target(alloc: Global, name: &str) -> Result<Target, Refusal> {
    if name.is_empty() {
        return Ok(Target::Default);
    }
    Ok(Target::Named(GraphName::new(alloc, name)?))
}

/// A version of so many triples; records read no tree.
fn version(triples: u64) -> GraphVersion {
    let root = if triples == 0 { None } else { Some(7) };
    GraphVersion { root, triples }
}

/// Opens a record: whether it has this number, and is open.
pub fn opens(records: &mut Records, number: u32) -> Result<bool, Refusal> {
    Ok(records.open()? == number && records.is_open(number))
}

/// Gives a record up that is open: whether it is so no more, and is that of no graph.
pub fn gives_up(records: &mut Records, number: u32) -> bool {
    if !records.is_open(number) {
        return false;
    }
    records.give_up(number);
    !records.is_open(number) && !records.is_record(number)
}

/// Commits an open record as one of a name's graph, with so many triples: whether that is the last commit.
pub fn puts(
    alloc: Global,
    records: &mut Records,
    number: u32,
    name: &str,
    triples: u64,
    commit: u64,
) -> Result<bool, Refusal> {
    let target = target(alloc, name)?;
    if !records.is_open(number) || commit <= records.latest() {
        return Ok(false);
    }
    records.put(number, target, version(triples), commit);
    Ok(!records.is_open(number) && records.latest() == commit)
}

/// Removes the graph of a name: whether that is the last commit.
pub fn removes(
    alloc: Global,
    records: &mut Records,
    name: &str,
    commit: u64,
) -> Result<bool, Refusal> {
    let target = target(alloc, name)?;
    if commit <= records.latest() {
        return Ok(false);
    }
    records.remove(&target, commit);
    Ok(records.latest() == commit)
}

/// Whether the record of a name's graph has this number now, or there is none, and the graph has so many
/// triples, or is missing.
pub fn has_now(
    alloc: Global,
    records: &Records,
    name: &str,
    number: Option<u32>,
    wanted: Option<u64>,
) -> Result<bool, Refusal> {
    let target = target(alloc, name)?;
    if records.current(&target) != number {
        return Ok(false);
    }
    Ok(match records.get(&target) {
        None => wanted == None,
        Some(found) => wanted == Some(found.triples),
    })
}

/// Whether a version has these of the next numbers after one of them, or of all, and where a walk goes on.
pub fn walks(
    alloc: Global,
    records: &Records,
    version: u64,
    from: Option<u32>,
    most: usize,
    wanted: &[u32],
    on: Option<u32>,
) -> Result<bool, Refusal> {
    if most == 0 {
        return Ok(false);
    }
    if let Some(number) = from {
        if !records.is_record(number) {
            return Ok(false);
        }
    }
    let (numbers, next) = records.next_at(alloc, version, from, most)?;
    Ok(numbers.as_slice() == wanted && next == on)
}
