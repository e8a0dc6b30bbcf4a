//! The entries of the tests.
use gs_catalogue::GraphVersion;
use gs_index::{Entry, Index};
use gs_model::Refusal;
use gs_term::{GraphName, Target};
use std::alloc::Global;

/// The target of a name; that of no name is the default graph.
pub fn target(alloc: Global, name: &str) -> Result<Target, Refusal> {
    if name.is_empty() {
        return Ok(Target::Default);
    }
    Ok(Target::Named(GraphName::new(alloc, name)?))
}

/// An entry of a target that was made by this commit and has not died.
pub fn entry(target: Target, birth: u64) -> Entry {
    Entry {
        target,
        version: GraphVersion {
            root: None,
            triples: birth,
        },
        birth,
        death: None,
    }
}

/// Lists an entry of a name under the next number: whether that number was not listed before, and is now.
pub fn list_next(
    alloc: Global,
    index: &mut Index,
    name: &str,
    birth: u64,
) -> Result<bool, Refusal> {
    let number = index.len() as u32;
    let target = target(alloc, name)?;
    index.push()?;
    index.reserve(1)?;
    if index.is_listed(number) {
        return Ok(false);
    }
    index.list(number, entry(target, birth));
    Ok(index.is_listed(number))
}

/// Whether these are the listed numbers after one of them, or from the first one on.
pub fn are_next(
    alloc: Global,
    index: &Index,
    from: Option<u32>,
    most: usize,
    wanted: &[u32],
) -> Result<bool, Refusal> {
    if let Some(number) = from {
        if !index.is_listed(number) {
            return Ok(false);
        }
    }
    let numbers = index.next(alloc, from, most)?;
    Ok(numbers.as_slice() == wanted)
}
