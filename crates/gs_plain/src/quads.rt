//! All graphs as they were after a commit, and their lines.
ghost use Rattle.std.specs.Prelude.{◌≡◌, ◌+◌, ◌<◌, ◌≤◌, ◌^◌, IfOk, OnOk, length, take, drop};
ghost use Rattle.std.specs.List.{concat};
ghost use Rattle.gs_model.specs.Graphs.{lines_of};
ghost use Rattle.gs_event.specs.Datasets.{quads_of, triples_in};
ghost use Rattle.gs_plain.specs.Books.{most_nodes};
ghost use Rattle.gs_plain.specs.Past.{dataset_at, is_by};
ghost use Rattle.gs_plain.specs.Quads.{graph_if, HasNamed, FindsDefault, FindsNamed};

use crate::books::Row;
use gs_graphs::SortedGraph;
use gs_term::{GraphName, Target};
use std::alloc::{AllocError, Global};
use std::collections::BTreeMap;

/// Whether the row was ended by commit `version` or before it.
fn is_ended(row: &Row, version: u64) -> bool
    ensures { result ≡ is_by version row.now.ended }
{
    match row.ended {
        None => false,
        Some(death) => death <= version,
    }
}

/// What a row makes of the default graph that was found in the rows before it.
fn default_after<'a>(
    found: Option<&'a SortedGraph>,
    row: &'a Row,
    version: u64,
) -> Option<&'a SortedGraph>
    ensures { FindsDefault version row.now found.entry result }
{
    if matches!(row.target, Target::Named(_)) || version < row.birth {
        return found;
    }
    if is_ended(row, version) {
        return None;
    }
    Some(&row.graph)
}

/// The default graph after commit `version`; where there is none, it had no triple.
fn default_at(rows: &[Row], version: u64) -> Option<&SortedGraph>
    ensures { graph_if result ≡ (dataset_at version rows.now).unnamed }
{
    let mut found = None;
    for row in rows {
        found = default_after(found, row, version);
    }
    found
}

/// What a row makes of the graphs with names that were found in the rows before it.
fn find_named<'a>(
    found: &mut BTreeMap<&'a GraphName, &'a SortedGraph>,
    row: &'a Row,
    version: u64,
) -> Result<(), AllocError>
    ensures { OnOk result (FindsNamed version row.now found.old found.new) }
{
    if version < row.birth {
        return Ok(());
    }
    let Target::Named(name) = &row.target else {
        return Ok(());
    };
    if is_ended(row, version) {
        found.remove(&name);
        return Ok(());
    }
    found.insert(name, &row.graph)?;
    Ok(())
}

/// The graphs with names after commit `version`.
fn named_at<'a>(
    rows: &'a [Row],
    version: u64,
    alloc: Global,
) -> Result<BTreeMap<&'a GraphName, &'a SortedGraph>, AllocError>
    ensures { IfOk result (λ found. HasNamed found (dataset_at version rows.now)) }
{
    let mut found = BTreeMap::new(alloc);
    for row in rows {
        find_named(&mut found, row, version)?;
    }
    Ok(found)
}

/// The next lines of the default graph after commit `version`, and how many it has in all.
fn default_lines(
    rows: &[Row],
    version: u64,
    given: usize,
    count: usize,
    alloc: Global,
) -> Result<(Vec<u8>, usize), AllocError>
    ensures bytes { IfOk result (λ r.
        r.0.items ≡ concat (take count (drop given (lines_of (dataset_at version rows.now).unnamed)))) }
    ensures all { IfOk result (λ r. r.1 ≡ length (lines_of (dataset_at version rows.now).unnamed)) }
{
    let Some(graph) = default_at(rows, version) else {
        return Ok((Vec::new(alloc), 0));
    };
    let bytes = graph.lines_from(alloc, given, count)?;
    Ok((bytes, graph.len()))
}

/// The next lines of all graphs as they were after commit `version`, and how many lines are left of
/// them. Takes a look-up of its name for each row.
pub fn quads_from(
    rows: &[Row],
    version: u64,
    given: usize,
    count: usize,
    alloc: Global,
) -> Result<(Vec<u8>, usize), AllocError>
    requires { triples_in (dataset_at version rows.now) ≤ most_nodes }
    ensures bytes { IfOk result (λ r.
        r.0.items ≡ concat (take count (drop given (quads_of (dataset_at version rows.now))))) }
    ensures left { IfOk result (λ r. r.1 ≡ length (drop given (quads_of (dataset_at version rows.now)))) }
    ensures fits { IfOk result (λ r. count < r.1 → given + count < 2 ^ 64) }
{
    let named = named_at(rows, version, alloc)?;
    let (mut bytes, mut passed) = default_lines(rows, version, given, count, alloc)?;
    for (name, graph) in &named {
        let start = given.saturating_sub(passed);
        let room = count.saturating_sub(passed.saturating_sub(given));
        let more = graph.quads_from(alloc, name, start, room)?;
        bytes.extend_from_slice(more.as_slice())?;
        passed += graph.len();
    }
    Ok((bytes, passed.saturating_sub(given)))
}
