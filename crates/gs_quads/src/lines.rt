//! Places as lines, and the last place.
ghost use Rattle.std.specs.Prelude.{◌≡◌, ◌++◌, IfOk, OnOk};
ghost use Rattle.std.specs.List.{All};
ghost use Rattle.gs_quads.specs.Places.{as_places};
ghost use Rattle.gs_quads.specs.Pieces.{last_place as last_of};
ghost use Rattle.gs_quads.specs.Found.{run_places, bytes_at, last_or, IsRecordRun, KeysAreGiven};

use crate::runs::{Run, Source, cut};
use gs_dict::TermLinesBuilder;
use gs_lines::add_lines;
use gs_pool::Key;
use gs_texts::Lines;
use std::alloc::{AllocError, Global};

/// Adds the lines of runs of keys.
fn add_quads(
    source: &Source,
    runs: &[Run],
    keys: &[Key],
    lines: &mut TermLinesBuilder,
) -> Result<(), AllocError>
    requires kept { All (IsRecordRun source.now) runs.now }
    requires given { KeysAreGiven source.now keys.now }
    requires terms { lines.old.terms ≡ source.now.dict.now.terms }
    ensures { OnOk result (lines.new.items
        ≡ lines.old.items ++ bytes_at source.now (run_places runs.now keys.now)) }
{
    let mut left = keys;
    for run in runs {
        let (own, rest) = cut(left, run.keys);
        let graph = &source.records.record(run.number).target;
        add_lines(graph, own, lines)?;
        left = rest;
    }
    Ok(())
}

/// The lines of runs of keys, one after another. Memory is asked for as `next_piece` of `gs_lines` does, and
/// for what lines of each run have after their texts.
pub fn quads(
    alloc: Global,
    source: &Source,
    runs: &[Run],
    keys: &[Key],
) -> Result<Lines, AllocError>
    requires kept { All (IsRecordRun source.now) runs.now }
    requires given { KeysAreGiven source.now keys.now }
    ensures { IfOk result (λ l. l.items ≡ bytes_at source.now (run_places runs.now keys.now)) }
{
    let mut lines = source.dict.lines(alloc, keys.len())?;
    add_quads(source, runs, keys, &mut lines)?;
    lines.finish()
}

/// The last place of a record's keys, or the one given where it has none.
fn last_in(number: u32, keys: &[Key], last: Option<(u32, Key)>) -> Option<(u32, Key)>
    ensures { result ≡ last_or last (as_places number keys.now) }
{
    match keys.last() {
        None => last,
        Some(key) => Some((number, *key)),
    }
}

/// The last place of runs of keys.
pub fn last_place(runs: &[Run], keys: &[Key]) -> Option<(u32, Key)>
    ensures { result ≡ last_of (run_places runs.now keys.now) }
{
    let mut last = None;
    let mut left = keys;
    for run in runs {
        let (own, rest) = cut(left, run.keys);
        last = last_in(run.number, own, last);
        left = rest;
    }
    last
}
