//! The next lines of a read of all graphs.
ghost use Rattle.std.specs.Prelude.{◌<◌, IfOk};
ghost use Rattle.gs_quads.specs.Pieces.{AreGraphs, IsQuadPlace, IsQuadPiece};

use crate::lines::{last_place, quads};
use crate::runs::Source;
use crate::walks::find_places;
use gs_dict::Dict;
use gs_pool::{Key, Pool};
use gs_records::Records;
use gs_texts::Lines;
use std::alloc::{AllocError, Global};

/// Lines of a read of all graphs, the place of the last of them, and whether none are left.
#[derive(Drop)]
pub struct QuadPiece {
    pub lines: Lines,
    /// Where the next piece begins: the number of a record, and a key of its graph. `None` where the
    /// piece has no line.
    pub last: Option<(u32, Key)>,
    pub is_end: bool,
}

/// The next lines of all graphs of a version of the dataset: those of the places after `from`, or of all
/// where it is `None`, and `count` of them at most; graphs without a line are passed over. One key more
/// is looked for, which says whether any are left. Memory is wanted for that many keys, 12 bytes each,
/// but no more than 4,097 where fewer are found; for 16 bytes for each graph that has a line among them;
/// for what the lines of each of these have after their texts; for 256 numbers at a time; for 40 bytes a
/// line, which say where its texts stand; for the bytes of the lines and 256 more, if there are any; and
/// for a few small blocks.
pub fn next_quads(
    alloc: Global,
    dict: &Dict,
    pool: &Pool,
    records: &Records,
    version: u64,
    from: Option<(u32, Key)>,
    count: u32,
) -> Result<QuadPiece, AllocError>
    requires graphs { AreGraphs dict.now.terms pool.now version records.now.records }
    requires place { IsQuadPlace dict.now.terms version records.now.records from }
    requires some { 0 < count }
    ensures { IfOk result
        (IsQuadPiece dict.now.terms pool.now version records.now from count) }
{
    let source = Source {
        dict,
        pool,
        records,
    };
    let most = count as usize;
    let mut found = find_places(alloc, &source, version, from, most + 1)?;
    let is_end = found.keys.len() <= most;
    found.keys.truncate(most);
    let last = last_place(&found.runs, &found.keys);
    let lines = quads(alloc, &source, &found.runs, &found.keys)?;
    Ok(QuadPiece {
        lines,
        last,
        is_end,
    })
}
