//! A version, read in pieces.
ghost use Rattle.std.specs.Prelude.{◌≡◌, ◌<◌, true, IfOk};
ghost use Rattle.std.specs.List.{AllByRecursion};
ghost use Rattle.gs_quads.specs.Places.{root_at};
ghost use Rattle.gs_quads.specs.Pieces.{AreGraphs, IsQuadPlace, IsQuadPiece};
ghost use Rattle.gs_quads_tests.specs.Trees.{AreTrees, IsOneOf, AreOfTrees};

use crate::trees::Roots;
use gs_dict::Dict;
use gs_model::Refusal;
use gs_pool::{Key, Pool};
use gs_quads::{QuadPiece, next_quads};
use gs_records::Records;
use std::alloc::{AllocError, Global};

/// More graphs than any test has.
const MANY: usize = 1_000;

/// Whether two roots are the same.
fn is_same(one: Option<u32>, other: Option<u32>) -> bool
    ensures { result ≡ true → one ≡ other }
{
    one == other
}

/// Whether a root is none, or that of one of the trees.
fn is_one_of(roots: &Roots, root: Option<u32>) -> bool
    ensures { result ≡ true → IsOneOf roots.now root }
{
    if is_same(root, None) {
        return true;
    }
    if is_same(root, roots.one) {
        return true;
    }
    is_same(root, roots.two)
}

/// Whether a number is that of a record of such a root.
fn is_of_tree(records: &Records, roots: &Roots, number: u32) -> bool
    ensures { result ≡ true → IsOneOf roots.now (root_at records.now.records number) }
{
    if !records.is_record(number) {
        return false;
    }
    is_one_of(roots, records.record(number).version.root)
}

/// Whether all numbers are.
fn are_of_trees(records: &Records, roots: &Roots, numbers: &[u32]) -> bool
    ensures { result ≡ true → AllByRecursion
        (λ n. IsOneOf roots.now (root_at records.now.records n)) numbers.now }
{
    let Some((number, rest)) = numbers.split_first() else {
        return true;
    };
    is_of_tree(records, roots, *number) && are_of_trees(records, roots, rest)
}

/// Whether all graphs of a version have such roots, so that it can be read.
pub fn can_read(
    alloc: Global,
    records: &Records,
    version: u64,
    roots: &Roots,
) -> Result<bool, Refusal>
    ensures { IfOk result (λ b. b ≡ true → AreOfTrees roots.now version records.now.records) }
{
    let next = records.next_at(alloc, version, None, MANY)?;
    match next.1 {
        None => Ok(are_of_trees(records, roots, &next.0)),
        Some(_) => Ok(false),
    }
}

/// The next piece, which is asked for once more where memory was refused.
fn next_lines(
    alloc: Global,
    dict: &Dict,
    pool: &Pool,
    records: &Records,
    version: u64,
    from: Option<(u32, Key)>,
    count: u32,
) -> Result<QuadPiece, AllocError>
    requires graphs { AreGraphs dict.now.terms pool.now version records.now.records }
    requires place { IsQuadPlace dict.now.terms version records.now.records from }
    requires some { 0 < count }
    ensures { IfOk result
        (IsQuadPiece dict.now.terms pool.now version records.now from count) }
{
    match next_quads(alloc, dict, pool, records, version, from, count) {
        Ok(piece) => Ok(piece),
        Err(_) => next_quads(alloc, dict, pool, records, version, from, count),
    }
}

/// Appends the pieces of a version, nine at most: `-` after one where lines are left, and `.` after the
/// last.
fn push_pieces(
    alloc: Global,
    dict: &Dict,
    pool: &Pool,
    records: &Records,
    version: u64,
    count: u32,
    read: &mut Vec<u8>,
) -> Result<(), AllocError>
    requires graphs { AreGraphs dict.now.terms pool.now version records.now.records }
    requires some { 0 < count }
{
    let mut from = None;
    'pieces: for _ in 0..9 {
        let piece = next_lines(alloc, dict, pool, records, version, from, count)?;
        let QuadPiece {
            lines,
            last,
            is_end,
        } = piece;
        read.extend_from_slice(lines.into_bytes().as_slice())?;
        if is_end {
            return read.extend_from_slice(b".");
        }
        read.extend_from_slice(b"-")?;
        from = last;
    }
    Ok(())
}

/// The pieces of a version, `count` lines each.
pub fn pieces(
    alloc: Global,
    dict: &Dict,
    pool: &Pool,
    records: &Records,
    roots: &Roots,
    version: u64,
    count: u32,
) -> Result<Vec<u8>, Refusal>
    requires trees { AreTrees dict.now.terms pool.now roots.now }
{
    let is_readable = can_read(alloc, records, version, roots)?;
    if count == 0 || !is_readable {
        return Err(Refusal::Syntax(0));
    }
    let mut read = Vec::new(alloc);
    push_pieces(alloc, dict, pool, records, version, count, &mut read)?;
    Ok(read)
}
