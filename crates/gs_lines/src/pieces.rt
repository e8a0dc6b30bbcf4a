//! The next lines of a read.
ghost use Rattle.std.specs.Prelude.{◌≡◌, ◌<◌, ◌++◌, [], min, take, vec_capacity, IfOk, OnOk};
ghost use Rattle.gs_keys.specs.Roots.{IsGraphAt};
ghost use Rattle.gs_lines.specs.Pieces.{keys_left, IsPiece};

use crate::lines::lines;
use gs_dict::Dict;
use gs_keys::ByText;
use gs_pool::{Key, Pool};
use gs_texts::Lines;
use gs_tree::next_keys;
use std::alloc::{AllocError, Global};

/// Lines of a read, the key of the last of them, and whether none are left.
#[derive(Drop)]
pub struct Piece {
    pub lines: Lines,
    /// Where the next piece begins. `None` where the piece has no line.
    pub last: Option<Key>,
    pub is_end: bool,
}

// So many keys are given room before they are looked for. Where more are asked for, they are counted
// first, which is a walk of its own.
const USUAL_KEYS: usize = 4_097;

/// Room for keys, `most` of them at most, before they are looked for: 12 bytes each, and no more than
/// for 4,097 of them. So a list of that many keys is not moved as it grows.
pub fn room_for_keys(alloc: Global, most: usize) -> Result<Vec<Key>, AllocError>
    ensures empty { IfOk result (λ keys. keys.items ≡ []) }
    ensures room { IfOk result (λ keys. vec_capacity keys ≡ min most 4097) }
{
    Vec::with_capacity(alloc, most.min(USUAL_KEYS))
}

/// Appends the keys of a root above `from`, or all where it is `None`, and `most` of them at most.
pub fn add_keys(
    dict: &Dict,
    pool: &Pool,
    root: Option<u32>,
    from: Option<Key>,
    most: usize,
    keys: &mut Vec<Key>,
) -> Result<(), AllocError>
    requires { IsGraphAt dict.now.terms pool.now root }
    ensures { OnOk result (keys.new.items
        ≡ keys.old.items ++ take most (keys_left dict.now.terms pool.now root from)) }
{
    let order = ByText::new(dict);
    next_keys(pool, &order, root, from, most, keys)
}

/// The keys of a root above `from`, or all where it is `None`, and `most` of them at most.
fn find_keys(
    alloc: Global,
    dict: &Dict,
    pool: &Pool,
    root: Option<u32>,
    from: Option<Key>,
    most: usize,
) -> Result<Vec<Key>, AllocError>
    requires { IsGraphAt dict.now.terms pool.now root }
    ensures { IfOk result (λ keys. keys.items
        ≡ take most (keys_left dict.now.terms pool.now root from)) }
{
    let mut keys = room_for_keys(alloc, most)?;
    add_keys(dict, pool, root, from, most, &mut keys)?;
    Ok(keys)
}

/// The next lines of a root: those of its keys above `from`, or of all where it is `None`, and
/// `count` of them at most. One key more is looked for, which says whether any are left. Memory is
/// wanted for that many keys, 12 bytes each, but no more than 4,097 where fewer are found; for 40 bytes
/// a line, which say where its texts stand; for the bytes of the lines and 256 more, if there are any;
/// and for a few small blocks.
pub fn next_piece(
    alloc: Global,
    dict: &Dict,
    pool: &Pool,
    root: Option<u32>,
    from: Option<Key>,
    count: u32,
) -> Result<Piece, AllocError>
    requires graph { IsGraphAt dict.now.terms pool.now root }
    requires some { 0 < count }
    ensures { IfOk result (IsPiece dict.now.terms pool.now root from count) }
{
    let most = count as usize;
    let mut keys = find_keys(alloc, dict, pool, root, from, most + 1)?;
    let is_end = keys.len() <= most;
    keys.truncate(most);
    let kept = keys.as_slice();
    let last = kept.last().copied();
    let lines = lines(alloc, dict, kept)?;
    Ok(Piece {
        lines,
        last,
        is_end,
    })
}
