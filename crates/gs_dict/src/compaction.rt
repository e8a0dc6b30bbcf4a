//! Room of texts that no number has any more.
ghost use Rattle.std.specs.Prelude.{◌≡◌, ◌+◌, ◌<◌, ℕ, length, IsTrue, IfOk, OnOk};
ghost use Rattle.gs_texts.specs.Releasing.{IsSpared};
ghost use Rattle.gs_dict.specs.Chains.{AreInBlocks, KeepsTexts, link_after};
ghost use Rattle.gs_dict.specs.Compaction.{MovesTexts, AreSpared};

use crate::chains::Entry;
use gs_texts::{Place, Texts};
use std::alloc::AllocError;

/// For each block, how many of its bytes are still texts of numbers.
fn live_bytes(texts: &Texts, entries: &[Entry]) -> Result<Vec<usize>, AllocError>
    requires { AreInBlocks texts.now entries.now }
    ensures { IfOk result (λ v. length v.items ≡ length texts.now) }
{
    let mut live = vec![in texts.allocator(); 0usize; texts.block_count()]?;
    for i in 0..entries.len() {
        let place = entries[i].place;
        let block = place.block();
        live[block] = live[block].saturating_add(place.length());
    }
    Ok(live)
}

/// Marks the sealed blocks that have bytes, of which less than half are still texts of numbers.
fn sparse_blocks(texts: &Texts, entries: &[Entry]) -> Result<Vec<bool>, AllocError>
    requires { AreInBlocks texts.now entries.now }
    ensures { IfOk result (λ v. length v.items < length texts.now) }
{
    let live = live_bytes(texts, entries)?;
    let sealed = texts.block_count() - 1;
    let mut sparse = vec![in texts.allocator(); false; sealed]?;
    for block in 0..sealed {
        let size = texts.block_size(block);
        sparse[block] = live[block] < size.saturating_sub(live[block]);
    }
    Ok(sparse)
}

/// Whether a text is kept where the marked blocks are given back. A number without a text has the empty
/// one at the beginning of the first block.
fn is_spared(place: Place, gone: &[bool]) -> bool
    ensures { IsTrue result → IsSpared gone.now place }
{
    let is_empty = place.offset() == 0 && place.length() == 0;
    is_empty || !gone.get(place.block()).copied().unwrap_or(false)
}

/// Writes the text of a number once more, where its block is marked.
fn move_text(
    texts: &mut Texts,
    entries: &mut [Entry],
    number: usize,
    gone: &[bool],
) -> Result<(), AllocError>
    requires given { number < length entries.old }
    requires placed { AreInBlocks texts.old entries.old }
    requires sealed { length gone.now < length texts.old }
    ensures moved { MovesTexts texts.old entries.old texts.new entries.new }
    ensures ok { OnOk result (AreSpared gone.now entries.old number
        → AreSpared gone.now entries.new (number + 1)) }
{
    let place = entries[number].place;
    if !is_spared(place, gone) {
        entries[number].place = texts.push_again(place)?;
    }
    Ok(())
}

/// Writes each text once more whose block is marked.
fn move_texts(texts: &mut Texts, entries: &mut [Entry], gone: &[bool]) -> Result<(), AllocError>
    requires placed { AreInBlocks texts.old entries.old }
    requires sealed { length gone.now < length texts.old }
    ensures moved { MovesTexts texts.old entries.old texts.new entries.new }
    ensures ok { OnOk result (AreSpared gone.now entries.new (length entries.new)) }
{
    for number in 0..entries.len() {
        move_text(texts, entries, number, gone)?;
    }
    Ok(())
}

/// Moves texts out of sealed blocks of which less than half is still used, and gives these blocks back.
/// Each number keeps its text. Where memory is wanted, some blocks stay.
pub fn compact(texts: &mut Texts, entries: &mut [Entry]) -> Result<(), AllocError>
    requires placed { AreInBlocks texts.old entries.old }
    ensures placed { AreInBlocks texts.new entries.new }
    ensures kept { KeepsTexts texts.old entries.old texts.new entries.new }
    ensures links { (i : ℕ) → link_after entries.new i ≡ link_after entries.old i }
    ensures count { length entries.new ≡ length entries.old }
{
    let sparse = sparse_blocks(texts, entries)?;
    let gone = sparse.as_slice();
    if !gone.contains(&true) {
        return Ok(());
    }
    move_texts(texts, entries, gone)?;
    texts.release(gone)
}
