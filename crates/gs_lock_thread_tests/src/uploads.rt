//! Uploads of one long list, and how the page keeps them.
use crate::rounds::say;
use gs_chronicle::{Entry, Request};
use gs_core::Refusal;
use gs_shared::{Pass, Room, SharedStore};
use std::alloc::{AllocError, Global};
use std::sync::Wait;
use std::sync::ledger::Ledger;

/// How many triples the list has.
const COUNT: u32 = 40;

/// The line by which the list is staged.
fn stages(alloc: Global) -> Result<String, AllocError> {
    let mut line = format!(in alloc; "stage")?;
    for number in 0..COUNT {
        let triple = format!(in alloc; " <s{number}> <p> <o> .")?;
        line.push_str(triple.as_str())?;
    }
    Ok(line)
}

/// Puts a graph of the thread's own, by one list: what was wrong.
pub fn upload<C: Ledger, T: Ledger, B: Room, R: Wait>(
    rt: &R,
    alloc: Global,
    store: &SharedStore<C, T, B>,
    pass: &mut Pass<C, T, B>,
) -> Result<Option<&'static str>, Refusal> {
    let seat = pass.seat();
    let opens = format!(in alloc; "open put <http://e/own{seat}>")?;
    drop(say(rt, alloc, store, pass, opens.as_str())?);
    let stages = stages(alloc)?;
    drop(say(rt, alloc, store, pass, stages.as_str())?);
    let said = say(rt, alloc, store, pass, "commit")?;
    Ok(if said.as_str() == "201\n" {
        None
    } else {
        Some("the commit")
    })
}

/// Whether the entry is such an upload, and the page keeps its list by a small form. That is read from what
/// is written of the entry for debugging.
fn is_small(alloc: Global, entry: &Entry) -> Result<bool, Refusal> {
    let Request::Upload(upload) = entry.request() else {
        return Ok(false);
    };
    let text = format!(in alloc; "{upload:?}")?;
    let small = text.as_str().matches("Small(").count();
    let gathered = text.as_str().matches("Gathered(").count();
    let triples = upload.to_vec(alloc)?;
    Ok(triples.len() == COUNT as usize && small == 1 && gathered == 0)
}

/// Whether these are four such entries.
pub fn are_small(alloc: Global, entries: &[Entry]) -> Result<bool, Refusal> {
    if entries.len() != 4 {
        return Ok(false);
    }
    for entry in entries {
        if !is_small(alloc, entry)? {
            return Ok(false);
        }
    }
    Ok(true)
}
