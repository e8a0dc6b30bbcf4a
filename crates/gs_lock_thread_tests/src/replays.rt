//! What is asked of the page that threads leave.
use crate::models::Model;
use gs_chronicle::{Entry, Request};
use gs_core::{Answer, Refusal};
use gs_event::Scope;
use gs_shared::{Ended, Record};
use gs_test_events::event;
use std::alloc::Global;

/// Takes all entries into a plain model. Whether each of them has the status that the model gives.
pub fn replays(alloc: Global, model: &mut Model, entries: &[Entry]) -> Result<bool, Refusal> {
    for entry in entries {
        if model.take(alloc, entry.request())? != entry.status() {
            return Ok(false);
        }
    }
    Ok(true)
}

/// The same of a new model.
pub fn is_replayed(alloc: Global, entries: &[Entry]) -> Result<bool, Refusal> {
    let mut model = Model::new(alloc);
    let answer = replays(alloc, &mut model, entries);
    drop(model);
    answer
}

/// How many entries are questions about all graphs, and how many are reads of all of them.
pub fn counts_of_all(entries: &[Entry]) -> (u32, u32) {
    let (mut heads, mut pins) = (0u32, 0u32);
    for entry in entries {
        match entry.request() {
            Request::Head(Scope::All) => heads = heads.saturating_add(1),
            Request::Pin(Scope::All) => pins = pins.saturating_add(1),
            _ => {}
        }
    }
    (heads, pins)
}

/// Whether the receipts of a pass stand among the entries, with numbers that rise.
fn stands(entries: &[Entry], record: &Record) -> bool {
    let mut next = 0u64;
    for receipt in record.receipts() {
        let Some(entry) = entries.get(receipt.number as usize) else {
            return false;
        };
        let is_own = entry.seat() == record.seat() && entry.status() == receipt.status;
        if receipt.number < next || !is_own || entry.request().kind() != receipt.kind {
            return false;
        }
        next = receipt.number.saturating_add(1);
    }
    true
}

/// Whether a pass was told of all its calls, and its receipts stand on the page.
pub fn is_told(entries: &[Entry], record: &Record) -> bool {
    record.calls() == 9_500 && record.receipts().len() == 4_096 && stands(entries, record)
}

/// Makes the event of a line.
fn ask(alloc: Global, ended: &mut Ended, line: &str) -> Result<Answer, Refusal> {
    Ok(ended.audited.event(event(alloc, line)?))
}

/// What the first seat reads of a graph once all threads have ended, empty where it is not there.
pub fn read(alloc: Global, ended: &mut Ended, name: &str) -> Result<Vec<u8>, Refusal> {
    let pin = format!(in alloc; "0 pin <{name}>")?;
    read_by(alloc, ended, pin.as_str())
}

/// What it reads of all graphs.
pub fn read_all(alloc: Global, ended: &mut Ended) -> Result<Vec<u8>, Refusal> {
    read_by(alloc, ended, "0 pin all")
}

/// What the first seat is given, of ten lines at most, once this line has begun its read.
fn read_by(alloc: Global, ended: &mut Ended, pin: &str) -> Result<Vec<u8>, Refusal> {
    drop(ask(alloc, ended, pin)?);
    match ask(alloc, ended, "0 piece 10")? {
        Answer::Lines(lines, true) => Ok(lines.into_bytes()),
        other => {
            drop(other);
            Ok(Vec::new(alloc))
        }
    }
}
