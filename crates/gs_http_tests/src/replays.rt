//! The transfer of a text that comes in pieces.

use gs_http::Framing;
use gs_transfer::{Part, Transfer};
use std::alloc::{AllocError, Global};

/// How a body ends.
#[derive(Clone, Copy, Debug, PartialEq)]
pub(crate) enum End {
    /// So many bytes of the text stand after it.
    Before(usize),
    /// It has a fault, with this status.
    Fault(u16),
    /// It is not whole yet.
    Open,
}

/// The bytes between two places.
fn between(text: &[u8], from: usize, to: usize) -> &[u8] {
    match text.get(from..to) {
        Some(bytes) => bytes,
        None => b"",
    }
}

/// How the body at the front of a text ends that comes in pieces of this length, and its data.
fn read(
    framing: Framing,
    limit: u64,
    text: &[u8],
    piece: usize,
    data: &mut Vec<u8>,
) -> Result<End, AllocError> {
    let mut transfer = Transfer::new(framing, limit);
    let mut from: usize = 0;
    let mut to: usize = 0;
    for _ in 0..100_000 {
        let bytes = between(text, from, to);
        match transfer.next(bytes) {
            Part::Data(n) => {
                data.extend_from_slice(between(bytes, 0, n))?;
                from = from.saturating_add(n);
            }
            Part::Passed(n) => from = from.saturating_add(n),
            Part::End => return Ok(End::Before(text.len().saturating_sub(from))),
            Part::Fault(status) => return Ok(End::Fault(status)),
            Part::More => {
                if to >= text.len() {
                    return Ok(End::Open);
                }
                to = to.saturating_add(piece).min(text.len());
            }
        }
    }
    Ok(End::Open)
}

/// Whether a body has these data and ends so, whole and in pieces of 1, 2 and 7 bytes.
pub(crate) fn is_read(
    alloc: Global,
    framing: Framing,
    limit: u64,
    text: &[u8],
    data: &[u8],
    end: End,
) -> Result<bool, AllocError> {
    for piece in [1, 2, 7, 65_536] {
        let mut given = Vec::new(alloc);
        let last = read(framing, limit, text, piece, &mut given)?;
        if last != end || given.as_slice() != data {
            return Ok(false);
        }
    }
    Ok(true)
}
