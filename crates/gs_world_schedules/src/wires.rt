//! The bytes that a client sends: its requests are drawn, and come in pieces that are cut anywhere.
use crate::clients::Client;
use crate::conditions::Conditions;
use gs_drawn_requests::{Draws, drawn_request};
use std::alloc::{AllocError, Global};

/// The most bytes of a piece, where it is not all that is left of a request.
const MAX_PIECE_BYTES: usize = 40;

/// What a client sends.
#[derive(Drop)]
pub struct Wire {
    /// The bytes of all its requests so far.
    bytes: Vec<u8>,
    /// How many of them were sent.
    sent: usize,
}

impl Wire {
    /// Nothing yet.
    pub fn new(alloc: Global) -> Wire {
        Wire {
            bytes: Vec::new(alloc),
            sent: 0,
        }
    }

    fn left(&self) -> usize {
        self.bytes.len().saturating_sub(self.sent)
    }

    fn add_request(
        &mut self,
        alloc: Global,
        draws: &mut Draws,
        conditions: &mut Conditions,
        client: &mut Client,
    ) -> Result<(), AllocError> {
        let start = self.bytes.len();
        let drawn = drawn_request(alloc, draws, start)?;
        let sent = conditions.sent(alloc, drawn.request, drawn.bytes.as_slice(), start)?;
        client.send(sent.asked)?;
        self.bytes.extend_from_slice(sent.bytes.as_slice())
    }

    /// The next piece: all that is left of what was drawn, at one chance of so many, else a few bytes.
    /// The model knows of the requests that are drawn for it.
    pub fn next_piece(
        &mut self,
        alloc: Global,
        draws: &mut Draws,
        conditions: &mut Conditions,
        hurry: usize,
        client: &mut Client,
    ) -> Result<Vec<u8>, AllocError> {
        let few = draws.below(MAX_PIECE_BYTES).saturating_add(1);
        let is_whole = draws.is_one_in(hurry);
        if self.left() == 0 || (!is_whole && self.left() < few) {
            self.add_request(alloc, draws, conditions, client)?;
        }
        let count = if is_whole {
            self.left()
        } else {
            few.min(self.left())
        };
        let end = self.sent.saturating_add(count);
        let mut piece = Vec::new(alloc);
        piece.extend_from_slice(
            self.bytes
                .as_slice()
                .get(self.sent..end)
                .unwrap_or_default(),
        )?;
        self.sent = end;
        client.receive(count);
        Ok(piece)
    }
}
