//! What a client sends: in pieces, broken off, or as it is answered.
use crate::cases::Case;
use crate::manners::Manner;
use std::cell::Cell;
use std::io::{self, Error, ErrorKind, Read};

/// A client of a conversation.
#[derive(Drop)]
pub struct Client<'a> {
    case: &'a Case<'a>,
    manner: Manner,
    /// How many bytes the server has written and flushed.
    flushed: &'a Cell<usize>,
    pub sent: usize,
    reads: usize,
    /// The number of the exchange, where the client waits.
    exchange: usize,
    pub has_failed: bool,
    /// How often the read that comes next was interrupted.
    interruptions: usize,
}

impl<'a> Client<'a> {
    /// A client of this conversation, in this manner.
    pub fn new(case: &'a Case<'a>, manner: Manner, flushed: &'a Cell<usize>) -> Client<'a> {
        Client {
            case,
            manner,
            flushed,
            sent: 0,
            reads: 0,
            exchange: 0,
            has_failed: false,
            interruptions: 0,
        }
    }

    /// Whether what is to be said to what was sent was written; the next exchange begins then.
    fn goes_on(&mut self) -> bool {
        let exchange = self.case.exchange(self.exchange);
        if self.sent < exchange.sent {
            return true;
        }
        self.exchange = self.exchange.saturating_add(1);
        self.flushed.get() == exchange.said
    }

    /// Whether a reply that closes was said: nothing is to be read after it.
    fn is_closed(&self) -> bool {
        self.case.closes && self.flushed.get() == self.case.output.len()
    }

    /// Whether this read fails.
    fn fails(&mut self) -> bool {
        if self.manner.waits() {
            return self.is_closed() || !self.goes_on();
        }
        self.manner.reads() <= self.reads
    }

    /// How many bytes of the input may come now.
    fn limit(&self) -> usize {
        if self.manner.waits() {
            return self.case.exchange(self.exchange).sent;
        }
        self.manner.sent().min(self.case.input.len())
    }
}

impl Read for Client<'_> {
    fn read(&mut self, buffer: &mut [u8]) -> io::Result<usize> {
        if self.interruptions < self.manner.interruptions() {
            self.interruptions = self.interruptions.saturating_add(1);
            return Err(Error::from(ErrorKind::Interrupted));
        }
        self.interruptions = 0;
        if self.fails() {
            self.has_failed = true;
            return Err(Error::from(ErrorKind::ConnectionReset));
        }
        self.reads = self.reads.saturating_add(1);
        let left = self
            .case
            .input
            .get(self.sent..self.limit())
            .unwrap_or_default();
        let count = buffer.len().min(left.len()).min(self.manner.piece());
        let (piece, _) = left.split_at(count);
        buffer[..count].copy_from_slice(piece);
        self.sent = self.sent.saturating_add(count);
        Ok(count)
    }
}
