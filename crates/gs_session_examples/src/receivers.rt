//! What a client receives.
use crate::manners::Manner;
use std::alloc::Global;
use std::cell::Cell;
use std::io::{self, Error, ErrorKind, Write};

/// A writer that may take little, and fail.
#[derive(Drop)]
pub struct Receiver<'a> {
    manner: Manner,
    /// How many bytes were flushed, for the client.
    flushed: &'a Cell<usize>,
    pub bytes: Vec<u8>,
    /// How often it was called to write.
    pub writes: usize,
    /// How often the write that comes next was interrupted.
    interruptions: usize,
}

impl<'a> Receiver<'a> {
    /// A receiver to which nothing was written.
    pub fn new(alloc: Global, manner: Manner, flushed: &'a Cell<usize>) -> Receiver<'a> {
        Receiver {
            manner,
            flushed,
            bytes: Vec::new(alloc),
            writes: 0,
            interruptions: 0,
        }
    }
}

impl Write for Receiver<'_> {
    fn write(&mut self, bytes: &[u8]) -> io::Result<usize> {
        self.writes = self.writes.saturating_add(1);
        if self.interruptions < self.manner.interruptions() {
            self.interruptions = self.interruptions.saturating_add(1);
            return Err(Error::from(ErrorKind::Interrupted));
        }
        self.interruptions = 0;
        if self.manner.written() == Some(self.bytes.len()) {
            if matches!(self.manner, Manner::WriteStopsAfter(_)) {
                return Ok(0);
            }
            return Err(Error::from(ErrorKind::BrokenPipe));
        }
        let (taken, _) = bytes.split_at(bytes.len().min(self.manner.taken()));
        self.bytes.extend_from_slice(taken)?;
        Ok(taken.len())
    }

    fn flush(&mut self) -> io::Result<()> {
        self.flushed.set(self.bytes.len());
        Ok(())
    }
}
