//! A read and a write that are interrupted again and again.
use gs_once::once;
use std::alloc::Global;
use std::io::{self, Error, ErrorKind, Read, Write};

/// How often the first read is interrupted, and the first write.
const INTERRUPTIONS: u32 = 1_048_576;

const ASKED: &str = "HEAD /graphs/h HTTP/1.1\r\nHost: a\r\n\r\n";

const SAID: &str = "HTTP/1.1 404 Not Found\r\nContent-Length: 0\r\nStore-Commit: 0\r\n\r\n";

/// Nothing, where all these interruptions were made; else one more of them.
fn interrupt(left: &mut u32) -> io::Result<()> {
    if *left == 0 {
        return Ok(());
    }
    *left -= 1;
    Err(Error::from(ErrorKind::Interrupted))
}

/// A text that is read after so many interruptions.
#[derive(Drop)]
struct Source {
    left: u32,
    text: &'static [u8],
}

impl Read for Source {
    fn read(&mut self, buffer: &mut [u8]) -> io::Result<usize> {
        interrupt(&mut self.left)?;
        self.text.read(buffer)
    }
}

/// What was written, after so many interruptions.
#[derive(Drop)]
struct Sink {
    left: u32,
    text: Vec<u8>,
}

impl Write for Sink {
    fn write(&mut self, bytes: &[u8]) -> io::Result<usize> {
        interrupt(&mut self.left)?;
        self.text.write(bytes)
    }

    fn flush(&mut self) -> io::Result<()> {
        Ok(())
    }
}

/// Whether a connection is served whole over this reader and this writer.
fn is_served(alloc: Global, reads: u32, writes: u32) -> bool {
    let mut source = Source {
        left: reads,
        text: ASKED.as_bytes(),
    };
    let mut sink = Sink {
        left: writes,
        text: Vec::new(alloc),
    };
    let mut err = Vec::new(alloc);
    once(alloc, &["gsd", "--once"], &mut source, &mut sink, &mut err) == 0
        && sink.text.as_slice() == SAID.as_bytes()
        && err.is_empty()
}

#[test]
fn a_read_that_was_interrupted_is_made_again(rt: HostRuntime) {
    assert!(rt; is_served(rt.alloc(), INTERRUPTIONS, 0));
}

#[test]
fn a_write_that_was_interrupted_is_made_again(rt: HostRuntime) {
    assert!(rt; is_served(rt.alloc(), 0, INTERRUPTIONS));
}
