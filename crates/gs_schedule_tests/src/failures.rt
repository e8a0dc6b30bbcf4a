//! Reads and writes that fail in mid-stream.
use gs_drill::drill;
use std::alloc::Global;
use std::io::{self, Error, ErrorKind, Read, Write};

/// A schedule, and what it prints.
const INPUT: &str =
    "0 open put default\n0 stage <http://e/s> <http://e/p> \"1\" .\n0 commit\n0 pin default\n0 piece 1\n";

const OUTPUT: &str = "opened 1\nstaged\n204\n200\n<http://e/s> <http://e/p> \"1\" .\nend\n";

/// A reader that gives a byte a call, and fails so once so many are given.
#[derive(Drop)]
struct BrokenReader<'a> {
    left: &'a [u8],
    given: usize,
    fails_at: usize,
    kind: ErrorKind,
}

impl Read for BrokenReader<'_> {
    fn read(&mut self, buffer: &mut [u8]) -> io::Result<usize> {
        if self.given >= self.fails_at {
            return Err(Error::from(self.kind));
        }
        if buffer.is_empty() || self.left.is_empty() {
            return Ok(0);
        }
        buffer[0] = self.left[0];
        self.left = &self.left[1..];
        self.given = self.given.saturating_add(1);
        Ok(1)
    }
}

/// A writer that takes a byte a call, and fails once so many are taken, or when it is flushed.
#[derive(Drop)]
struct BrokenWriter {
    taken: Vec<u8>,
    fails_at: usize,
    flush_fails: bool,
}

impl Write for BrokenWriter {
    fn write(&mut self, bytes: &[u8]) -> io::Result<usize> {
        if self.taken.len() >= self.fails_at {
            return Err(Error::from(ErrorKind::BrokenPipe));
        }
        if bytes.is_empty() {
            return Ok(0);
        }
        self.taken.push(bytes[0])?;
        Ok(1)
    }

    fn flush(&mut self) -> io::Result<()> {
        if self.flush_fails {
            return Err(Error::from(ErrorKind::BrokenPipe));
        }
        Ok(())
    }
}

/// How a run ends from a reader that fails so: its status, and what is said of it.
type End = (ErrorKind, u8, &'static str);

const BROKEN: End = (ErrorKind::BrokenPipe, 1, "");

/// A reader's request for memory is refused.
const NO_MEMORY: End = (ErrorKind::OutOfMemory, 3, "gsdrill: no memory\n");

/// Whether the schedule's run from a reader that fails there ends so, with nothing printed.
fn ends_at_read(alloc: Global, fails_at: usize, end: &End) -> bool {
    let mut reader = BrokenReader {
        left: INPUT.as_bytes(),
        given: 0,
        fails_at,
        kind: end.0,
    };
    let mut out = Vec::new(alloc);
    let mut err = Vec::new(alloc);
    let status = drill(alloc, &mut reader, &mut out, &mut err);
    status == end.1 && out.is_empty() && err.as_slice() == end.2.as_bytes()
}

/// The first of these places at which a failed read does not end the run so.
fn wrong_read(alloc: Global, places: &[usize], end: &End) -> Option<usize> {
    for place in places {
        if !ends_at_read(alloc, *place, end) {
            return Some(*place);
        }
    }
    None
}

#[test]
fn a_failed_read_ends_the_run(rt: HostRuntime) {
    let places = [0, 1, 30, INPUT.len() - 1, INPUT.len()];
    assert_eq!(rt; wrong_read(rt.alloc(), &places, &BROKEN), None);
}

/// Want of memory outside an event has a status of its own.
#[test]
fn a_refused_request_ends_the_run(rt: HostRuntime) {
    let places = [0, 1, 30, INPUT.len() - 1, INPUT.len()];
    assert_eq!(rt; wrong_read(rt.alloc(), &places, &NO_MEMORY), None);
}

/// A writer that takes so many bytes, and whether a flush of it fails.
fn writer(alloc: Global, fails_at: usize, flush_fails: bool) -> BrokenWriter {
    BrokenWriter {
        taken: Vec::new(alloc),
        fails_at,
        flush_fails,
    }
}

/// Whether an input's run to such a writer ends with this status, and exactly this is taken.
fn takes(alloc: Global, input: &str, mut out: BrokenWriter, status: u8, want: &[u8]) -> bool {
    let mut reader = input.as_bytes();
    let mut err = Vec::new(alloc);
    let ended = drill(alloc, &mut reader, &mut out, &mut err);
    ended == status && out.taken.as_slice() == want
}

/// The first of these places at which a failed write does not end the run with exactly so many bytes.
fn wrong_write(alloc: Global, places: &[usize]) -> Option<usize> {
    for place in places {
        let want = OUTPUT.as_bytes().get(..*place).unwrap_or_default();
        if want.len() != *place || !takes(alloc, INPUT, writer(alloc, *place, false), 1, want) {
            return Some(*place);
        }
    }
    None
}

#[test]
fn a_failed_write_ends_the_run_and_keeps_a_front(rt: HostRuntime) {
    let places = [0, 1, 8, 9, 20, OUTPUT.len() - 1];
    assert_eq!(rt; wrong_write(rt.alloc(), &places), None);
}

/// A schedule that ends at its second line, and what is said of that.
const STOPPED: &str = "0 pin default\nno command\n";

const SAID: &str = "gsdrill: line 2 is no command\n";

/// Schedules, and what they print before their flush fails.
const UNFLUSHED: [(&str, &str); 3] = [(INPUT, OUTPUT), ("", ""), (STOPPED, "200\n")];

/// The first of them that does not end so.
fn wrong_flush(alloc: Global) -> Option<&'static str> {
    for (input, want) in &UNFLUSHED {
        let out = writer(alloc, usize::MAX, true);
        if !takes(alloc, input, out, 1, want.as_bytes()) {
            return Some(input);
        }
    }
    None
}

/// Also where the last line is no command, and where nothing was written.
#[test]
fn a_failed_flush_ends_the_run(rt: HostRuntime) {
    assert_eq!(rt; wrong_flush(rt.alloc()), None);
}

/// Whether a run that stops ends with status 1 where such a writer gets what is said of that: it
/// takes exactly this.
fn says(alloc: Global, mut err: BrokenWriter, want: &[u8]) -> bool {
    let mut reader = STOPPED.as_bytes();
    let mut out = Vec::new(alloc);
    let status = drill(alloc, &mut reader, &mut out, &mut err);
    status == 1 && out.as_slice() == b"200\n".as_slice() && err.taken.as_slice() == want
}

/// What is said of an early end is flushed too. The writer takes a prefix of it, or all of it.
#[test]
fn a_failed_flush_or_write_of_err_ends_the_run(rt: HostRuntime) {
    let alloc = rt.alloc();
    let said = SAID.as_bytes();
    assert!(rt; says(alloc, writer(alloc, usize::MAX, true), said));
    assert!(rt; says(alloc, writer(alloc, 0, false), b""));
    let front = &said[..SAID.len() - 1];
    assert!(rt; says(alloc, writer(alloc, SAID.len() - 1, false), front));
}

#[test]
fn a_writer_of_one_byte_a_call_gets_the_same(rt: HostRuntime) {
    let out = writer(rt.alloc(), usize::MAX, false);
    assert!(rt; takes(rt.alloc(), INPUT, out, 0, OUTPUT.as_bytes()));
}
