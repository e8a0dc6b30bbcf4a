//! Command lines with what they read, write and say.
use gs_once::once;
use std::alloc::{AllocError, Global};
use std::io::{self, Error, ErrorKind, Read, Write};

const HELP: &str = "\
Serves a graph store over HTTP: at an address, or one connection from standard
input to standard output.

Usage: gsd --listen ADDR [--base URL] [--workers N] [--piece N]
       gsd --once [--base URL] [--piece N]

  --listen ADDR  serve the connections to this address, as 127.0.0.1:8080
  --once         serve one connection over a new store, and end
  --base URL     http://HOST, which names begin with (default http://localhost)
  --workers N    requests at once, 1 to 256 (default 4)
  --piece N      lines of a piece of a reply, 1 to 4096 (default 256)
  -h, --help     show this text
";

/// Makes a graph, of no triples.
const MAKE: &str = "POST /store HTTP/1.1\r\nHost: a\r\nContent-Length: 0\r\n\r\n";

/// A request whose reply closes.
const LAST: &str = "DELETE /graphs/h HTTP/1.1\r\nHost: a\r\nConnection: close\r\n\r\n";

const MADE: &str =
    "HTTP/1.1 201 Created\r\nContent-Length: 0\r\nLocation: http://localhost/graphs/n1-0\r\nStore-Commit: 1\r\n\r\n";

const MADE_ELSEWHERE: &str =
    "HTTP/1.1 201 Created\r\nContent-Length: 0\r\nLocation: http://example.org:8080/graphs/n1-0\r\nStore-Commit: 1\r\n\r\n";

/// Makes a graph of two triples, and asks for it.
const TWO: &str =
    "POST /store HTTP/1.1\r\nHost: a\r\nContent-Type: text/turtle\r\nContent-Length: 16\r\n\r\n<a:a> <a:b> 1,2.GET /graphs/n1-0 HTTP/1.1\r\nHost: a\r\n\r\n";

/// Two pieces of one line each.
const IN_PIECES: &str = "\
HTTP/1.1 201 Created\r\nContent-Length: 0\r\nLocation: http://localhost/graphs/n1-0\r\nStore-Commit: 1\r\n\r\n\
HTTP/1.1 200 OK\r\nContent-Type: application/n-triples\r\nTransfer-Encoding: chunked\r\nStore-Commit: 1\r\n\r\n\
3e\r\n<a:a> <a:b> \"1\"^^<http://www.w3.org/2001/XMLSchema#integer> .\n\r\n\
3e\r\n<a:a> <a:b> \"2\"^^<http://www.w3.org/2001/XMLSchema#integer> .\n\r\n0\r\n\r\n";

/// Command lines that are done, with what they read and write.
const DONE: &[(&str, &str, &str)] = &[
    ("gsd --once", "", ""),
    ("gsd --once", MAKE, MADE),
    ("gsd --once --piece 1", TWO, IN_PIECES),
    ("gsd --piece=+1 --once", TWO, IN_PIECES),
    ("gsd --once --piece 4096", MAKE, MADE),
    (
        "gsd --once --base=http://example.org:8080",
        MAKE,
        MADE_ELSEWHERE,
    ),
    ("gsd --once --workers 9", MAKE, MADE),
    ("gsd --workers=256 --once", MAKE, MADE),
    ("gsd --help", MAKE, HELP),
    ("gsd --listen x --help", MAKE, HELP),
    ("gsd -h", MAKE, HELP),
];

/// Command lines that ask for nothing.
const BAD: &[&str] = &[
    "",
    "gsd",
    "gsd --piece 7",
    "gsd --once --once",
    "gsd --once --piece",
    "gsd --once --piece 0",
    "gsd --once --piece 4097",
    "gsd --once --piece x",
    "gsd --once --base http://",
    "gsd --once --base ftp://x",
    "gsd --once --other",
    "gsd --once more",
    "gsd --workers 4",
    "gsd --listen",
    "gsd --listen 127.0.0.1:0 --once",
    "gsd --once --listen 127.0.0.1:0",
    "gsd --listen 127.0.0.1:0 --listen 127.0.0.1:0",
    "gsd --listen 127.0.0.1:0 --workers 0",
    "gsd --listen 127.0.0.1:0 --workers 257",
    "gsd --listen 127.0.0.1:0 --workers x",
    "gsd --listen 127.0.0.1:0 --piece 0",
    "gsd --listen 127.0.0.1:0 --base ftp://x",
    "gsd --once --workers 0",
    "gsd --once --workers 257",
    "gsd --once --workers x",
    "gsd --once --workers",
    "gsd --once --workers 4 --workers 4",
];

/// Command lines that ask for listening, which a run without a network cannot.
const FOR_LISTENERS: &[&str] = &[
    "gsd --listen 127.0.0.1:0",
    "gsd --listen=127.0.0.1:0 --workers 256 --piece=1 --base http://example.org:8080",
    "gsd --workers +1 --listen x",
    "gsd --listen=",
];

/// Command lines with what they read, where a writer fails.
const BROKEN: &[(&str, &str, Broken)] = &[
    ("gsd --once", MAKE, Broken::Writes),
    ("gsd --help", MAKE, Broken::Writes),
    ("gsd --once", MAKE, Broken::TakesNothing),
    ("gsd --help", MAKE, Broken::TakesNothing),
    ("gsd --once", "", Broken::Flushes),
    ("gsd --once", MAKE, Broken::Flushes),
    ("gsd --once", MAKE, Broken::FlushesAfterWrites),
    ("gsd --once", LAST, Broken::FlushesAfterWrites),
    ("gsd --help", MAKE, Broken::Flushes),
];

/// The words of a line.
fn split(alloc: Global, line: &str) -> Result<Vec<&str>, AllocError> {
    let mut words = Vec::new(alloc);
    for word in line.split_ascii_whitespace() {
        words.push(word)?;
    }
    Ok(words)
}

/// Whether a command line has this status and these texts.
fn is_right(alloc: Global, line: &str, input: &str, status: u8, output: &str, said: &str) -> bool {
    let Ok(words) = split(alloc, line) else {
        return false;
    };
    let mut reader = input.as_bytes();
    let mut out = Vec::new(alloc);
    let mut err = Vec::new(alloc);
    once(alloc, words.as_slice(), &mut reader, &mut out, &mut err) == status
        && out.as_slice() == output.as_bytes()
        && err.as_slice() == said.as_bytes()
}

/// The first line that is not done as its row says.
fn wrong_done(alloc: Global) -> Option<&'static str> {
    for (line, input, output) in DONE {
        if !is_right(alloc, line, input, 0, output, "") {
            return Some(line);
        }
    }
    None
}

/// The first of these lines that is not refused so, with nothing written.
fn wrong_refused(
    alloc: Global,
    lines: &[&'static str],
    status: u8,
    said: &str,
) -> Option<&'static str> {
    for line in lines {
        if !is_right(alloc, line, MAKE, status, "", said) {
            return Some(line);
        }
    }
    None
}

/// What fails at each read, and at each write, each flush, or each flush after a write; or takes nothing of
/// the first write, and fails at no write then, so that a run that asked again would end.
#[derive(Clone, Copy, Drop)]
enum Broken {
    Writes,
    TakesNothing,
    Reads,
    Flushes,
    FlushesAfterWrites,
}

impl Read for Broken {
    fn read(&mut self, _buffer: &mut [u8]) -> io::Result<usize> {
        Err(Error::from(ErrorKind::ConnectionReset))
    }
}

impl Write for Broken {
    fn write(&mut self, bytes: &[u8]) -> io::Result<usize> {
        if matches!(self, Broken::Writes) {
            return Err(Error::from(ErrorKind::BrokenPipe));
        }
        if matches!(self, Broken::TakesNothing) {
            *self = Broken::Reads;
            return Ok(0);
        }
        if matches!(self, Broken::FlushesAfterWrites) {
            *self = Broken::Flushes;
        }
        Ok(bytes.len())
    }

    fn flush(&mut self) -> io::Result<()> {
        if matches!(self, Broken::Flushes) {
            return Err(Error::from(ErrorKind::BrokenPipe));
        }
        Ok(())
    }
}

fn says_that_a_read_failed(alloc: Global) -> bool {
    let mut out = Vec::new(alloc);
    let mut err = Vec::new(alloc);
    let status = once(
        alloc,
        &["gsd", "--once"],
        &mut Broken::Writes,
        &mut out,
        &mut err,
    );
    status == 1 && out.is_empty() && err.as_slice() == b"gsd: read failed\n".as_slice()
}

/// Whether this run, whose writer is broken, says that a write failed.
fn says_that_a_write_failed<R: Read + Drop>(
    alloc: Global,
    line: &str,
    mut reader: R,
    mut out: Broken,
) -> bool {
    let Ok(words) = split(alloc, line) else {
        return false;
    };
    let mut err = Vec::new(alloc);
    let status = once(alloc, words.as_slice(), &mut reader, &mut out, &mut err);
    status == 1 && err.as_slice() == b"gsd: write failed\n".as_slice()
}

/// The first run that does not say that a write failed.
fn wrong_broken(alloc: Global) -> Option<&'static str> {
    for (line, input, out) in BROKEN {
        if !says_that_a_write_failed(alloc, line, input.as_bytes(), *out) {
            return Some(line);
        }
    }
    // What was written is flushed before a read.
    let (line, reader, out) = ("gsd --once", Broken::Writes, Broken::Flushes);
    if says_that_a_write_failed(alloc, line, reader, out) {
        None
    } else {
        Some(line)
    }
}

fn status_with_nothing_said(alloc: Global, words: &[&str]) -> u8 {
    once(
        alloc,
        words,
        &mut Broken::Writes,
        &mut Broken::Writes,
        &mut Broken::Writes,
    )
}

#[test]
fn what_is_asked_for_is_done(rt: HostRuntime) {
    assert_eq!(rt; wrong_done(rt.alloc()), None);
}

#[test]
fn bad_arguments_are_refused(rt: HostRuntime) {
    assert_eq!(rt;
        wrong_refused(rt.alloc(), BAD, 2, "gsd: bad arguments\n"),
        None
    );
}

#[test]
fn without_a_network_nothing_is_listened_at(rt: HostRuntime) {
    assert_eq!(rt;
        wrong_refused(rt.alloc(), FOR_LISTENERS, 3, "gsd: cannot listen\n"),
        None
    );
}

#[test]
fn a_failed_read_write_or_flush_is_said(rt: HostRuntime) {
    assert!(rt; says_that_a_read_failed(rt.alloc()));
    assert_eq!(rt; wrong_broken(rt.alloc()), None);
}

#[test]
fn a_status_stays_where_nothing_can_be_said(rt: HostRuntime) {
    assert_eq!(rt; status_with_nothing_said(rt.alloc(), &["gsd"]), 2);
    assert_eq!(rt;
        status_with_nothing_said(rt.alloc(), &["gsd", "--listen", "x"]),
        3
    );
    assert_eq!(rt; status_with_nothing_said(rt.alloc(), &["gsd", "--once"]), 1);
    assert_eq!(rt; status_with_nothing_said(rt.alloc(), &["gsd", "--help"]), 1);
}
