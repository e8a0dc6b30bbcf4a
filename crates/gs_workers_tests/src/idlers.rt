//! More clients than workers, who keep their connections.
use gs_gates_tests::{Job, one};
use gs_servers::OpenGate;
use gs_test_servers::{Setup, connected, hears_none, listening, say, served};
use std::alloc::Global;
use std::io::Read;
use std::net::{Net, SocketAddr, TcpListener, TcpStream};
use std::random::RandomSource;
use std::sync::Wait;
use std::test::*;
use std::thread::Threads;
use std::time::{Clock, Duration};
use std::{io, thread};

/// How many clients keep their connections.
const KEPT: u64 = 8;

/// What they ask, and the same for a client that leaves then.
const ASK: &[u8] = b"HEAD /graphs/none HTTP/1.1\r\nHost: a\r\n\r\n";

const LAST: &[u8] = b"HEAD /graphs/none HTTP/1.1\r\nHost: a\r\nConnection: close\r\n\r\n";

/// The most bytes of a reply.
const MOST_BYTES: usize = 1_000;

/// Whether the next reply has this status; its connection is kept.
fn hears(stream: &TcpStream, status: &[u8]) -> io::Result<bool> {
    let mut input = stream;
    let mut head = [0u8; MOST_BYTES];
    for at in 0..MOST_BYTES {
        input.read_exact(&mut head[at..at + 1])?;
        if head[..at + 1].ends_with(b"\r\n\r\n") {
            return Ok(head.starts_with(status));
        }
    }
    Ok(false)
}

/// Whether each of these clients asks, and is answered.
fn all_hear(streams: &[TcpStream]) -> io::Result<bool> {
    for stream in streams {
        say(stream, ASK)?;
    }
    for stream in streams {
        if !hears(stream, MISSING)? {
            return Ok(false);
        }
    }
    Ok(true)
}

/// Whether a client that connects now is answered.
fn one_more_hears<N: Net<Stream = TcpStream>>(
    rt: &N,
    alloc: Global,
    addr: SocketAddr,
) -> io::Result<bool> {
    let stream = connected(rt, addr)?;
    say(&stream, LAST)?;
    hears_none(alloc, &stream)
}

/// More clients than workers ask, and keep their connections; one more is answered; and then each of the
/// first asks again.
fn ask_and_stay<N: Net<Stream = TcpStream>>(
    rt: &N,
    alloc: Global,
    addr: SocketAddr,
) -> io::Result<bool> {
    let mut kept = Vec::new(alloc);
    for _ in 0..KEPT {
        kept.push(connected(rt, addr)?)?;
    }
    let first = all_hear(kept.as_slice())?;
    let more = one_more_hears(rt, alloc, addr)?;
    Ok(first && more && all_hear(kept.as_slice())?)
}

/// What a client says at once, and what it hears then.
struct Part {
    said: &'static [u8],
    status: &'static [u8],
    replies: usize,
}

const MISSING: &[u8] = b"HTTP/1.1 404 ";

/// Requests that are cut within heads, between a head and its body, and within what follows another one.
const PARTS: [Part; 14] = [
    Part {
        said: ASK,
        status: MISSING,
        replies: 1,
    },
    Part {
        said: b"HEAD /graphs/none HTTP/1.1\r\nHost: a\r\n\r\nHEAD /graphs/none HTTP/1.1\r\nHost: a\r\n\r\nHEAD /gra",
        status: MISSING,
        replies: 2,
    },
    Part {
        said: b"phs/none HTTP/1.1\r\nHost: a\r\n\r\n",
        status: MISSING,
        replies: 1,
    },
    Part {
        said: b"HEAD /graphs/none HT",
        status: MISSING,
        replies: 0,
    },
    Part {
        said: b"TP/1.1\r\nHost: a\r\n\r\n",
        status: MISSING,
        replies: 1,
    },
    Part {
        said: b"HEAD /graphs/none HTTP/1.1\r\nHost: a\r\n\r\nHEAD /graphs/none HTTP/1.1\r\nHost: a\r\nContent-Length: 3\r\n\r\n",
        status: MISSING,
        replies: 1,
    },
    Part {
        said: b"abc",
        status: MISSING,
        replies: 1,
    },
    Part {
        said: b"HEAD /graphs/none HTTP/1.1\r\nHost: a\r\nContent-Length: 3\r\n\r\n",
        status: MISSING,
        replies: 0,
    },
    Part {
        said: b"abc",
        status: MISSING,
        replies: 1,
    },
    Part {
        said: b"PUT /graphs/a HTTP/1.1\r\nHost: a\r\nContent-Type: application/n-triples\r\nExpect: 100-continue\r\nContent-Length: 1\r\n\r\n",
        status: b"HTTP/1.1 100 ",
        replies: 1,
    },
    Part {
        said: b"\n",
        status: b"HTTP/1.1 201 ",
        replies: 1,
    },
    Part {
        said: b"HEAD /graphs/none HTTP/1.1\r\nHost: a\r\n\r\nHEAD /graphs/none HTTP/1.1\r\nHost: a\r\nContent-Length: 3\r\n",
        status: MISSING,
        replies: 1,
    },
    Part {
        said: b"\r\nabcHEAD /graphs/none HTTP/1.1\r\nHost: a\r\nContent-Length: 3\r\n\r\n",
        status: MISSING,
        replies: 1,
    },
    Part {
        said: b"abc",
        status: MISSING,
        replies: 1,
    },
];

/// How long nothing is said after a part, in milliseconds: longer than a worker serves a connection while
/// others wait, and where a request is under way, longer than one read waits.
fn rest_after(part: &Part) -> u64 {
    if part.replies == 0 { 1_200 } else { 50 }
}

/// Says a part, and whether it is answered so. Then nothing is said for a while.
fn is_answered<K: Clock>(rt: &K, stream: &TcpStream, part: &Part) -> io::Result<bool> {
    say(stream, part.said)?;
    for _ in 0..part.replies {
        if !hears(stream, part.status)? {
            return Ok(false);
        }
    }
    thread::sleep(rt, Duration::from_millis(rest_after(part)));
    Ok(true)
}

/// One of two clients of one worker says these parts; how many of them are answered as they should be.
fn parts_answered<N: Net<Stream = TcpStream> + Clock>(rt: &N, addr: SocketAddr) -> io::Result<u64> {
    let silent = connected(rt, addr)?;
    let stream = connected(rt, addr)?;
    let mut answered = 0u64;
    for part in &PARTS {
        if !is_answered(rt, &stream, part)? {
            break;
        }
        answered = answered.saturating_add(1);
    }
    drop(silent);
    Ok(answered)
}

/// A head whose body has a hundred bytes.
const BEGIN: &[u8] =
    b"PUT /graphs/a HTTP/1.1\r\nHost: a\r\nContent-Type: application/n-triples\r\nContent-Length: 100\r\n\r\n";

/// Such a body.
const BODY: [u8; 100] = [b'#'; 100];

/// Sends this at once, and that byte by byte, each within the time of a read; whether the connection ends
/// with no reply.
fn trickle_ends<N: Net<Stream = TcpStream> + Clock>(
    rt: &N,
    addr: SocketAddr,
    at_once: &[u8],
    slowly: &[u8],
) -> io::Result<bool> {
    let stream = connected(rt, addr)?;
    say(&stream, at_once)?;
    for byte in slowly.chunks(1) {
        if say(&stream, byte).is_err() {
            return Ok(true);
        }
        thread::sleep(rt, Duration::from_millis(30));
    }
    Ok(hears(&stream, MISSING).is_err())
}

/// Which clients there are.
#[derive(Clone, Copy)]
enum Kind {
    Stay,
    Part,
    Head,
    Body,
}

/// They.
#[derive(Drop)]
struct Clients<'a, R: Net<Stream = TcpStream> + Clock> {
    rt: &'a R,
    alloc: Global,
    addr: SocketAddr,
    kind: Kind,
}

impl<'a, R: Net<Stream = TcpStream> + Clock> Job for Clients<'a, R> {
    fn done(self) -> u64 {
        one(match self.kind {
            Kind::Stay => ask_and_stay(self.rt, self.alloc, self.addr),
            Kind::Part => return parts_answered(self.rt, self.addr).unwrap_or(0),
            Kind::Head => trickle_ends(self.rt, self.addr, b"", ASK),
            Kind::Body => trickle_ends(self.rt, self.addr, BEGIN, &BODY),
        })
    }
}

/// What such clients count beside a server.
fn counted<
    R: Net<Listener = TcpListener, Stream = TcpStream>
        + Threads
        + Wait
        + Clock
        + RandomSource
        + Sync,
>(rt: &R, alloc: Global, setup: Setup, kind: Kind) -> u64 {
    let Ok((listener, addr)) = listening(rt) else {
        return 0;
    };
    let clients = Clients {
        rt,
        alloc,
        addr,
        kind,
    };
    served(rt, alloc, &listener, setup, &OpenGate, clients)
}

#[test]
fn more_clients_than_workers_keep_their_connections(rt: HostRuntime) -> Result<(), Fail> {
    let setup = Setup {
        workers: 2,
        limit: KEPT + 1,
        patience: 15_000,
        whole: 60_000,
    };
    assert_eq!(rt; counted(&rt, rt.alloc(), setup, Kind::Stay), 1);
    Ok(())
}

#[test]
fn a_part_of_a_request_stays_with_its_worker(rt: HostRuntime) -> Result<(), Fail> {
    let setup = Setup {
        workers: 1,
        limit: 2,
        patience: 15_000,
        whole: 60_000,
    };
    assert_eq!(rt; counted(&rt, rt.alloc(), setup, Kind::Part), 14);
    Ok(())
}

#[test]
fn a_head_that_comes_byte_by_byte_ends(rt: HostRuntime) -> Result<(), Fail> {
    let setup = Setup {
        workers: 1,
        limit: 1,
        patience: 15_000,
        whole: 300,
    };
    assert_eq!(rt; counted(&rt, rt.alloc(), setup, Kind::Head), 1);
    Ok(())
}

#[test]
fn a_body_that_comes_byte_by_byte_ends(rt: HostRuntime) -> Result<(), Fail> {
    let setup = Setup {
        workers: 1,
        limit: 1,
        patience: 15_000,
        whole: 300,
    };
    assert_eq!(rt; counted(&rt, rt.alloc(), setup, Kind::Body), 1);
    Ok(())
}
