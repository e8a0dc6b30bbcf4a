//! Clients that say a request slowly, but each part of it within its time.
use gs_gates_tests::{Job, one};
use gs_servers::OpenGate;
use gs_test_servers::{Setup, connected, hears_made, listening, say, served};
use std::alloc::Global;
use std::net::{Net, SocketAddr, TcpListener, TcpStream};
use std::random::RandomSource;
use std::sync::Wait;
use std::test::*;
use std::thread::Threads;
use std::time::{Clock, Duration};
use std::{io, thread};

/// A head in four parts, and a body of four bytes.
const HEAD_AND_BODY: [&[u8]; 8] = [
    b"PUT /graphs/a HTTP/1.1\r\nHost: a\r\n",
    b"Content-Type: application/n-triples\r\n",
    b"Connection: close\r\nContent-Length: ",
    b"4\r\n\r\n",
    b"\n",
    b"\n",
    b"\n",
    b"\n",
];

/// Eight KiB of empty lines.
const EMPTY_LINES: [u8; 8_192] = [b'\n'; 8_192];

/// A head, and a body of four times 8 KiB.
const LONG_BODY: [&[u8]; 5] = [
    b"PUT /graphs/a HTTP/1.1\r\nHost: a\r\nContent-Type: application/n-triples\r\nConnection: close\r\nContent-Length: 32768\r\n\r\n",
    &EMPTY_LINES,
    &EMPTY_LINES,
    &EMPTY_LINES,
    &EMPTY_LINES,
];

/// Says these parts of a request, and rests for so many milliseconds after each; whether its graph is made.
fn makes_slowly<N: Net<Stream = TcpStream> + Clock>(
    rt: &N,
    alloc: Global,
    addr: SocketAddr,
    parts: &[&[u8]],
    rest: u64,
) -> io::Result<bool> {
    let stream = connected(rt, addr)?;
    for part in parts {
        say(&stream, part)?;
        thread::sleep(rt, Duration::from_millis(rest));
    }
    hears_made(alloc, &stream)
}

/// Such a client.
#[derive(Drop)]
struct Slow<'a, R: Net<Stream = TcpStream> + Clock> {
    rt: &'a R,
    alloc: Global,
    addr: SocketAddr,
    parts: &'a [&'a [u8]],
    rest: u64,
}

impl<'a, R: Net<Stream = TcpStream> + Clock> Job for Slow<'a, R> {
    fn done(self) -> u64 {
        one(makes_slowly(self.rt, self.alloc, self.addr, self.parts, self.rest))
    }
}

/// The same beside a server that gives a head, and 8 KiB of a body, so many milliseconds in all.
fn made_within<
    R: Net<Listener = TcpListener, Stream = TcpStream>
        + Threads
        + Wait
        + Clock
        + RandomSource
        + Sync,
>(rt: &R, alloc: Global, parts: &[&[u8]], rest: u64, whole: u64) -> u64 {
    let Ok((listener, addr)) = listening(rt) else {
        return 0;
    };
    let setup = Setup {
        workers: 1,
        limit: 1,
        patience: 15_000,
        whole,
    };
    let client = Slow {
        rt,
        alloc,
        addr,
        parts,
        rest,
    };
    served(rt, alloc, &listener, setup, &OpenGate, client)
}

#[test]
fn a_head_and_its_body_have_a_time_each(rt: HostRuntime) -> Result<(), Fail> {
    assert_eq!(rt; made_within(&rt, rt.alloc(), &HEAD_AND_BODY, 250, 1_250), 1);
    Ok(())
}

#[test]
fn each_8_kib_of_a_body_have_their_time(rt: HostRuntime) -> Result<(), Fail> {
    assert_eq!(rt; made_within(&rt, rt.alloc(), &LONG_BODY, 400, 1_000), 1);
    Ok(())
}
