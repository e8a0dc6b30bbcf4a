//! Clients that leave in the middle.
use gs_event::{Action, Event};
use gs_gates_tests::{Job, one};
use gs_servers::{Gate, OpenGate};
use gs_test_servers::{
    Setup, ask, comes, connected, get, hears_made, is_missing, put, say, served, two_connected,
};
use std::alloc::{AllocError, Global};
use std::io;
use std::io::Read;
use std::net::{Net, TcpListener, TcpStream};
use std::random::RandomSource;
use std::sync::Wait;
use std::sync::atomic::{AtomicU64, Ordering};
use std::test::*;
use std::thread::Threads;
use std::time::Clock;

/// Begins to put a graph and leaves; then another client asks for it; whether that found none.
fn leaves_upload(alloc: Global, first: TcpStream, second: TcpStream) -> io::Result<bool> {
    let request = put(alloc, "half", "<a:a> <a:b> \"1\" .\n<a:a> <a:b> \"2\" .\n")?;
    let (front, _) = request
        .as_bytes()
        .split_at(request.len().saturating_sub(10));
    say(&first, front)?;
    drop(first);
    is_missing(alloc, second, "half")
}

/// Both clients.
#[derive(Drop)]
struct Writers {
    alloc: Global,
    first: TcpStream,
    second: TcpStream,
}

impl Job for Writers {
    fn done(self) -> u64 {
        one(leaves_upload(self.alloc, self.first, self.second))
    }
}

/// One worker, for whom a read may wait longer than the second client waits.
fn upload_may_be_left<
    R: Net<Listener = TcpListener, Stream = TcpStream>
        + Threads
        + Wait
        + Clock
        + RandomSource
        + Sync,
>(rt: &R, alloc: Global) -> u64 {
    let Ok((listener, first, second)) = two_connected(rt) else {
        return 0;
    };
    let setup = Setup {
        workers: 1,
        limit: 2,
        patience: 30_000,
        whole: 60_000,
    };
    let clients = Writers {
        alloc,
        first,
        second,
    };
    served(rt, alloc, &listener, setup, &OpenGate, clients)
}

/// Holds the second piece until the client that reads has left.
#[derive(Drop)]
struct Leave<'a, K: Clock> {
    clock: &'a K,
    pieces: AtomicU64,
    left: AtomicU64,
    late: AtomicU64,
}

impl<'a, K: Clock> Gate for Leave<'a, K> {
    fn before(&self, _seat: u16, event: &Event) {
        let Event::Seat(_, Action::Piece(_)) = event else {
            return;
        };
        let is_second = self.pieces.fetch_add(1, Ordering::SeqCst) == 1;
        if is_second && !comes(self.clock, &self.left, 1) {
            self.late.fetch_add(1, Ordering::SeqCst);
        }
    }
}

/// The bytes of a text that each line has twice. A piece of two such lines has 140,000 bytes, and is too long to
/// wait for the next one.
const LINE_BYTES: usize = 35_000;

/// The five lines of a graph, which is read in three pieces.
fn five_lines(alloc: Global) -> Result<String, AllocError> {
    let mut long = String::new(alloc);
    for _ in 0..LINE_BYTES {
        long.push('x')?;
    }
    let mut lines = String::new(alloc);
    for line in 0..5 {
        let text = format!(in alloc; "<a:{long}> <a:b> \"{line}{long}\" .\n")?;
        lines.push_str(text.as_str())?;
    }
    Ok(lines)
}

/// Begins to read, and leaves; whether the read began.
fn begins(stream: TcpStream, request: &str) -> io::Result<bool> {
    say(&stream, request.as_bytes())?;
    let mut start = [0u8; 12];
    (&mut &stream).read_exact(&mut start)?;
    Ok(start.as_slice() == b"HTTP/1.1 200".as_slice())
}

/// Whether this request is answered with six texts between the ends of lines, so with five lines.
fn reads_whole(alloc: Global, stream: TcpStream, request: &str) -> io::Result<bool> {
    let reply = ask(alloc, stream, request)?;
    let parts = reply.as_str().split(" .\n").count();
    Ok(reply.as_str().starts_with("HTTP/1.1 200 ") && parts == 6)
}

/// Whether the graph of five lines could be made.
fn is_made(alloc: Global, stream: TcpStream) -> io::Result<bool> {
    let lines = five_lines(alloc)?;
    let upload = put(alloc, "read", lines.as_str())?;
    say(&stream, upload.as_bytes())?;
    hears_made(alloc, &stream)
}

/// One client puts a graph, another leaves while it reads that, and a third reads it whole.
fn leaves_read<K: Clock>(
    alloc: Global,
    gate: &Leave<'_, K>,
    first: TcpStream,
    second: TcpStream,
    third: TcpStream,
) -> io::Result<bool> {
    let made = is_made(alloc, first)?;
    let read = get(alloc, "read")?;
    let began = begins(second, read.as_str());
    gate.left.fetch_add(1, Ordering::SeqCst);
    let whole = reads_whole(alloc, third, read.as_str())?;
    Ok(made && whole && began?)
}

/// The three clients.
#[derive(Drop)]
struct Readers<'a, K: Clock> {
    alloc: Global,
    gate: &'a Leave<'a, K>,
    first: TcpStream,
    second: TcpStream,
    third: TcpStream,
}

impl<'a, K: Clock> Job for Readers<'a, K> {
    fn done(self) -> u64 {
        one(leaves_read(self.alloc, self.gate, self.first, self.second, self.third))
    }
}

/// A listener, and three connections to it.
fn three_connected<R: Net<Listener = TcpListener, Stream = TcpStream>>(
    rt: &R,
) -> io::Result<(TcpListener, TcpStream, TcpStream, TcpStream)> {
    let (listener, first, second) = two_connected(rt)?;
    let third = connected(rt, listener.local_addr()?)?;
    Ok((listener, first, second, third))
}

/// One worker, for whom a write may wait longer than the third client waits.
fn read_may_be_left<
    R: Net<Listener = TcpListener, Stream = TcpStream>
        + Threads
        + Wait
        + Clock
        + RandomSource
        + Sync,
>(rt: &R, alloc: Global) -> u64 {
    let Ok((listener, first, second, third)) = three_connected(rt) else {
        return 0;
    };
    let gate = Leave {
        clock: rt,
        pieces: AtomicU64::new(0),
        left: AtomicU64::new(0),
        late: AtomicU64::new(0),
    };
    let setup = Setup {
        workers: 1,
        limit: 3,
        patience: 30_000,
        whole: 60_000,
    };
    let clients = Readers {
        alloc,
        gate: &gate,
        first,
        second,
        third,
    };
    let right = served(rt, alloc, &listener, setup, &gate, clients);
    if gate.late.load(Ordering::SeqCst) == 0 {
        right
    } else {
        0
    }
}

#[test]
fn a_client_may_leave_in_the_middle_of_an_upload(rt: HostRuntime) -> Result<(), Fail> {
    assert_eq!(rt; upload_may_be_left(&rt, rt.alloc()), 1);
    Ok(())
}

#[test]
fn a_client_may_leave_in_the_middle_of_a_read(rt: HostRuntime) -> Result<(), Fail> {
    assert_eq!(rt; read_may_be_left(&rt, rt.alloc()), 1);
    Ok(())
}
