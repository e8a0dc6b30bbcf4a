//! A gate is asked once whether a server begins, before the first connection.
use gs_event::Event;
use gs_gates_tests::{Job, one};
use gs_servers::Gate;
use gs_test_servers::{Setup, connected, get, hears_none, listening, say, served};
use std::alloc::Global;
use std::io;
use std::net::{Net, SocketAddr, TcpListener, TcpStream};
use std::random::RandomSource;
use std::sync::Wait;
use std::sync::atomic::{AtomicU64, Ordering};
use std::test::*;
use std::thread::Threads;
use std::time::Clock;

/// Says whether connections are wanted, and counts how often it was asked, and the events before and after
/// that.
#[derive(Drop)]
struct Asked {
    is_wanted: bool,
    asked: AtomicU64,
    before: AtomicU64,
    after: AtomicU64,
}

impl Asked {
    fn new(is_wanted: bool) -> Asked {
        Asked {
            is_wanted,
            asked: AtomicU64::new(0),
            before: AtomicU64::new(0),
            after: AtomicU64::new(0),
        }
    }

    /// Whether it was asked once, before this many events.
    fn is_right(&self, events: u64) -> bool {
        self.asked.load(Ordering::SeqCst) == 1
            && self.before.load(Ordering::SeqCst) == 0
            && self.after.load(Ordering::SeqCst) == events
    }
}

impl Gate for Asked {
    fn before(&self, _seat: u16, _event: &Event) {
        if self.asked.load(Ordering::SeqCst) == 0 {
            self.before.fetch_add(1, Ordering::SeqCst);
        } else {
            self.after.fetch_add(1, Ordering::SeqCst);
        }
    }

    fn ready(&self) -> bool {
        self.asked.fetch_add(1, Ordering::SeqCst);
        self.is_wanted
    }
}

/// Asks for a graph, and hears that it is not there, or waits for no reply.
fn asks<N: Net<Stream = TcpStream>>(
    rt: &N,
    alloc: Global,
    addr: SocketAddr,
    is_answered: bool,
) -> io::Result<bool> {
    let stream = connected(rt, addr)?;
    let request = get(alloc, "none")?;
    say(&stream, request.as_bytes())?;
    if is_answered {
        hears_none(alloc, &stream)
    } else {
        Ok(true)
    }
}

/// That client.
#[derive(Drop)]
struct Client<'a, N: Net<Stream = TcpStream>> {
    rt: &'a N,
    alloc: Global,
    addr: SocketAddr,
    is_answered: bool,
}

impl<'a, N: Net<Stream = TcpStream>> Job for Client<'a, N> {
    fn done(self) -> u64 {
        one(asks(self.rt, self.alloc, self.addr, self.is_answered))
    }
}

/// Whether a server with this gate ends as it must beside a client, and the gate was asked once, before so
/// many events.
fn is_asked_once<
    R: Net<Listener = TcpListener, Stream = TcpStream>
        + Threads
        + Wait
        + Clock
        + RandomSource
        + Sync,
>(rt: &R, alloc: Global, is_wanted: bool, events: u64) -> bool {
    let Ok((listener, addr)) = listening(rt) else {
        return false;
    };
    let gate = Asked::new(is_wanted);
    let setup = Setup {
        workers: 2,
        limit: 1,
        patience: 15_000,
        whole: 60_000,
    };
    let client = Client {
        rt,
        alloc,
        addr,
        is_answered: is_wanted,
    };
    let heard = served(rt, alloc, &listener, setup, &gate, client);
    heard == 1 && gate.is_right(events)
}

#[test]
fn a_gate_is_asked_before_the_first_connection(rt: HostRuntime) -> Result<(), Fail> {
    assert!(rt; is_asked_once(&rt, rt.alloc(), true, 1));
    Ok(())
}

#[test]
fn a_server_that_is_not_wanted_accepts_nothing(rt: HostRuntime) -> Result<(), Fail> {
    assert!(rt; is_asked_once(&rt, rt.alloc(), false, 0));
    Ok(())
}
