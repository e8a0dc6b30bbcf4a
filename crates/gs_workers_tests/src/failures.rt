//! What a gate is told of connections that fail.
use gs_gates_tests::{Job, one};
use gs_servers::{Failure, Gate};
use gs_test_servers::{Setup, connected, get, hears_none, listening, say, served};
use std::alloc::Global;
use std::io;
use std::net::{Net, SocketAddr, TcpListener, TcpStream};
use std::random::RandomSource;
use std::sync::Wait;
use std::sync::atomic::{AtomicU64, Ordering};
use std::test::*;
use std::thread::Threads;
use std::time::Clock;

/// Counts the connections that were dropped, and what else failed.
#[derive(Drop)]
struct Told {
    connections: AtomicU64,
    others: AtomicU64,
}

impl Gate for Told {
    fn failed(&self, failure: Failure) {
        let counter = match failure {
            Failure::Connection => &self.connections,
            Failure::Accept | Failure::Request => &self.others,
        };
        counter.fetch_add(1, Ordering::SeqCst);
    }
}

/// How many milliseconds a read may wait, and how many of two connections are dropped then: the system refuses
/// a limit of no time.
const DROPS: [(&str, u64, u64); 2] = [
    ("connections that take no limits", 0, 2),
    ("connections that take them", 15_000, 0),
];

/// Asks for a graph; whether it is told that this is not there.
fn is_answered<N: Net<Stream = TcpStream>>(
    rt: &N,
    alloc: Global,
    addr: SocketAddr,
) -> io::Result<bool> {
    let stream = connected(rt, addr)?;
    let request = get(alloc, "none")?;
    say(&stream, request.as_bytes())?;
    hears_none(alloc, &stream)
}

/// Two clients, one after the other.
#[derive(Drop)]
struct Pair<'a, N: Net<Stream = TcpStream>> {
    rt: &'a N,
    alloc: Global,
    addr: SocketAddr,
}

impl<'a, N: Net<Stream = TcpStream>> Job for Pair<'a, N> {
    fn done(self) -> u64 {
        let first = one(is_answered(self.rt, self.alloc, self.addr));
        first.saturating_add(one(is_answered(self.rt, self.alloc, self.addr)))
    }
}

/// Whether so many of two connections are dropped and told, the others are answered, and no more is told.
fn is_told<
    R: Net<Listener = TcpListener, Stream = TcpStream>
        + Threads
        + Wait
        + Clock
        + RandomSource
        + Sync,
>(rt: &R, alloc: Global, patience: u64, drops: u64) -> bool {
    let Ok((listener, addr)) = listening(rt) else {
        return false;
    };
    let gate = Told {
        connections: AtomicU64::new(0),
        others: AtomicU64::new(0),
    };
    let setup = Setup {
        workers: 1,
        limit: 2,
        patience,
        whole: 60_000,
    };
    let clients = Pair { rt, alloc, addr };
    let answered = served(rt, alloc, &listener, setup, &gate, clients);
    answered.saturating_add(drops) == 2
        && gate.connections.load(Ordering::SeqCst) == drops
        && gate.others.load(Ordering::SeqCst) == 0
}

/// The first wrong one.
fn wrong_drop<
    R: Net<Listener = TcpListener, Stream = TcpStream>
        + Threads
        + Wait
        + Clock
        + RandomSource
        + Sync,
>(rt: &R, alloc: Global) -> Option<&'static str> {
    for (name, patience, drops) in &DROPS {
        if !is_told(rt, alloc, *patience, *drops) {
            return Some(name);
        }
    }
    None
}

#[test]
fn a_dropped_connection_is_told(rt: HostRuntime) -> Result<(), Fail> {
    assert_eq!(rt; wrong_drop(&rt, rt.alloc()), None);
    Ok(())
}
