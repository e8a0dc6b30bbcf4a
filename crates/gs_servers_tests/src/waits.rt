//! An upload that is held before its Commit holds up nobody else.
use gs_event::{Action, Event};
use gs_gates_tests::{Job, one};
use gs_servers::Gate;
use gs_test_servers::{Setup, comes, hears_made, is_missing, put, say, served, two_connected};
use std::alloc::Global;
use std::io;
use std::net::{Net, TcpListener, TcpStream};
use std::random::RandomSource;
use std::sync::Wait;
use std::sync::atomic::{AtomicU64, Ordering};
use std::test::*;
use std::thread::Threads;
use std::time::Clock;

/// Holds each Commit until the GET was answered.
#[derive(Drop)]
struct Hold<'a, K: Clock> {
    clock: &'a K,
    held: AtomicU64,
    answered: AtomicU64,
    late: AtomicU64,
}

impl<'a, K: Clock> Gate for Hold<'a, K> {
    fn before(&self, _seat: u16, event: &Event) {
        let Event::Seat(_, Action::Commit) = event else {
            return;
        };
        self.held.fetch_add(1, Ordering::SeqCst);
        if !comes(self.clock, &self.answered, 1) {
            self.late.fetch_add(1, Ordering::SeqCst);
        }
    }
}

/// Begins to put a graph; whether that is held.
fn is_held<K: Clock>(alloc: Global, gate: &Hold<'_, K>, stream: &TcpStream) -> io::Result<bool> {
    let upload = put(alloc, "held", "<a:a> <a:b> \"1\" .\n")?;
    say(stream, upload.as_bytes())?;
    Ok(comes(gate.clock, &gate.held, 1))
}

/// One client puts a graph, and once that is held another gets it: whether the second found no graph,
/// and then the first made it.
fn put_and_get<K: Clock>(
    alloc: Global,
    gate: &Hold<'_, K>,
    first: TcpStream,
    second: TcpStream,
) -> io::Result<bool> {
    let held = is_held(alloc, gate, &first)?;
    let missing = is_missing(alloc, second, "held")?;
    gate.answered.fetch_add(1, Ordering::SeqCst);
    Ok(held && missing && hears_made(alloc, &first)?)
}

/// Both clients.
#[derive(Drop)]
struct Pair<'a, K: Clock> {
    alloc: Global,
    gate: &'a Hold<'a, K>,
    first: TcpStream,
    second: TcpStream,
}

impl<'a, K: Clock> Job for Pair<'a, K> {
    fn done(self) -> u64 {
        one(put_and_get(self.alloc, self.gate, self.first, self.second))
    }
}

/// Whether the upload waited, and the GET ran.
fn waits_and_runs<
    R: Net<Listener = TcpListener, Stream = TcpStream>
        + Threads
        + Wait
        + Clock
        + RandomSource
        + Sync,
>(rt: &R, alloc: Global) -> u64 {
    let Ok((listener, first, second)) = two_connected(rt) else {
        return 0;
    };
    let gate = Hold {
        clock: rt,
        held: AtomicU64::new(0),
        answered: AtomicU64::new(0),
        late: AtomicU64::new(0),
    };
    let setup = Setup {
        workers: 2,
        limit: 2,
        patience: 30_000,
        whole: 60_000,
    };
    let clients = Pair {
        alloc,
        gate: &gate,
        first,
        second,
    };
    let right = served(rt, alloc, &listener, setup, &gate, clients);
    if gate.late.load(Ordering::SeqCst) == 0 {
        right
    } else {
        0
    }
}

#[test]
fn upload_waits_get_runs(rt: HostRuntime) -> Result<(), Fail> {
    assert_eq!(rt; waits_and_runs(&rt, rt.alloc()), 1);
    Ok(())
}
