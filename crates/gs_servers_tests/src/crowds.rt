//! As many clients as workers, and more, at the same time.
use gs_event::{Action, Event};
use gs_gates_tests::Job;
use gs_servers::Gate;
use gs_test_servers::{Setup, comes, connected, hears_none, listening, say, served};
use std::alloc::Global;
use std::net::{Net, SocketAddr, TcpListener, TcpStream};
use std::random::RandomSource;
use std::sync::Wait;
use std::sync::atomic::{AtomicU64, Ordering};
use std::test::*;
use std::thread::Threads;
use std::time::{Clock, Duration};
use std::{io, thread};

/// How many clients are served at the same time.
const CROWD: u64 = 256;

/// Holds each Head until as many came as there are clients. Once one waited in vain, or came to the gate
/// of another seat, none waits.
#[derive(Drop)]
struct Gather<'a, K: Clock> {
    clock: &'a K,
    came: AtomicU64,
    late: AtomicU64,
}

impl<'a, K: Clock> Gate for Gather<'a, K> {
    fn before(&self, seat: u16, event: &Event) {
        let Event::Seat(own, Action::Head(_)) = event else {
            return;
        };
        self.came.fetch_add(1, Ordering::SeqCst);
        let is_late = self.late.load(Ordering::SeqCst) > 0;
        if !is_late && (*own != seat || !comes(self.clock, &self.came, CROWD)) {
            self.late.fetch_add(1, Ordering::SeqCst);
        }
    }
}

/// A client that has asked whether a graph is there.
fn asker<N: Net<Stream = TcpStream>>(rt: &N, addr: SocketAddr) -> io::Result<TcpStream> {
    let stream = connected(rt, addr)?;
    say(
        &stream,
        b"HEAD /graphs/none HTTP/1.1\r\nHost: a\r\nConnection: close\r\n\r\n",
    )?;
    Ok(stream)
}

/// So many of them.
fn asked_by<N: Net<Stream = TcpStream>>(
    rt: &N,
    alloc: Global,
    addr: SocketAddr,
    clients: u64,
) -> io::Result<Vec<TcpStream>> {
    let mut streams = Vec::new(alloc);
    for _ in 0..clients {
        streams.push(asker(rt, addr)?)?;
    }
    Ok(streams)
}

/// How many of these clients are told that it is not. Each leaves then.
fn answered(alloc: Global, streams: Vec<TcpStream>) -> io::Result<u64> {
    let mut good = 0u64;
    for stream in streams {
        if hears_none(alloc, &stream)? {
            good = good.saturating_add(1);
        }
    }
    Ok(good)
}

/// As many clients ask as there are workers, before the first is answered; how many are.
fn ask_together<N: Net<Stream = TcpStream>>(
    rt: &N,
    alloc: Global,
    addr: SocketAddr,
) -> io::Result<u64> {
    answered(alloc, asked_by(rt, alloc, addr, CROWD)?)
}

/// These clients.
#[derive(Drop)]
struct Askers<'a, N: Net<Stream = TcpStream>> {
    rt: &'a N,
    alloc: Global,
    addr: SocketAddr,
}

impl<'a, N: Net<Stream = TcpStream>> Job for Askers<'a, N> {
    fn done(self) -> u64 {
        ask_together(self.rt, self.alloc, self.addr).unwrap_or(0)
    }
}

/// How many clients are answered, if all are served at the same time, each by a worker of its own.
fn gathered<
    R: Net<Listener = TcpListener, Stream = TcpStream>
        + Threads
        + Wait
        + Clock
        + RandomSource
        + Sync,
>(rt: &R, alloc: Global) -> u64 {
    let Ok((listener, addr)) = listening(rt) else {
        return 0;
    };
    let gate = Gather {
        clock: rt,
        came: AtomicU64::new(0),
        late: AtomicU64::new(0),
    };
    let setup = Setup {
        workers: 256,
        limit: CROWD,
        patience: 30_000,
        whole: 60_000,
    };
    let clients = Askers { rt, alloc, addr };
    let good = served(rt, alloc, &listener, setup, &gate, clients);
    if gate.late.load(Ordering::SeqCst) == 0 {
        good
    } else {
        0
    }
}

/// Holds each event until it is opened.
#[derive(Drop)]
struct Dam<'a, K: Clock> {
    clock: &'a K,
    open: AtomicU64,
    late: AtomicU64,
}

impl<'a, K: Clock> Gate for Dam<'a, K> {
    fn before(&self, _seat: u16, _event: &Event) {
        if !comes(self.clock, &self.open, 1) {
            self.late.fetch_add(1, Ordering::SeqCst);
        }
    }
}

/// How many clients wait for one worker: more than may be accepted and wait.
const QUEUE: u64 = 40;

/// So many clients ask, before the first is answered; how many are. The server has time to accept all
/// that it would.
fn ask_in_a_queue<N: Net<Stream = TcpStream>, K: Clock>(
    rt: &N,
    alloc: Global,
    addr: SocketAddr,
    dam: &Dam<'_, K>,
) -> io::Result<u64> {
    let asked = asked_by(rt, alloc, addr, QUEUE);
    thread::sleep(dam.clock, Duration::from_millis(300));
    dam.open.fetch_add(1, Ordering::SeqCst);
    answered(alloc, asked?)
}

/// These clients.
#[derive(Drop)]
struct Waiting<'a, R: Net<Stream = TcpStream> + Clock> {
    rt: &'a R,
    alloc: Global,
    addr: SocketAddr,
    dam: &'a Dam<'a, R>,
}

impl<'a, R: Net<Stream = TcpStream> + Clock> Job for Waiting<'a, R> {
    fn done(self) -> u64 {
        ask_in_a_queue(self.rt, self.alloc, self.addr, self.dam).unwrap_or(0)
    }
}

/// How many clients of one worker are answered, all of whom came before the first was.
fn queued<
    R: Net<Listener = TcpListener, Stream = TcpStream>
        + Threads
        + Wait
        + Clock
        + RandomSource
        + Sync,
>(rt: &R, alloc: Global) -> u64 {
    let Ok((listener, addr)) = listening(rt) else {
        return 0;
    };
    let dam = Dam {
        clock: rt,
        open: AtomicU64::new(0),
        late: AtomicU64::new(0),
    };
    let setup = Setup {
        workers: 1,
        limit: QUEUE,
        patience: 30_000,
        whole: 60_000,
    };
    let clients = Waiting {
        rt,
        alloc,
        addr,
        dam: &dam,
    };
    let good = served(rt, alloc, &listener, setup, &dam, clients);
    if dam.late.load(Ordering::SeqCst) == 0 {
        good
    } else {
        0
    }
}

#[test]
fn clients_wait_for_a_worker(rt: HostRuntime) -> Result<(), Fail> {
    assert_eq!(rt; queued(&rt, rt.alloc()), QUEUE);
    Ok(())
}

#[test]
fn all_workers_serve_at_the_same_time(rt: HostRuntime) -> Result<(), Fail> {
    assert_eq!(rt; gathered(&rt, rt.alloc()), CROWD);
    Ok(())
}
