//! An accept that fails.
use crossbeam_channel::{Receiver, Sender, bounded};
use gs_gates::{Failure, Gate, accept_all};
use std::alloc::Global;
use std::cell::Cell;
use std::io;
use std::net::{Net, OpenListener, SocketAddr, TcpListener, TcpStream};
use std::sync::Wait;
use std::sync::atomic::{AtomicU64, Ordering};
use std::test::*;
use std::time::{Clock, Duration, Instant};

/// A listener that fails each second time, the first one included.
#[derive(Drop)]
struct Shaky {
    inner: TcpListener,
    turns: Cell<u64>,
}

impl OpenListener for Shaky {
    type Stream = TcpStream;

    fn accept(&self) -> io::Result<(TcpStream, SocketAddr)> {
        let turn = self.turns.get();
        self.turns.set(turn.wrapping_add(1));
        if turn % 2 == 0 {
            return Err(io::Error::from(io::ErrorKind::Other));
        }
        self.inner.accept()
    }
}

/// Counts the accepts that failed.
#[derive(Drop)]
struct Told {
    accepts: AtomicU64,
}

impl Gate for Told {
    fn failed(&self, failure: Failure) {
        if failure == Failure::Accept {
            self.accepts.fetch_add(1, Ordering::SeqCst);
        }
    }
}

/// Such a listener, and a client that has connected to it.
fn shaky_listener<R: Net<Listener = TcpListener, Stream = TcpStream>>(
    rt: &R,
) -> io::Result<(Shaky, TcpStream)> {
    let inner = TcpListener::bind(rt, "127.0.0.1:0")?;
    let client = TcpStream::connect(rt, inner.local_addr()?)?;
    let turns = Cell::new(0);
    Ok((Shaky { inner, turns }, client))
}

/// Accepts three times, of which the first and the last fail; whether the gate was told, and that took as
/// long as two rests.
fn rests<R: Wait + Clock>(
    rt: &R,
    listener: &Shaky,
    to_workers: Sender<TcpStream>,
) -> io::Result<bool> {
    let start = Instant::now(rt)?;
    let gate = Told {
        accepts: AtomicU64::new(0),
    };
    accept_all(rt, listener, Some(3), &gate, to_workers);
    let is_told = gate.accepts.load(Ordering::SeqCst) == 2;
    Ok(is_told && start.elapsed(rt)? >= Duration::from_millis(100))
}

/// How many connections of four that are waited for come.
fn came<R: Wait>(rt: &R, streams: Receiver<TcpStream>) -> u64 {
    let mut came = 0u64;
    for _ in 0..4 {
        if streams.recv(rt).is_ok() {
            came = came.saturating_add(1);
        }
    }
    came
}

/// What is not as it must be: one connection comes of three accepts, and the gate is told of each that
/// fails, and a rest follows it.
fn wrong_part<R: Net<Listener = TcpListener, Stream = TcpStream> + Wait + Clock>(
    rt: &R,
    alloc: Global,
) -> Option<&'static str> {
    let Ok((listener, client)) = shaky_listener(rt) else {
        return Some("the connection");
    };
    let Ok((to_workers, streams)) = bounded(alloc, 4) else {
        return Some("memory");
    };
    if !matches!(rests(rt, &listener, to_workers), Ok(true)) {
        return Some("what the gate was told, or the rests");
    }
    let is_one = came(rt, streams) == 1;
    drop(client);
    if is_one && listener.turns.get() == 3 {
        None
    } else {
        Some("how many came, of how many accepts")
    }
}

#[test]
fn a_failed_accept_counts_and_is_followed_by_a_rest(rt: HostRuntime) -> Result<(), Fail> {
    assert_eq!(rt; wrong_part(&rt, rt.alloc()), None);
    Ok(())
}
