//! A server on loopback, to its end.
ghost use Rattle.std.specs.Prelude.{◌≤◌};

use crate::clients::connected;
use gs_gates_tests::Job;
use gs_servers::{Gate, ServicePlan, serve_within};
use std::alloc::Global;
use std::io;
use std::net::{Net, SocketAddr, TcpListener, TcpStream};
use std::random::RandomSource;
use std::sync::Wait;
use std::thread::{Threads, join};
use std::time::{Clock, Duration};

/// A listener, and where it listens.
pub fn listening<R: Net<Listener = TcpListener, Stream = TcpStream>>(
    rt: &R,
) -> io::Result<(TcpListener, SocketAddr)> {
    let listener = TcpListener::bind(rt, "127.0.0.1:0")?;
    let addr = listener.local_addr()?;
    Ok((listener, addr))
}

/// A listener, and two connections to it, in the order in which they will be accepted.
pub fn two_connected<R: Net<Listener = TcpListener, Stream = TcpStream>>(
    rt: &R,
) -> io::Result<(TcpListener, TcpStream, TcpStream)> {
    let (listener, addr) = listening(rt)?;
    let first = connected(rt, addr)?;
    let second = connected(rt, addr)?;
    Ok((listener, first, second))
}

/// How a server is run: how many workers it has, how many connections there are, how many
/// milliseconds a read or a write may wait, and how many a head, 8 KiB of a body, or a text that is sent
/// may take in all.
#[derive(Clone, Copy)]
pub struct Setup {
    pub workers: u16,
    pub limit: u64,
    pub patience: u64,
    pub whole: u64,
    ghost few: { (1 ≤ workers) × (workers ≤ 256) },
}

/// Serves to the end, in pieces of two lines; whether that ended as it must.
fn serves<G: Gate + Sync, R: Threads + Wait + Clock + RandomSource + Sync>(
    rt: &R,
    alloc: Global,
    listener: &TcpListener,
    setup: Setup,
    gate: &G,
) -> bool {
    let plan = ServicePlan {
        alloc,
        base: "http://localhost",
        piece: 2,
        patience: Duration::from_millis(setup.patience),
        whole: Duration::from_millis(setup.whole),
    };
    let ended = serve_within(rt, plan, listener, setup.workers, Some(setup.limit), gate);
    let is_right = ended.is_ok();
    drop(ended);
    is_right
}

/// What clients count beside a server, and 0 where that did not end as it must.
pub fn served<G: Gate + Sync, R: Threads + Wait + Clock + RandomSource + Sync, J: Job + Drop>(
    rt: &R,
    alloc: Global,
    listener: &TcpListener,
    setup: Setup,
    gate: &G,
    clients: J,
) -> u64 {
    let (ended, counted) = join(
        rt,
        || serves(rt, alloc, listener, setup, gate),
        move || clients.done(),
    );
    if ended { counted } else { 0 }
}
