//! A server at an address, and what it says.
ghost use Rattle.std.specs.Prelude.{◌≡◌, ◌≤◌, true};
ghost use Rattle.gs_model.specs.Bases.{is_base};

use crossbeam_channel::{Receiver, Sender, bounded};
use gs_once::Stop;
use gs_servers::{Counter, Failure, Gate, serve_all};
use std::alloc::Global;
use std::io::{self, Print, Stderr, Write};
use std::net::{Net, SocketAddr, TcpListener, TcpStream};
use std::random::RandomSource;
use std::sync::Wait;
use std::sync::atomic::{AtomicBool, Ordering};
use std::thread;
use std::thread::Threads;
use std::time::Clock;

/// How many numbers may wait to be said: one of each kind.
const WAITING_NUMBERS: usize = 3;

/// Says where the server listens: a caller that asked for port 0 learns the port here.
fn announce<W: Write>(out: &mut W, bound: SocketAddr) -> io::Result<()> {
    writeln!(out, "listening {bound}")?;
    out.flush()
}

/// The ending of a noun that this many are named by.
fn ending(many: u64) -> &'static str {
    if many == 1 { "" } else { "s" }
}

/// Says on standard error that so many failed.
fn say(err: Stderr, failure: Failure, many: u64) -> io::Result<()> {
    let s = ending(many);
    match failure {
        Failure::Accept => eprintln!(&err; "gsd: {many} accept{s} failed"),
        Failure::Connection => eprintln!(&err; "gsd: {many} connection{s} dropped"),
        Failure::Request => eprintln!(&err; "gsd: no memory for {many} request{s}"),
    }
}

/// Says each number that comes, until none can come any more. One that cannot be written is lost.
fn say_all<R: Wait>(rt: &R, err: Stderr, numbers: Receiver<(Failure, u64)>) {
    for (failure, many) in numbers.iter(rt) {
        let _ = say(err, failure, many);
    }
}

/// Says where a server listens once it serves, and has it end where that cannot be said; and hands on how
/// often something failed, once a second at most for each kind of failure.
#[derive(Drop)]
struct Speaker<'a, R: Print + Wait + Clock> {
    rt: &'a R,
    bound: SocketAddr,
    has_failed: AtomicBool,
    to_sayer: Sender<(Failure, u64)>,
    accepts: Counter,
    connections: Counter,
    requests: Counter,
}

impl<'a, R: Print + Wait + Clock> Speaker<'a, R> {
    fn new(rt: &'a R, bound: SocketAddr, to_sayer: Sender<(Failure, u64)>) -> Speaker<'a, R> {
        Speaker {
            rt,
            bound,
            has_failed: AtomicBool::new(false),
            to_sayer,
            accepts: Counter::new(rt),
            connections: Counter::new(rt),
            requests: Counter::new(rt),
        }
    }

    fn counter(&self, failure: Failure) -> &Counter {
        match failure {
            Failure::Accept => &self.accepts,
            Failure::Connection => &self.connections,
            Failure::Request => &self.requests,
        }
    }
}

impl<'a, R: Print + Wait + Clock> Gate for Speaker<'a, R> {
    fn ready(&self) -> bool {
        let is_said = announce(&mut io::writer(self.rt), self.bound).is_ok();
        self.has_failed.store(!is_said, Ordering::SeqCst);
        is_said
    }

    // A thread that serves never waits for standard error: where no place is free the number is lost.
    fn failed(&self, failure: Failure) {
        if let Some(many) = self.counter(failure).count(self.rt) {
            let _ = self.to_sayer.try_send(self.rt, (failure, many));
        }
    }
}

/// Serves with one thread more, which says what fails, or nothing at all. Its end is awaited, and it may
/// wait for standard error then; but a server that ends before 2^64 - 1 connections came has had no failure.
fn serve<
    R: Net<Listener = TcpListener, Stream = TcpStream>
        + Threads
        + Wait
        + Clock
        + RandomSource
        + Print
        + Sync,
>(
    rt: &R,
    alloc: Global,
    err: Stderr,
    is_heard: bool,
    listener: TcpListener,
    bound: SocketAddr,
    base: &str,
    workers: u16,
    piece: u32,
) -> Result<(), Stop>
    requires base { is_base base.now ≡ true }
    requires workers { (1 ≤ workers) × (workers ≤ 256) }
    requires piece { (1 ≤ piece) × (piece ≤ 4096) }
{
    let Ok((to_sayer, numbers)) = bounded(alloc, WAITING_NUMBERS) else {
        return Err(Stop::NoMemory);
    };
    let gate = Speaker::new(rt, bound, to_sayer);
    thread::scope(
        thread::scope_env(),
        rt,
        move |scope| -> Result<(), Stop>
            requires base { is_base base.now ≡ true }
            requires workers { (1 ≤ workers) × (workers ≤ 256) }
            requires piece { (1 ≤ piece) × (piece ≤ 4096) }
        {
            let sayer = scope.spawn(move || {
                if is_heard {
                    say_all(rt, err, numbers)
                }
            });
            if sayer.is_err() {
                return Err(Stop::NoMemory);
            }
            let ended = serve_all(rt, alloc, &listener, base, workers, piece, None, &gate);
            if gate.has_failed.load(Ordering::SeqCst) {
                return Err(Stop::WriteFailed);
            }
            match ended {
                Ok(_) => Ok(()),
                Err(_) => Err(Stop::NoMemory),
            }
        },
    )
}

/// Binds the address, and serves the connections that come, 2^64 - 1 at most. Where it listens is said
/// once the first of them can be served. Where standard error is closed before the bind nothing is said
/// on it of what fails: its descriptor may be a connection's later.
pub fn listen<
    R: Net<Listener = TcpListener, Stream = TcpStream>
        + Threads
        + Wait
        + Clock
        + RandomSource
        + Print
        + Sync,
>(
    rt: &R,
    alloc: Global,
    err: Stderr,
    address: &str,
    base: &str,
    workers: u16,
    piece: u32,
) -> Result<(), Stop>
    requires base { is_base base.now ≡ true }
    requires workers { (1 ≤ workers) × (workers ≤ 256) }
    requires piece { (1 ≤ piece) × (piece ≤ 4096) }
{
    let is_heard = err.write_some(&[]).is_ok();
    let Ok(listener) = TcpListener::bind(rt, address) else {
        return Err(Stop::CannotListen);
    };
    let Ok(bound) = listener.local_addr() else {
        return Err(Stop::CannotListen);
    };
    serve(
        rt, alloc, err, is_heard, listener, bound, base, workers, piece,
    )
}
