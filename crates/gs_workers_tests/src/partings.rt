//! How a connection ends for its client.
use gs_gates::{Others, linger, patience};
use gs_gates_tests::{Job, both, one};
use gs_servers::OpenGate;
use gs_test_servers::{Setup, both_ends, connected, get, hears_none, listening, say, served};
use std::alloc::Global;
use std::io::Read;
use std::net::{Net, SocketAddr, TcpListener, TcpStream};
use std::random::RandomSource;
use std::sync::Wait;
use std::sync::atomic::{AtomicU64, Ordering};
use std::test::*;
use std::thread::Threads;
use std::time::{Clock, Duration};
use std::{io, thread};

/// Nobody waits.
#[derive(Clone, Copy)]
struct Nobody;

impl Others for Nobody {
    fn has_others(&self) -> bool {
        false
    }
}

/// Reads to the end, looks whether the other side has ended its wait by then, and leaves.
fn hears_end(alloc: Global, stream: TcpStream, waited: &AtomicU64) -> io::Result<bool> {
    let said = io::read_to_string(alloc, &stream)?;
    let is_early = waited.load(Ordering::SeqCst) == 0;
    drop(stream);
    Ok(is_early && said.is_empty())
}

/// That client.
#[derive(Drop)]
struct Client<'a> {
    alloc: Global,
    stream: TcpStream,
    waited: &'a AtomicU64,
}

impl<'a> Job for Client<'a> {
    fn done(self) -> u64 {
        one(hears_end(self.alloc, self.stream, self.waited))
    }
}

/// The other side of the connection.
#[derive(Drop)]
struct Other<'a, K: Clock> {
    clock: &'a K,
    stream: &'a TcpStream,
    waited: &'a AtomicU64,
}

impl<'a, K: Clock> Job for Other<'a, K> {
    fn done(self) -> u64 {
        let ended = linger(self.clock, self.stream, patience(), &Nobody);
        self.waited.fetch_add(1, Ordering::SeqCst);
        u64::from(ended.is_ok())
    }
}

/// Whether a client hears the end before it has left, and is waited for.
fn end_is_heard_first<
    R: Net<Listener = TcpListener, Stream = TcpStream> + Threads + Wait + Clock + Sync,
>(rt: &R, alloc: Global) -> bool {
    let Ok((stream, client)) = both_ends(rt) else {
        return false;
    };
    let waited = AtomicU64::new(0);
    let other = Other {
        clock: rt,
        stream: &stream,
        waited: &waited,
    };
    let client = Client {
        alloc,
        stream: client,
        waited: &waited,
    };
    let (ended, heard) = both(rt, other, client);
    ended == 1 && heard == 1
}

/// How a client goes on after its last reply: how many others wait for its worker, how many milliseconds that
/// waits for a read, how often the client sends a byte, each time after 30 milliseconds, and whether that fails
/// before all were sent.
#[derive(Clone, Copy)]
struct Course {
    others: u64,
    patience: u64,
    bytes: u32,
    is_cut: bool,
}

/// Asks for a graph, hears that it is not there, and sends on; whether that fails before all was sent.
fn sends_on<N: Net<Stream = TcpStream> + Clock>(
    rt: &N,
    alloc: Global,
    stream: &TcpStream,
    bytes: u32,
) -> io::Result<bool> {
    let request = get(alloc, "none")?;
    say(stream, request.as_bytes())?;
    let mut start = [0u8; 12];
    let mut input = stream;
    input.read_exact(&mut start)?;
    for _ in 0..bytes {
        thread::sleep(rt, Duration::from_millis(30));
        if say(stream, b"#").is_err() {
            return Ok(true);
        }
    }
    Ok(false)
}

/// One client sends on; whether it is cut off or not, as it should be, and the others, who connect before
/// that, are answered once it has left.
fn ends_so<N: Net<Stream = TcpStream> + Clock>(
    rt: &N,
    alloc: Global,
    addr: SocketAddr,
    course: Course,
) -> io::Result<bool> {
    let first = connected(rt, addr)?;
    let mut waiting = Vec::new(alloc);
    for _ in 0..course.others {
        let other = connected(rt, addr)?;
        let request = get(alloc, "none")?;
        say(&other, request.as_bytes())?;
        waiting.push(other)?;
    }
    let is_cut = sends_on(rt, alloc, &first, course.bytes)?;
    drop(first);
    for other in waiting {
        if !hears_none(alloc, &other)? {
            return Ok(false);
        }
    }
    Ok(is_cut == course.is_cut)
}

/// These clients.
#[derive(Drop)]
struct Clients<'a, R: Net<Stream = TcpStream> + Clock> {
    rt: &'a R,
    alloc: Global,
    addr: SocketAddr,
    course: Course,
}

impl<'a, R: Net<Stream = TcpStream> + Clock> Job for Clients<'a, R> {
    fn done(self) -> u64 {
        one(ends_so(self.rt, self.alloc, self.addr, self.course))
    }
}

/// The same beside a server of one worker.
fn ended_so<
    R: Net<Listener = TcpListener, Stream = TcpStream>
        + Threads
        + Wait
        + Clock
        + RandomSource
        + Sync,
>(rt: &R, alloc: Global, course: Course) -> u64 {
    let Ok((listener, addr)) = listening(rt) else {
        return 0;
    };
    let setup = Setup {
        workers: 1,
        limit: course.others.saturating_add(1),
        patience: course.patience,
        whole: 60_000,
    };
    let clients = Clients {
        rt,
        alloc,
        addr,
        course,
    };
    served(rt, alloc, &listener, setup, &OpenGate, clients)
}

#[test]
fn a_client_hears_the_end_before_it_leaves(rt: HostRuntime) -> Result<(), Fail> {
    assert!(rt; end_is_heard_first(&rt, rt.alloc()));
    Ok(())
}

#[test]
fn a_client_that_sends_on_is_cut_off(rt: HostRuntime) -> Result<(), Fail> {
    let course = Course {
        others: 0,
        patience: 300,
        bytes: 400,
        is_cut: true,
    };
    assert_eq!(rt; ended_so(&rt, rt.alloc(), course), 1);
    Ok(())
}

#[test]
fn a_client_that_sends_on_does_not_keep_its_worker(rt: HostRuntime) -> Result<(), Fail> {
    let course = Course {
        others: 1,
        patience: 15_000,
        bytes: 400,
        is_cut: true,
    };
    assert_eq!(rt; ended_so(&rt, rt.alloc(), course), 1);
    Ok(())
}

#[test]
fn a_client_that_sends_on_for_less_is_heard_to_its_end(rt: HostRuntime) -> Result<(), Fail> {
    let course = Course {
        others: 0,
        patience: 15_000,
        bytes: 50,
        is_cut: false,
    };
    assert_eq!(rt; ended_so(&rt, rt.alloc(), course), 1);
    Ok(())
}

#[test]
fn one_that_sends_on_for_less_while_another_waits_is_heard(rt: HostRuntime) -> Result<(), Fail> {
    let course = Course {
        others: 1,
        patience: 15_000,
        bytes: 15,
        is_cut: false,
    };
    assert_eq!(rt; ended_so(&rt, rt.alloc(), course), 1);
    Ok(())
}
