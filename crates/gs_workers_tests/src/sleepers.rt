//! Clients that say nothing, little at a time, or nothing more.
use gs_gates_tests::{Job, one};
use gs_servers::OpenGate;
use gs_test_servers::{
    Setup, connected, get, hears_made, hears_none, is_missing, listening, put, say, served,
    two_connected,
};
use std::alloc::Global;
use std::net::{Net, SocketAddr, TcpListener, TcpStream};
use std::random::RandomSource;
use std::sync::Wait;
use std::test::*;
use std::thread::Threads;
use std::time::{Clock, Duration};
use std::{io, thread};

/// Whether a client is told that its graph is not there, while others, who leave then, say nothing more.
fn hears_beside(alloc: Global, silent: Vec<TcpStream>, stream: TcpStream) -> io::Result<bool> {
    let missing = hears_none(alloc, &stream);
    drop(silent);
    missing
}

/// Clients that say nothing more, and one that has asked.
#[derive(Drop)]
struct Idle {
    alloc: Global,
    silent: Vec<TcpStream>,
    asking: TcpStream,
}

impl Job for Idle {
    fn done(self) -> u64 {
        one(hears_beside(self.alloc, self.silent, self.asking))
    }
}

/// Four clients that say nothing.
fn four_silent<N: Net<Stream = TcpStream>>(
    rt: &N,
    alloc: Global,
    addr: SocketAddr,
) -> io::Result<Vec<TcpStream>> {
    let mut silent = Vec::new(alloc);
    for _ in 0..4 {
        silent.push(connected(rt, addr)?)?;
    }
    Ok(silent)
}

/// Asks for a graph.
fn asks(alloc: Global, stream: &TcpStream, name: &str) -> io::Result<()> {
    let request = get(alloc, name)?;
    say(stream, request.as_bytes())
}

/// A listener, four silent clients, and a fifth that has asked.
fn five_connected<R: Net<Listener = TcpListener, Stream = TcpStream>>(
    rt: &R,
    alloc: Global,
) -> io::Result<(TcpListener, Idle)> {
    let (listener, addr) = listening(rt)?;
    let silent = four_silent(rt, alloc, addr)?;
    let asking = connected(rt, addr)?;
    asks(alloc, &asking, "none")?;
    let clients = Idle {
        alloc,
        silent,
        asking,
    };
    Ok((listener, clients))
}

/// Four clients say nothing and keep four workers for 200 milliseconds, and a fifth asks. It gives up
/// before a server does that has as much patience as a program's.
fn fifth_is_answered<
    R: Net<Listener = TcpListener, Stream = TcpStream>
        + Threads
        + Wait
        + Clock
        + RandomSource
        + Sync,
>(rt: &R, alloc: Global) -> u64 {
    let Ok((listener, clients)) = five_connected(rt, alloc) else {
        return 0;
    };
    let setup = Setup {
        workers: 4,
        limit: 5,
        patience: 200,
        whole: 60_000,
    };
    served(rt, alloc, &listener, setup, &OpenGate, clients)
}

/// Sends a byte, and rests for 30 milliseconds.
fn say_slowly<K: Clock>(clock: &K, stream: &TcpStream, bytes: &[u8]) -> io::Result<()> {
    for byte in bytes.chunks(1) {
        say(stream, byte)?;
        thread::sleep(clock, Duration::from_millis(30));
    }
    Ok(())
}

/// Whether a client that connects now finds this graph missing.
fn finds_none<N: Net<Stream = TcpStream>>(
    rt: &N,
    alloc: Global,
    addr: SocketAddr,
    name: &str,
) -> io::Result<bool> {
    is_missing(alloc, connected(rt, addr)?, name)
}

/// Puts a graph byte by byte. In the middle another client asks for it; whether that found none, and
/// the graph was made. Both connect, whatever becomes of the first.
fn puts_slowly<N: Net<Stream = TcpStream> + Clock>(
    rt: &N,
    alloc: Global,
    addr: SocketAddr,
) -> io::Result<bool> {
    let request = put(alloc, "slow", "<a:a> <a:b> \"1\" .\n")?;
    let (front, rest) = request.as_bytes().split_at(request.len() / 2);
    let slow = connected(rt, addr)?;
    let begun = say_slowly(rt, &slow, front);
    let missing = finds_none(rt, alloc, addr, "slow");
    begun?;
    say_slowly(rt, &slow, rest)?;
    Ok(missing? && hears_made(alloc, &slow)?)
}

/// Both clients.
#[derive(Drop)]
struct Slow<'a, R: Net<Stream = TcpStream> + Clock> {
    rt: &'a R,
    alloc: Global,
    addr: SocketAddr,
}

impl<'a, R: Net<Stream = TcpStream> + Clock> Job for Slow<'a, R> {
    fn done(self) -> u64 {
        one(puts_slowly(self.rt, self.alloc, self.addr))
    }
}

/// A read may wait for two seconds, and all reads of the slow client take longer than that.
fn slow_client_is_answered<
    R: Net<Listener = TcpListener, Stream = TcpStream>
        + Threads
        + Wait
        + Clock
        + RandomSource
        + Sync,
>(rt: &R, alloc: Global) -> u64 {
    let Ok((listener, addr)) = listening(rt) else {
        return 0;
    };
    let setup = Setup {
        workers: 2,
        limit: 2,
        patience: 2_000,
        whole: 60_000,
    };
    served(
        rt,
        alloc,
        &listener,
        setup,
        &OpenGate,
        Slow { rt, alloc, addr },
    )
}

/// Begins to put a graph, and says no more.
fn stops(alloc: Global, stream: &TcpStream) -> io::Result<()> {
    let upload = put(alloc, "half", "<a:a> <a:b> \"1\" .\n<a:a> <a:b> \"2\" .\n")?;
    let (front, _) = upload.as_bytes().split_at(upload.len().saturating_sub(10));
    say(stream, front)
}

/// A listener, a client that has stopped in the middle, and one that has asked.
fn stopped<R: Net<Listener = TcpListener, Stream = TcpStream>>(
    rt: &R,
    alloc: Global,
) -> io::Result<(TcpListener, Idle)> {
    let (listener, first, asking) = two_connected(rt)?;
    stops(alloc, &first)?;
    asks(alloc, &asking, "half")?;
    let mut silent = Vec::new(alloc);
    silent.push(first)?;
    let clients = Idle {
        alloc,
        silent,
        asking,
    };
    Ok((listener, clients))
}

/// One client begins to put a graph and says no more, and another asks for it. One worker waits for the
/// first for 200 milliseconds, and then serves the second.
fn stopped_client_is_cut_off<
    R: Net<Listener = TcpListener, Stream = TcpStream>
        + Threads
        + Wait
        + Clock
        + RandomSource
        + Sync,
>(rt: &R, alloc: Global) -> u64 {
    let Ok((listener, clients)) = stopped(rt, alloc) else {
        return 0;
    };
    let setup = Setup {
        workers: 1,
        limit: 2,
        patience: 200,
        whole: 60_000,
    };
    served(rt, alloc, &listener, setup, &OpenGate, clients)
}

#[test]
fn idle_clients_do_not_keep_a_fifth(rt: HostRuntime) -> Result<(), Fail> {
    assert_eq!(rt; fifth_is_answered(&rt, rt.alloc()), 1);
    Ok(())
}

#[test]
fn a_slow_client_is_answered(rt: HostRuntime) -> Result<(), Fail> {
    assert_eq!(rt; slow_client_is_answered(&rt, rt.alloc()), 1);
    Ok(())
}

#[test]
fn a_client_that_stops_is_cut_off(rt: HostRuntime) -> Result<(), Fail> {
    assert_eq!(rt; stopped_client_is_cut_off(&rt, rt.alloc()), 1);
    Ok(())
}
