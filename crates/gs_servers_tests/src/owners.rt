//! Clients that put graphs, get them back and delete them, at the same time.
use gs_event::{Answer, Event};
use gs_servers::{OpenGate, serve_all};
use gs_shared::Ended;
use gs_test_servers::{ask, connected, get, listening, put};
use std::alloc::{AllocError, Global};
use std::net::{Net, SocketAddr, TcpListener, TcpStream};
use std::random::RandomSource;
use std::sync::Wait;
use std::test::*;
use std::thread::{Threads, join};
use std::time::Clock;
use std::{io, thread};

/// How many clients put graphs, get them back and delete them, and how often each does.
const OWNERS: usize = 8;

const ROUNDS: u32 = 20;

/// How many requests they make, each of which is an entry of the page.
const REQUESTS: u64 = 480;

/// A graph as it is put, with its first line last, and the pieces in which it comes back: one of two
/// lines, and one of the last.
fn graph(alloc: Global, name: &str) -> Result<(String, String), AllocError> {
    let front = format!(in alloc; "<a:{name}> <a:b> \"1\" .\n<a:{name}> <a:b> \"2\" .\n")?;
    let last = format!(in alloc; "<a:{name}> <a:b> \"3\" .\n")?;
    let body = format!(in alloc; "{last}{front}")?;
    let (two, one) = (front.len(), last.len());
    let pieces = format!(in alloc; "{two:x}\r\n{front}\r\n{one:x}\r\n{last}\r\n0\r\n\r\n")?;
    Ok((body, pieces))
}

/// What is said to this request, by a connection of its own.
fn hear<N: Net<Stream = TcpStream>>(
    rt: &N,
    alloc: Global,
    addr: SocketAddr,
    request: &str,
) -> io::Result<String> {
    ask(alloc, connected(rt, addr)?, request)
}

/// Whether a graph could be made.
fn is_made<N: Net<Stream = TcpStream>>(
    rt: &N,
    alloc: Global,
    addr: SocketAddr,
    name: &str,
    body: &str,
) -> io::Result<bool> {
    let request = put(alloc, name, body)?;
    let reply = hear(rt, alloc, addr, request.as_str())?;
    Ok(reply.as_str().starts_with("HTTP/1.1 201 "))
}

/// Whether a graph comes in these pieces.
fn is_got<N: Net<Stream = TcpStream>>(
    rt: &N,
    alloc: Global,
    addr: SocketAddr,
    name: &str,
    pieces: &str,
) -> io::Result<bool> {
    let request = get(alloc, name)?;
    let reply = hear(rt, alloc, addr, request.as_str())?;
    Ok(reply.as_str().starts_with("HTTP/1.1 200 ") && reply.as_str().ends_with(pieces))
}

/// Whether a graph could be taken away.
fn is_gone<N: Net<Stream = TcpStream>>(
    rt: &N,
    alloc: Global,
    addr: SocketAddr,
    name: &str,
) -> io::Result<bool> {
    let request = format!(in alloc;
        "DELETE /graphs/{name} HTTP/1.1\r\nHost: a\r\nConnection: close\r\n\r\n"
    )?;
    let reply = hear(rt, alloc, addr, request.as_str())?;
    Ok(reply.as_str().starts_with("HTTP/1.1 204 "))
}

/// Whether this graph could be made, came back, and could be taken away. All three requests are made,
/// whatever becomes of the others.
fn put_get_and_delete<N: Net<Stream = TcpStream>>(
    rt: &N,
    alloc: Global,
    addr: SocketAddr,
    name: &str,
) -> bool {
    let Ok((body, pieces)) = graph(alloc, name) else {
        return false;
    };
    let made = is_made(rt, alloc, addr, name, body.as_str());
    let got = is_got(rt, alloc, addr, name, pieces.as_str());
    let gone = is_gone(rt, alloc, addr, name);
    matches!(made, Ok(true)) && matches!(got, Ok(true)) && matches!(gone, Ok(true))
}

/// In how many rounds this client got its own lines back, of a graph that it makes again each time.
fn own<N: Net<Stream = TcpStream>>(rt: &N, alloc: Global, addr: SocketAddr, client: usize) -> u32 {
    let mut good = 0u32;
    let Ok(name) = format!(in alloc; "c{client}") else {
        return good;
    };
    for _ in 0..ROUNDS {
        if put_get_and_delete(rt, alloc, addr, name.as_str()) {
            good = good.saturating_add(1);
        }
    }
    good
}

/// The sum of these counts.
fn sum(counts: &[u32]) -> u32 {
    let mut good = 0u32;
    for count in counts {
        good = good.saturating_add(*count);
    }
    good
}

/// In how many rounds of all clients, each in a thread of its own, they got their own lines back.
fn owned<R: Net<Listener = TcpListener, Stream = TcpStream> + Threads + Sync>(
    rt: &R,
    alloc: Global,
    addr: SocketAddr,
) -> u32 {
    match thread::map_indices(rt, alloc, OWNERS, &|client| own(rt, alloc, addr, client)) {
        Ok(counts) => sum(counts.as_slice()),
        Err(_) => 0,
    }
}

/// Whether the page has an entry for each request, there is a record for each of four workers and the
/// reclaimer, and of all graphs nothing is left.
fn is_clean(ended: &mut Ended) -> bool {
    let entries = ended.audited.page().entries().len() as u64;
    let freed = ended.audited.event(Event::Reclaim(u64::MAX));
    entries == REQUESTS && ended.passes.len() == 5 && matches!(freed, Answer::Reclaimed(0, false))
}

/// Serves so many connections by four workers; whether that ends as it must.
fn leaves_all<R: Threads + Wait + Clock + RandomSource + Sync>(
    rt: &R,
    alloc: Global,
    listener: &TcpListener,
) -> bool {
    let base = "http://localhost";
    match serve_all(rt, alloc, listener, base, 4, 2, Some(REQUESTS), &OpenGate) {
        Ok(mut ended) => {
            let clean = is_clean(&mut ended);
            drop(ended);
            clean
        }
        Err(_) => false,
    }
}

/// In how many rounds the clients of that server got their own lines back, 0 where it left other things.
fn owned_beside<
    R: Net<Listener = TcpListener, Stream = TcpStream>
        + Threads
        + Wait
        + Clock
        + RandomSource
        + Sync,
>(rt: &R, alloc: Global) -> u32 {
    let Ok((listener, addr)) = listening(rt) else {
        return 0;
    };
    let (ended, good) = join(
        rt,
        || leaves_all(rt, alloc, &listener),
        || owned(rt, alloc, addr),
    );
    if ended { good } else { 0 }
}

#[test]
fn many_clients(rt: HostRuntime) -> Result<(), Fail> {
    assert_eq!(rt; owned_beside(&rt, rt.alloc()), 160);
    Ok(())
}
