//! What the requests of a server leave behind is freed.
use gs_event::{Answer, Event};
use gs_servers::{OpenGate, serve_all};
use gs_shared::Ended;
use gs_test_servers::{ask, connected, get, listening, put};
use std::alloc::Global;
use std::io;
use std::net::{Net, SocketAddr, TcpListener, TcpStream};
use std::random::RandomSource;
use std::sync::Wait;
use std::test::*;
use std::thread::{Threads, join};
use std::time::Clock;

/// How often the graph is put, and then read.
const PUTS: u64 = 3;

const GETS: u64 = 8;

/// Makes this request so many times, each by a connection of its own.
fn ask_often<N: Net<Stream = TcpStream>>(
    rt: &N,
    alloc: Global,
    addr: SocketAddr,
    request: &str,
    times: u64,
) -> io::Result<()> {
    for _ in 0..times {
        let _ = ask(alloc, connected(rt, addr)?, request)?;
    }
    Ok(())
}

/// Puts one graph again and again, and then reads it.
fn replaces<N: Net<Stream = TcpStream>>(rt: &N, alloc: Global, addr: SocketAddr) -> io::Result<()> {
    let upload = put(alloc, "again", "<a:a> <a:b> \"1\" .\n<a:a> <a:b> \"2\" .\n")?;
    ask_often(rt, alloc, addr, upload.as_str(), PUTS)?;
    let read = get(alloc, "again")?;
    ask_often(rt, alloc, addr, read.as_str(), GETS)
}

/// Whether a graph was written as often as it was put, and of all versions but the last nothing is left.
fn is_clean(ended: &mut Ended) -> bool {
    let written = ended.audited.page().entries().len() as u64;
    let freed = ended.audited.event(Event::Reclaim(u64::MAX));
    written == PUTS + GETS && matches!(freed, Answer::Reclaimed(0, false))
}

/// Serves that client by one worker; whether what it left is freed in the end.
fn leaves_nothing<R: Threads + Wait + Clock + RandomSource + Sync>(
    rt: &R,
    alloc: Global,
    listener: &TcpListener,
) -> bool {
    let (base, limit) = ("http://localhost", Some(PUTS + GETS));
    match serve_all(rt, alloc, listener, base, 1, 256, limit, &OpenGate) {
        Ok(mut ended) => {
            let clean = is_clean(&mut ended);
            drop(ended);
            clean
        }
        Err(_) => false,
    }
}

/// Whether a server whose graph was replaced has freed what that left, and whether its client was
/// answered.
fn frees_what_was_replaced<
    R: Net<Listener = TcpListener, Stream = TcpStream>
        + Threads
        + Wait
        + Clock
        + RandomSource
        + Sync,
>(rt: &R, alloc: Global) -> bool {
    let Ok((listener, addr)) = listening(rt) else {
        return false;
    };
    let (clean, asked) = join(
        rt,
        || leaves_nothing(rt, alloc, &listener),
        || replaces(rt, alloc, addr).is_ok(),
    );
    clean && asked
}

#[test]
fn what_was_replaced_is_freed(rt: HostRuntime) -> Result<(), Fail> {
    assert!(rt; frees_what_was_replaced(&rt, rt.alloc()));
    Ok(())
}
