//! A client that is refused before it has said all.
use gs_gates_tests::{Job, one};
use gs_servers::OpenGate;
use gs_test_servers::{Setup, ask, connected, served};
use std::alloc::{AllocError, Global};
use std::io;
use std::net::{Net, TcpListener, TcpStream};
use std::random::RandomSource;
use std::sync::Wait;
use std::test::*;
use std::thread::Threads;
use std::time::Clock;

/// The lines of a body that is too long for both ends of a connection to hold.
const LINES: usize = 1_048_576;

/// Puts a graph where none can be put, which its head tells.
fn refused_put(alloc: Global) -> Result<String, AllocError> {
    let length = LINES * 8;
    let mut request = format!(in alloc;
        "PUT /store HTTP/1.1\r\nHost: a\r\nContent-Type: application/n-triples\r\nContent-Length: {length}\r\n\r\n"
    )?;
    for _ in 0..LINES {
        request.push_str("# quiet\n")?;
    }
    Ok(request)
}

/// Whether a client that sends all of it hears the refusal.
fn hears_refusal(alloc: Global, stream: TcpStream) -> io::Result<bool> {
    let request = refused_put(alloc)?;
    let reply = ask(alloc, stream, request.as_str())?;
    Ok(reply.as_str().starts_with("HTTP/1.1 405 "))
}

/// Such a client.
#[derive(Drop)]
struct Refused {
    alloc: Global,
    stream: TcpStream,
}

impl Job for Refused {
    fn done(self) -> u64 {
        one(hears_refusal(self.alloc, self.stream))
    }
}

/// A listener, and a connection to it.
fn one_connected<R: Net<Listener = TcpListener, Stream = TcpStream>>(
    rt: &R,
) -> io::Result<(TcpListener, TcpStream)> {
    let listener = TcpListener::bind(rt, "127.0.0.1:0")?;
    let stream = connected(rt, listener.local_addr()?)?;
    Ok((listener, stream))
}

/// A server of one worker with such a client.
fn refusal_is_heard<
    R: Net<Listener = TcpListener, Stream = TcpStream>
        + Threads
        + Wait
        + Clock
        + RandomSource
        + Sync,
>(rt: &R, alloc: Global) -> u64 {
    let Ok((listener, stream)) = one_connected(rt) else {
        return 0;
    };
    let setup = Setup {
        workers: 1,
        limit: 1,
        patience: 30_000,
        whole: 60_000,
    };
    served(
        rt,
        alloc,
        &listener,
        setup,
        &OpenGate,
        Refused { alloc, stream },
    )
}

#[test]
fn a_refusal_is_heard_by_a_client_that_still_sends(rt: HostRuntime) -> Result<(), Fail> {
    assert_eq!(rt; refusal_is_heard(&rt, rt.alloc()), 1);
    Ok(())
}
