//! A client that takes its reply late, or too late.
use gs_gates_tests::{Job, one};
use gs_servers::OpenGate;
use gs_test_servers::{Setup, get, hears_made, put, say, served, two_connected};
use std::alloc::{AllocError, Global};
use std::net::{Net, TcpListener, TcpStream};
use std::random::RandomSource;
use std::sync::Wait;
use std::test::*;
use std::thread::Threads;
use std::time::{Clock, Duration};
use std::{io, thread};

/// The lines of a graph, and the letters of each: a piece of two lines is taken in part once a client takes
/// no more.
const LINES: u32 = 10;

const LETTERS: u32 = 60_000;

/// How often it is asked for: more comes than both ends of a connection hold.
const ASKS: usize = 10;

/// Such a graph.
fn long_lines(alloc: Global) -> Result<String, AllocError> {
    let mut letters = String::new(alloc);
    for _ in 0..LETTERS {
        letters.push('x')?;
    }
    let mut lines = String::new(alloc);
    for line in 0..LINES {
        let text = format!(in alloc; "<a:a> <a:b> \"{line}{letters}\" .\n")?;
        lines.push_str(text.as_str())?;
    }
    Ok(lines)
}

/// So many GETs of it at once, the last of which closes.
fn many_gets(alloc: Global) -> Result<String, AllocError> {
    let mut requests = String::new(alloc);
    for _ in 1..ASKS {
        requests.push_str("GET /graphs/long HTTP/1.1\r\nHost: a\r\n\r\n")?;
    }
    let last = get(alloc, "long")?;
    requests.push_str(last.as_str())?;
    Ok(requests)
}

/// Whether a graph is made of these lines.
fn is_made(alloc: Global, stream: TcpStream, lines: &str) -> io::Result<bool> {
    let upload = put(alloc, "long", lines)?;
    say(&stream, upload.as_bytes())?;
    hears_made(alloc, &stream)
}

/// For how many milliseconds a client takes nothing, and whether all that it asked for comes then.
#[derive(Clone, Copy)]
struct Taking {
    rest: u64,
    is_whole: bool,
}

/// One client puts a graph; the other asks for it, and takes nothing for a time: whether as much comes then
/// as should.
fn takes_so<K: Clock>(
    clock: &K,
    alloc: Global,
    first: TcpStream,
    second: TcpStream,
    taking: Taking,
) -> io::Result<bool> {
    let lines = long_lines(alloc)?;
    let made = is_made(alloc, first, lines.as_str())?;
    let requests = many_gets(alloc)?;
    say(&second, requests.as_bytes())?;
    thread::sleep(clock, Duration::from_millis(taking.rest));
    let replies = io::read_to_string(alloc, &second)?;
    let begins = replies.as_str().starts_with("HTTP/1.1 200 ");
    let is_whole = replies.len() >= lines.len().saturating_mul(ASKS);
    Ok(made && begins && is_whole == taking.is_whole)
}

/// Both clients.
#[derive(Drop)]
struct Takers<'a, K: Clock> {
    clock: &'a K,
    alloc: Global,
    first: TcpStream,
    second: TcpStream,
    taking: Taking,
}

impl<'a, K: Clock> Job for Takers<'a, K> {
    fn done(self) -> u64 {
        one(takes_so(self.clock, self.alloc, self.first, self.second, self.taking))
    }
}

/// Once both ends are full a write may wait for three seconds, and has taken a part of its text then. The
/// next one might wait for three more, but the text has two seconds in all.
fn taken_so<
    R: Net<Listener = TcpListener, Stream = TcpStream>
        + Threads
        + Wait
        + Clock
        + RandomSource
        + Sync,
>(rt: &R, alloc: Global, taking: Taking) -> u64 {
    let Ok((listener, first, second)) = two_connected(rt) else {
        return 0;
    };
    let setup = Setup {
        workers: 1,
        limit: 2,
        patience: 3_000,
        whole: 2_000,
    };
    let clients = Takers {
        clock: rt,
        alloc,
        first,
        second,
        taking,
    };
    served(rt, alloc, &listener, setup, &OpenGate, clients)
}

#[test]
fn a_client_that_takes_nothing_is_cut_off(rt: HostRuntime) -> Result<(), Fail> {
    let taking = Taking {
        rest: 5_000,
        is_whole: false,
    };
    assert_eq!(rt; taken_so(&rt, rt.alloc(), taking), 1);
    Ok(())
}

#[test]
fn a_client_that_takes_its_reply_in_time_gets_all(rt: HostRuntime) -> Result<(), Fail> {
    let taking = Taking {
        rest: 1_000,
        is_whole: true,
    };
    assert_eq!(rt; taken_so(&rt, rt.alloc(), taking), 1);
    Ok(())
}
