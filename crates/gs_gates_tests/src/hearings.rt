//! For how long a client is heard that sends on after its last reply, by a clock that is not the system's.
use crate::jobs::{Job, both};
use gs_gates::{Others, linger};
use std::cell::Cell;
use std::io;
use std::io::Write;
use std::net::{Net, TcpListener, TcpStream};
use std::test::*;
use std::thread::Threads;
use std::time::{Clock, Duration};

/// A clock that goes on by a tenth of a second with each look.
#[derive(Drop)]
struct Tenths {
    looks: Cell<u64>,
}

impl Clock for Tenths {
    fn monotonic(&self) -> io::Result<Duration> {
        let looks = self.looks.get();
        self.looks.set(looks.saturating_add(1));
        Ok(Duration::from_millis(looks.saturating_mul(100)))
    }

    fn since_1970(&self) -> io::Result<Duration> {
        self.monotonic()
    }

    fn sleep(&self, _duration: Duration) {}
}

/// Others who wait all the time, or nobody.
#[derive(Clone, Copy)]
struct Queue {
    has_others: bool,
}

impl Others for Queue {
    fn has_others(&self) -> bool {
        self.has_others
    }
}

/// Whether others wait, for how many milliseconds a client is heard in all, and after how many looks at the
/// clock it is cut off, of which the first is before it is heard.
const HEARINGS: [(&str, bool, u64, u64); 7] = [
    ("nobody waits", false, 30_000, 301),
    ("others wait", true, 30_000, 11),
    ("a time that ends between two looks", false, 1_950, 21),
    ("a time of less than a second", false, 500, 6),
    ("the same while others wait", true, 500, 6),
    ("no time", false, 0, 2),
    ("a time of two thousand reads", false, 200_000, 2_001),
];

/// What a client sends at once, and how often at most: more than both ends of a connection hold.
const BLOCK_BYTES: usize = 16_384;

const MOST_BLOCKS: u64 = 6_000;

/// A client that sends on; whether it is cut off.
#[derive(Drop)]
struct Sender {
    stream: TcpStream,
}

impl Job for Sender {
    fn done(self) -> u64 {
        let block = [b'#'; BLOCK_BYTES];
        let mut end = &self.stream;
        for _ in 0..MOST_BLOCKS {
            if end.write_all(&block).is_err() {
                return 1;
            }
        }
        0
    }
}

/// The side that hears it, and leaves.
#[derive(Drop)]
struct Hearer<'a> {
    clock: &'a Tenths,
    stream: TcpStream,
    whole: Duration,
    others: Queue,
}

impl<'a> Job for Hearer<'a> {
    fn done(self) -> u64 {
        u64::from(linger(self.clock, &self.stream, self.whole, &self.others).is_ok())
    }
}

/// Both ends of a connection, the client's last, who gives up where nothing is taken.
fn both_ends<R: Net<Listener = TcpListener, Stream = TcpStream>>(
    rt: &R,
) -> io::Result<(TcpStream, TcpStream)> {
    let listener = TcpListener::bind(rt, "127.0.0.1:0")?;
    let client = TcpStream::connect(rt, listener.local_addr()?)?;
    client.set_write_timeout(Some(Duration::from_secs(20)))?;
    let (stream, _) = listener.accept()?;
    Ok((stream, client))
}

/// Whether a client is cut off after so many looks.
fn is_right<R: Net<Listener = TcpListener, Stream = TcpStream> + Threads>(
    rt: &R,
    has_others: bool,
    whole: u64,
    looks: u64,
) -> bool {
    let Ok((stream, client)) = both_ends(rt) else {
        return false;
    };
    let clock = Tenths {
        looks: Cell::new(0),
    };
    let hearer = Hearer {
        clock: &clock,
        stream,
        whole: Duration::from_millis(whole),
        others: Queue { has_others },
    };
    let (cut, ended) = both(rt, Sender { stream: client }, hearer);
    cut == 1 && ended == 1 && clock.looks.get() == looks
}

/// The first wrong one.
fn wrong_hearing<R: Net<Listener = TcpListener, Stream = TcpStream> + Threads>(
    rt: &R,
) -> Option<&'static str> {
    for (name, has_others, whole, looks) in &HEARINGS {
        if !is_right(rt, *has_others, *whole, *looks) {
            return Some(name);
        }
    }
    None
}

#[test]
fn a_client_that_sends_on_is_heard_for_its_time(rt: HostRuntime) -> Result<(), Fail> {
    assert_eq!(rt; wrong_hearing(&rt), None);
    Ok(())
}
