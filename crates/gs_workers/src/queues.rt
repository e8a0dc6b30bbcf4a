//! The connections that wait for a worker: those that were accepted, and those that gave way.
use crossbeam_channel::{Receiver, RecvTimeoutError, Sender};
use gs_gates::{Others, PLACES, idleness};
use std::io;
use std::io::ErrorKind;
use std::net::TcpStream;
use std::sync::Wait;
use std::time::{Clock, Duration, Instant};

/// The most connections that gave way and are looked at before a worker waits at one.
const MOST_LOOKS: usize = 8;

/// The most connections that gave way without having been waited for in vain. Beyond these there is room for
/// the others, and for one in the hands of each worker.
const MOST_PLACES: usize = 2 * PLACES;

/// A connection between two requests that waits for a worker, and since when no byte of the next request
/// has come, where none came yet.
#[derive(Drop)]
pub struct Waiting {
    pub(crate) stream: TcpStream,
    pub(crate) since: Option<Instant>,
}

/// A connection that was just accepted.
pub(crate) fn accepted(stream: TcpStream) -> Waiting {
    Waiting {
        stream,
        since: None,
    }
}

/// Whether a read would not wait.
fn has_bytes(stream: &TcpStream) -> io::Result<bool> {
    stream.set_nonblocking(true)?;
    let mut byte = [0u8; 1];
    let seen = stream.peek(&mut byte);
    stream.set_nonblocking(false)?;
    match seen {
        Ok(_) => Ok(true),
        Err(error) => Ok(error.kind() != ErrorKind::WouldBlock),
    }
}

/// What the workers of a server take their connections from: the ones that were accepted, and the places
/// of those that gave way, which all workers fill and empty.
#[derive(Drop)]
pub struct Queue {
    pub streams: Receiver<TcpStream>,
    pub to_places: Sender<Waiting>,
    pub places: Receiver<Waiting>,
}

impl Others for Queue {
    fn has_others(&self) -> bool {
        !self.streams.is_empty() || !self.places.is_empty()
    }
}

impl Queue {
    /// Whether there is a place for one more that gives way.
    pub(crate) fn has_place(&self) -> bool {
        self.places.len() < MOST_PLACES
    }

    /// Whether a connection that has nothing to be read ends: it is idle for as long as it may be, or for a
    /// second where no place is left.
    fn is_over<K: Clock>(&self, clock: &K, waiting: &Waiting, patience: Duration) -> bool {
        let Some(since) = waiting.since else {
            return false;
        };
        let idle = since.elapsed(clock).unwrap_or(patience);
        idle >= patience || (idle >= idleness() && self.places.len() >= PLACES)
    }

    /// A connection waits in a place, unless it is over.
    pub(crate) fn keep<R: Wait + Clock>(&self, rt: &R, waiting: Waiting, patience: Duration) {
        if !self.is_over(rt, &waiting, patience) {
            let _ = self.to_places.try_send(rt, waiting);
        }
    }

    /// A connection has nothing to be read, and is idle from now on at least.
    fn rest<R: Wait + Clock>(&self, rt: &R, waiting: Waiting, patience: Duration) {
        let Waiting { stream, since } = waiting;
        let since = since.or(Instant::now(rt).ok());
        self.keep(rt, Waiting { stream, since }, patience);
    }

    /// Looks at so many connections that gave way, and takes the first at which a read would not wait.
    fn take_ready<R: Wait + Clock>(
        &self,
        rt: &R,
        patience: Duration,
        many: usize,
    ) -> Option<Waiting> {
        for _ in 0..many {
            let waiting = self.places.try_recv(rt).ok()?;
            match has_bytes(&waiting.stream) {
                Ok(true) => return Some(waiting),
                Ok(false) => self.rest(rt, waiting, patience),
                Err(_) => {}
            }
        }
        None
    }

    /// One that was accepted, where one waits.
    fn take_accepted<R: Wait>(&self, rt: &R) -> Option<Waiting> {
        Some(accepted(self.streams.try_recv(rt).ok()?))
    }

    /// How many that gave way are looked at: one where others were accepted and wait too.
    fn looks(&self) -> usize {
        if self.streams.is_empty() {
            self.places.len().min(MOST_LOOKS)
        } else {
            1
        }
    }

    /// One that can go on, and else one that gave way, where one waits.
    fn take_now<R: Wait + Clock>(&self, rt: &R, patience: Duration) -> Option<Waiting> {
        if let Some(waiting) = self.take_ready(rt, patience, self.looks()) {
            return Some(waiting);
        }
        if let Some(waiting) = self.take_accepted(rt) {
            return Some(waiting);
        }
        self.places.try_recv(rt).ok()
    }

    /// The next connection, once there is one; none where no more can come. Those that were accepted and
    /// those that gave way have turns.
    pub(crate) fn take<R: Wait + Clock>(
        &self,
        rt: &R,
        patience: Duration,
        is_for_accepted: bool,
    ) -> Option<Waiting> {
        if is_for_accepted {
            if let Some(waiting) = self.take_accepted(rt) {
                return Some(waiting);
            }
        }
        for _ in rt.forever() {
            if let Some(waiting) = self.take_now(rt, patience) {
                return Some(waiting);
            }
            match self.streams.recv_timeout(rt, idleness()) {
                Ok(stream) => return Some(accepted(stream)),
                Err(RecvTimeoutError::Timeout) => {}
                Err(RecvTimeoutError::Disconnected) => {
                    if self.places.is_empty() {
                        return None;
                    }
                }
            }
        }
        None
    }
}
