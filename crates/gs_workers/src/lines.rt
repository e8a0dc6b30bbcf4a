//! A connection as its worker reads and writes it: what it may wait for, and when it gives way.
ghost use Rattle.std.specs.Prelude.{◌≤◌, length, IfOk};

use crate::heads::Heading;
use crate::queues::Queue;
use crate::states::State;
use crate::ways::{Way, has_waited, read_wait, waits_in, way_in_vain};
use gs_gates::{Others, share};
use std::io;
use std::io::{ErrorKind, Read, Write};
use std::net::TcpStream;
use std::time::{Clock, Duration, Instant};

/// The bytes of a body for which a client has so long in all.
const WINDOW_BYTES: usize = 8_192;

/// The bytes of a text for which a client has so long in all.
const TEXT_WINDOW_BYTES: usize = 65_536;

/// What a text begins with that ends no request.
const GREETING: &[u8] = b"HTTP/1.1 100 ";

/// What the reply begins with to a request for which there was no memory, or no number.
const REFUSAL: &[u8] = b"HTTP/1.1 503 ";

/// A connection while it is served, as it is read and written. The last byte of what one read of the
/// system gave is handed out by itself, unless a head ends with it that began where a request does: where a
/// reply is begun between that and the next read, the request was whole with that byte, and no byte of the
/// next one came. There the connection stands between two requests.
#[derive(Drop)]
pub(crate) struct Line<'a, K: Clock> {
    pub(crate) clock: &'a K,
    pub(crate) stream: &'a TcpStream,
    pub(crate) others: &'a Queue,
    pub(crate) state: &'a State,
    pub(crate) patience: Duration,
    pub(crate) whole: Duration,
}

impl<'a, K: Clock> Line<'a, K> {
    /// What is left of the time since then; all of it where the clock cannot be read.
    fn left_since(&self, start: Instant) -> Duration {
        let taken = start.elapsed(self.clock).unwrap_or(Duration::ZERO);
        self.whole.saturating_sub(taken)
    }

    /// From now on one read of the system waits for so long.
    fn set_wait(&self, wait: Duration) -> io::Result<()> {
        if wait == self.state.wait.get() {
            return Ok(());
        }
        self.state.wait.set(wait);
        self.stream.set_read_timeout(Some(wait))
    }

    /// Whether its worker served it for as long as it may while others wait, and not in vain.
    fn had_its_share(&self) -> bool {
        match self.state.served_since {
            Some(start) if self.state.was_read.get() => {
                start.elapsed(self.clock).unwrap_or(Duration::ZERO) >= share()
            }
            _ => false,
        }
    }

    /// How long it is idle, where one read waited in vain.
    fn idle_time(&self) -> Duration {
        if self.state.idle_since.get().is_none() {
            let now = Instant::now(self.clock).ok();
            let start = now.and_then(|now| now.checked_sub(self.state.wait.get()));
            self.state.idle_since.set(start);
        }
        match self.state.idle_since.get() {
            Some(start) => start.elapsed(self.clock).unwrap_or(self.patience),
            None => self.patience,
        }
    }

    /// Whether it goes on to wait, after one read waited in vain.
    fn stays(&self) -> bool {
        let is_between = self.state.is_between.get();
        let is_stale = is_between && self.idle_time() >= self.patience;
        match way_in_vain(is_between, is_stale, self.others.has_others()) {
            None => true,
            Some(way) => {
                self.state.way.set(way);
                false
            }
        }
    }

    /// Whether it gives way before it is read again; else how long one read may wait is set.
    fn gives_way(&self) -> io::Result<bool> {
        if !self.others.has_others() {
            self.set_wait(read_wait(self.patience))?;
            return Ok(false);
        }
        if self.others.has_place() && self.had_its_share() {
            self.state.way.set(Way::Waits);
            return Ok(true);
        }
        self.set_wait(share())?;
        Ok(false)
    }

    /// Waits for the first bytes of a request. There is the end of the input where the connection gives
    /// way, or none came in time.
    fn read_between(&self, space: &mut [u8]) -> io::Result<usize>
        ensures { IfOk result (λ n. n ≤ length space.new) }
    {
        let mut stream = self.stream;
        for _ in 0..u64::MAX {
            if self.gives_way()? {
                return Ok(0);
            }
            match stream.read(space) {
                Err(error) if has_waited(&error) => {}
                other => {
                    self.state.idle_since.set(None);
                    return other;
                }
            }
            if !self.stays() {
                return Ok(0);
            }
        }
        Ok(0)
    }

    /// Whether the head, or 8 KiB of the body, have taken all of their time.
    fn is_late(&self) -> bool {
        match self.state.reads_since.get() {
            Some(start) => self.left_since(start).is_zero(),
            None => {
                self.state.reads_since.set(Instant::now(self.clock).ok());
                false
            }
        }
    }

    /// Waits for more bytes of a request.
    fn read_within(&self, space: &mut [u8]) -> io::Result<usize>
        ensures { IfOk result (λ n. n ≤ length space.new) }
    {
        let mut stream = self.stream;
        self.set_wait(read_wait(self.patience))?;
        for _ in 0..waits_in(self.patience) {
            if self.is_late() {
                break;
            }
            match stream.read(space) {
                Err(error) if has_waited(&error) => {}
                other => return other,
            }
            if !self.stays() {
                return Ok(0);
            }
        }
        Err(io::Error::from(ErrorKind::TimedOut))
    }

    /// The time begins anew.
    fn begin(&self) {
        self.state.reads_since.set(None);
        self.state.came.set(0);
    }

    /// These bytes of a request came. Whether its head ends with the last of them.
    fn count(&self, bytes: &[u8]) -> bool {
        let mut heading = self.state.heading.get();
        if !heading.is_over() {
            let is_end = heading.pass(bytes);
            self.state.heading.set(heading);
            if heading.is_over() {
                self.begin();
            }
            return is_end;
        }
        let came = self.state.came.get().saturating_add(bytes.len());
        if came < WINDOW_BYTES {
            self.state.came.set(came);
        } else {
            self.begin();
        }
        false
    }

    /// Reads from the system, and keeps the last byte of what came for the next read, unless a head ends
    /// with it.
    fn read_system(&self, space: &mut [u8]) -> io::Result<usize>
        ensures { IfOk result (λ n. n ≤ length space.new) }
    {
        let count = if self.state.is_between.get() {
            self.read_between(space)?
        } else {
            self.read_within(space)?
        };
        if count == 0 {
            return Ok(0);
        }
        self.state.is_between.set(false);
        self.state.was_read.set(true);
        let is_end = self.count(&space[..count]);
        if is_end || count == 1 {
            return Ok(count);
        }
        self.state.held.set(space.get(count - 1).copied());
        Ok(count - 1)
    }

    /// A text is begun to be written. One that is said once a request is over begins the next one.
    fn says(&self, text: &[u8]) {
        if text.starts_with(GREETING) {
            return;
        }
        if text.starts_with(REFUSAL) {
            self.state.is_refused.set(true);
        }
        let is_between = self.state.held.get().is_none();
        self.state.is_between.set(is_between);
        self.state.heading.set(Heading::new(is_between));
        self.begin();
    }

    /// The rest of a text may wait for as long as is left of its time; whether any is.
    fn may_write_more(&self) -> io::Result<()> {
        let Some(start) = self.state.writes_since.get() else {
            return Ok(());
        };
        let left = self.left_since(start);
        if left.is_zero() {
            return Err(io::Error::from(ErrorKind::TimedOut));
        }
        let wait = if left < self.patience {
            left
        } else {
            self.patience
        };
        self.stream.set_write_timeout(Some(wait))
    }

    /// Writes the first bytes of a text.
    fn write_first(&self, text: &[u8]) -> io::Result<usize>
        ensures { IfOk result (λ n. n ≤ length text.now) }
    {
        self.says(text);
        let start = Instant::now(self.clock).ok();
        let mut stream = self.stream;
        let count = stream.write(text)?;
        if count < text.len() {
            self.state.is_in_text.set(true);
            self.state.writes_since.set(start);
            self.state.taken.set(0);
        }
        Ok(count)
    }

    /// So many bytes more of a text were taken: after each 64 KiB its time begins anew.
    fn take(&self, count: usize) {
        let taken = self.state.taken.get().saturating_add(count);
        if taken < TEXT_WINDOW_BYTES {
            self.state.taken.set(taken);
        } else {
            self.state.taken.set(0);
            self.state.writes_since.set(Instant::now(self.clock).ok());
        }
    }

    /// Writes more of a text.
    fn write_more(&self, text: &[u8]) -> io::Result<usize>
        ensures { IfOk result (λ n. n ≤ length text.now) }
    {
        self.may_write_more()?;
        let mut stream = self.stream;
        let count = stream.write(text)?;
        if count < text.len() {
            self.take(count);
            return Ok(count);
        }
        self.state.is_in_text.set(false);
        self.stream.set_write_timeout(Some(self.patience))?;
        Ok(count)
    }
}

impl<'a, K: Clock> Read for Line<'a, K> {
    fn read(&mut self, buf: &mut [u8]) -> io::Result<usize> {
        let Some(first) = buf.first_mut() else {
            return Ok(0);
        };
        match self.state.held.take() {
            Some(byte) => {
                *first = byte;
                Ok(1)
            }
            None => self.read_system(buf),
        }
    }
}

impl<'a, K: Clock> Write for Line<'a, K> {
    fn write(&mut self, buf: &[u8]) -> io::Result<usize> {
        if self.state.is_in_text.get() {
            self.write_more(buf)
        } else {
            self.write_first(buf)
        }
    }

    fn flush(&mut self) -> io::Result<()> {
        Ok(())
    }
}
