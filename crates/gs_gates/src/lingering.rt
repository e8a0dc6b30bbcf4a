//! How a connection ends that was served to its end.
ghost use Rattle.std.specs.Prelude.{◌≡◌};
ghost use Rattle.std.specs.Duration.{as_nanos};
ghost use Rattle.gs_gates.specs.Decisions as spec;

use crate::limits::{LINGER_BYTES, linger_patience};
use std::io;
use std::io::{ErrorKind, Read};
use std::net::{Shutdown, TcpStream};
use std::time::{Clock, Duration, Instant};

/// The others that wait for a worker.
pub trait Others {
    /// Whether there are any.
    fn has_others(&self) -> bool;
}

/// Whether a client that still sends was heard for long enough: for this whole time, or for a second where
/// others wait. So it was where the clock could not be read.
fn was_heard(
    start: Option<Instant>,
    now: Option<Instant>,
    whole: Duration,
    has_others: bool,
) -> bool
    ensures { result ≡ spec.was_heard start now (as_nanos whole) has_others }
{
    let (Some(start), Some(now)) = (start, now) else {
        return true;
    };
    let taken = now.duration_since(start).as_nanos();
    taken >= whole.as_nanos() || (taken >= linger_patience().as_nanos() && has_others)
}

/// Ends what is written, and reads and drops what the client still sends until it ends too, as long as no
/// read waits for longer than a second, and for this whole time at most, or a second while others wait. A
/// connection that is closed before is reset by bytes that come then, and its client may lose the last
/// reply with it (RFC 9112, section 9.6).
pub fn linger<K: Clock, O: Others>(
    clock: &K,
    stream: &TcpStream,
    whole: Duration,
    others: &O,
) -> io::Result<()> {
    stream.shutdown(Shutdown::Write)?;
    stream.set_read_timeout(Some(linger_patience()))?;
    let start = Instant::now(clock).ok();
    let mut bytes = [0u8; LINGER_BYTES];
    let mut input = stream;
    for _ in 0..u64::MAX {
        match input.read(&mut bytes) {
            Ok(0) => break,
            Ok(_) => {}
            Err(e) if e.kind() == ErrorKind::Interrupted => {}
            Err(e) => return Err(e),
        }
        let now = Instant::now(clock).ok();
        if was_heard(start, now, whole, others.has_others()) {
            break;
        }
    }
    Ok(())
}
