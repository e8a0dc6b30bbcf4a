//! The limits of a server: how long it waits, in the unit that a name ends with, how many connections and notes may wait, and
//! how much it frees or how many bytes it drops at once, so that neither a silent client nor much to be freed keeps others for good.
ghost use Rattle.std.specs.Prelude.{◌≡◌};
ghost use Rattle.std.specs.Duration.{as_nanos};
ghost use Rattle.gs_gates.specs.Limits as spec;

use std::time::Duration;

/// The seconds that one read or one write of a connection may wait for its client.
pub const PATIENCE_SECONDS: u64 = 30;

/// The seconds that a client may take in all for a head, for each 8 KiB of a body, and for each 64 KiB of a
/// text that it is sent.
pub const WHOLE_SECONDS: u64 = 60;

/// The seconds after which others that wait are looked for, where no byte of the next request came, and
/// after which an idle connection ends where no place is left.
pub const IDLE_SECONDS: u64 = 1;

/// The milliseconds for which a worker serves a connection while others wait. Between two requests it
/// waits for no longer either.
pub const SHARE_MILLISECONDS: u64 = 10;

/// The milliseconds of rest after an accept that failed.
pub const ACCEPT_PAUSE_MILLISECONDS: u64 = 50;

/// The most nodes and records that are freed in one hold of the lock.
pub const RECLAIM_NODES: u64 = 4_096;

/// The accepted connections that may wait for a worker. More wait in the system's own queue.
pub const WAITING_STREAMS: usize = 16;

/// The connections between two requests that wait for a worker, once they gave way to others: where there
/// are more, one that was idle for a second ends.
pub const PLACES: usize = 256;

/// The room for them: as many again are taken that are not idle, and each of up to 256 workers may have one
/// in its hands.
pub const WAITING_PLACES: usize = 768;

/// The notes that may wait for the reclaimer. Where one waits none is sent, so there are more only where
/// several workers looked at the same time.
pub const WAITING_NOTES: usize = 16;

/// How many times as long as a sweep took the reclaimer rests after it. So it has at most a seventeenth
/// of the time, unless a sweep takes longer than an eightieth of a second.
pub(crate) const REST_TIMES: u128 = 16;

/// The least nanoseconds of this rest, a millisecond: the notes of many requests become one.
pub(crate) const LEAST_REST_NANOSECONDS: u64 = 1_000_000;

/// The most nanoseconds of this rest, a fifth of a second. A clock that jumps does not keep the reclaimer
/// from its work for longer, and what waits to be freed is no more than what this rest and a sweep leave
/// behind.
pub(crate) const MOST_REST_NANOSECONDS: u64 = 200_000_000;

/// The seconds that one read may wait for a client to end too, once its connection was served; and those
/// after which such reads end while others wait.
pub const LINGER_SECONDS: u64 = 1;

/// The most bytes that one of these reads drops.
pub(crate) const LINGER_BYTES: usize = 16_384;

/// The seconds for which no more is told of failures of a kind, after a number of them was.
pub(crate) const SILENCE_SECONDS: u64 = 1;

/// How long one read or one write of a connection may wait for its client.
pub fn patience() -> Duration
    ensures { as_nanos result ≡ spec.patience }
{
    Duration::from_secs(PATIENCE_SECONDS)
}

/// How long a client may take in all for a head, for each 8 KiB of a body, and for each 64 KiB of a text
/// that it is sent.
pub fn whole() -> Duration
    ensures { as_nanos result ≡ spec.whole }
{
    Duration::from_secs(WHOLE_SECONDS)
}

/// After how long others that wait are looked for, and an idle connection ends where no place is left.
pub fn idleness() -> Duration
    ensures { as_nanos result ≡ spec.idleness }
{
    Duration::from_secs(IDLE_SECONDS)
}

/// How long a worker serves a connection while others wait.
pub fn share() -> Duration
    ensures { as_nanos result ≡ spec.share }
{
    Duration::from_millis(SHARE_MILLISECONDS)
}

/// The rest after an accept that failed.
pub(crate) fn accept_pause() -> Duration
    ensures { as_nanos result ≡ spec.accept_pause }
{
    Duration::from_millis(ACCEPT_PAUSE_MILLISECONDS)
}

/// How long one read may wait for a client to end too, once its connection was served; and how long all
/// such reads may take while others wait.
pub(crate) fn linger_patience() -> Duration
    ensures { as_nanos result ≡ spec.linger_patience }
{
    Duration::from_secs(LINGER_SECONDS)
}

/// For how long no more is told of failures of a kind, after a number of them was.
pub(crate) fn silence() -> Duration
    ensures { as_nanos result ≡ spec.silence }
{
    Duration::from_secs(SILENCE_SECONDS)
}

/// The rest of the reclaimer after a sweep that took so long.
pub(crate) fn rest_after(taken: Duration) -> Duration
    ensures { as_nanos result ≡ spec.pause_after (as_nanos taken) }
{
    let long = u64::try_from(taken.as_nanos().saturating_mul(REST_TIMES)).unwrap_or(u64::MAX);
    Duration::from_nanos(long.clamp(LEAST_REST_NANOSECONDS, MOST_REST_NANOSECONDS))
}
