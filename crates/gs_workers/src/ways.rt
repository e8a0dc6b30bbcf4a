//! How long reads of the system wait, and what becomes of a connection.
ghost use Rattle.std.specs.Prelude.{◌≡◌};
ghost use Rattle.gs_workers.specs.Ways.{way_in_vain};

use gs_gates::idleness;
use std::io;
use std::io::ErrorKind;
use std::time::Duration;

/// How long one read of the system waits: others that wait are looked for after each.
pub(crate) fn read_wait(patience: Duration) -> Duration {
    if patience < idleness() {
        patience
    } else {
        idleness()
    }
}

/// How many such waits are as long as this.
pub(crate) fn waits_in(patience: Duration) -> u64 {
    let one = read_wait(patience).as_millis();
    let waits = patience.as_millis().checked_div(one).unwrap_or(1);
    u64::try_from(waits).unwrap_or(u64::MAX)
}

/// What becomes of a connection whose worker serves it no more.
#[derive(Clone, Copy, PartialEq)]
pub(crate) enum Way {
    /// It ended by itself.
    Over,
    /// It waits for a worker once more.
    Waits,
    /// It was idle, and ends.
    Idle,
}

/// What becomes of a connection at which one read waited in vain, if it does not stay: whether it is between
/// two requests, whether it was idle for as long as it may be, and whether others wait.
pub(crate) fn way_in_vain(is_between: bool, is_stale: bool, has_others: bool) -> Option<Way>
    ensures { result ≡ way_in_vain is_between is_stale has_others }
{
    if !is_between {
        None
    } else if is_stale {
        Some(Way::Idle)
    } else if has_others {
        Some(Way::Waits)
    } else {
        None
    }
}

/// Whether a read or a write of the system waited for as long as it may.
pub(crate) fn has_waited(error: &io::Error) -> bool {
    matches!(error.kind(), ErrorKind::WouldBlock | ErrorKind::TimedOut)
}
