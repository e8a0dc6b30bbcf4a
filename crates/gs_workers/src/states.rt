//! What is known of a connection while a worker serves it.
use crate::heads::Heading;
use crate::ways::{Way, read_wait};
use std::cell::Cell;
use std::time::{Clock, Duration, Instant};

/// What is known of a connection while a worker serves it.
#[derive(Drop)]
pub(crate) struct State {
    /// Since when its worker serves it.
    pub(crate) served_since: Option<Instant>,
    /// Since when no byte of the next request has come, once one was waited for.
    pub(crate) idle_since: Cell<Option<Instant>>,
    /// How long one read of the system waits now.
    pub(crate) wait: Cell<Duration>,
    pub(crate) is_between: Cell<bool>,
    /// The last byte that came, where it was not handed out.
    pub(crate) held: Cell<Option<u8>>,
    pub(crate) heading: Cell<Heading>,
    /// Since when a head or 8 KiB of a body are read, once they were not there at once.
    pub(crate) reads_since: Cell<Option<Instant>>,
    /// The bytes of a body that came since then.
    pub(crate) came: Cell<usize>,
    /// Since when 64 KiB of a text are written, once a part of it was taken.
    pub(crate) writes_since: Cell<Option<Instant>>,
    /// Whether a text is written of which a part was taken.
    pub(crate) is_in_text: Cell<bool>,
    /// The bytes of it that were taken since then.
    pub(crate) taken: Cell<usize>,
    /// Whether a byte came since its worker took it.
    pub(crate) was_read: Cell<bool>,
    /// Whether a reply was begun that says 503, after which it closes.
    pub(crate) is_refused: Cell<bool>,
    pub(crate) way: Cell<Way>,
}

impl State {
    pub(crate) fn new<K: Clock>(clock: &K, since: Option<Instant>, patience: Duration) -> State {
        State {
            served_since: Instant::now(clock).ok(),
            idle_since: Cell::new(since),
            wait: Cell::new(read_wait(patience)),
            is_between: Cell::new(true),
            held: Cell::new(None),
            heading: Cell::new(Heading::new(true)),
            reads_since: Cell::new(None),
            came: Cell::new(0),
            writes_since: Cell::new(None),
            is_in_text: Cell::new(false),
            taken: Cell::new(0),
            was_read: Cell::new(false),
            is_refused: Cell::new(false),
            way: Cell::new(Way::Over),
        }
    }

    /// What becomes of it.
    pub(crate) fn way(&self) -> Way {
        self.way.get()
    }

    /// Since when no byte of its next request has come.
    pub(crate) fn idle_since(&self) -> Option<Instant> {
        self.idle_since.get()
    }
}
