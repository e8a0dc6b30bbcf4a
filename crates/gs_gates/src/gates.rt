//! What a server calls: once it is ready, before each event of a worker, and where something failed.
use gs_door::Door;
use gs_event::{Answer, Event};

/// What failed.
#[derive(Clone, Copy, Debug, PartialEq)]
pub enum Failure {
    /// An accept.
    Accept,
    /// A connection took no limits, or there was no memory for its session or for bytes that came: it was
    /// dropped.
    Connection,
    /// There was no memory for a request, or no number: it was answered 503.
    Request,
}

/// What a server calls, outside the hold of the lock. A gate that waits before an event holds up its own
/// worker alone.
pub trait Gate {
    /// Is called before this event of this worker's seat is taken.
    fn before(&self, _seat: u16, _event: &Event) {}

    /// Is called once, when the store and all threads are there and no connection was accepted. Whether
    /// any is to be: where none is, the server ends.
    fn ready(&self) -> bool {
        true
    }

    /// Is called after each failure, by the accept loop or by the worker that met it.
    fn failed(&self, _failure: Failure) {}
}

/// A gate that holds up nothing.
#[derive(Clone, Copy)]
pub struct OpenGate;

impl Gate for OpenGate {}

/// A door with a gate before it.
pub struct GateDoor<'a, G: Gate, D: Door> {
    pub gate: &'a G,
    pub seat: u16,
    pub door: D,
}

impl<'a, G: Gate, D: Door> Door for GateDoor<'a, G, D> {
    ghost Gives = { λ old e a new. D.Gives old.door e a new.door };

    fn event(&mut self, event: Event) -> Answer {
        self.gate.before(self.seat, &event);
        self.door.event(event)
    }

    fn seed(&self) -> u64 {
        self.door.seed()
    }
}
