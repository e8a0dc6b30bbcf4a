//! Long reads take turns.
use gs_door::Door;
use gs_event::{Action, Answer, Event};
use std::sync::{Mutex, Wait};

/// Whether an event asks for a piece of a read.
fn is_piece(event: &Event) -> bool {
    matches!(event, Event::Seat(_, Action::Piece(_)))
}

/// A door before which long reads take turns: a piece that follows a piece waits for the turn, which all
/// workers share, before it waits for the store's lock. So of all reads that are past their first piece at
/// most one waits for that lock or holds it, however many there are, and a write meets no more than that
/// one. A read's first piece takes no turn, and no other event does.
pub struct TurnDoor<'a, D: Door, R: Wait> {
    pub rt: &'a R,
    /// It guards no value. It is held while the door takes a piece that follows a piece.
    pub turn: &'a Mutex<()>,
    /// Whether the last event asked for a piece.
    pub is_reading: bool,
    pub door: D,
}

impl<'a, D: Door, R: Wait> Door for TurnDoor<'a, D, R> {
    ghost Gives = { λ old e a new. D.Gives old.door e a new.door };

    fn event(&mut self, event: Event) -> Answer {
        let was_reading = self.is_reading;
        self.is_reading = is_piece(&event);
        if !(was_reading && self.is_reading) {
            return self.door.event(event);
        }
        let turn = self.turn.lock(self.rt);
        let answer = self.door.event(event);
        drop(turn);
        answer
    }

    fn seed(&self) -> u64 {
        self.door.seed()
    }
}
