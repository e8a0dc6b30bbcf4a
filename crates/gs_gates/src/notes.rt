//! What a worker tells the reclaimer.
use crate::endings::Awaited;
use crossbeam_channel::Sender;
use gs_door::Door;
use gs_event::{Answer, Event};
use std::sync::Wait;

/// That something may be left to reclaim.
#[derive(Clone, Copy, Debug, Drop)]
pub struct Note;

/// A door that sends a note after each event that ended an upload, a patch, a Delete or a read, unless a
/// note waits. The channel counts a note until the receive that takes it is about to return, and the sweep
/// begins after that: so a note that is seen to wait once the event is over stands for it too, and so do
/// those that leave no room.
pub struct NoteDoor<'a, D: Door, R: Wait> {
    pub rt: &'a R,
    pub notes: Sender<Note>,
    pub door: D,
}

impl<'a, D: Door, R: Wait> Door for NoteDoor<'a, D, R> {
    ghost Gives = { λ old e a new. D.Gives old.door e a new.door };

    fn event(&mut self, event: Event) -> Answer {
        let awaited = Awaited::by(&event);
        let answer = self.door.event(event);
        if awaited.ends_by(&answer) && self.notes.is_empty() {
            let _ = self.notes.try_send(self.rt, Note);
        }
        answer
    }

    fn seed(&self) -> u64 {
        self.door.seed()
    }
}
