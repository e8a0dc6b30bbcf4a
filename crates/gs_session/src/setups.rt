//! What stays the same for all requests of a session.
ghost use Rattle.gs_session.specs.Steps.{TakesAction};

use crate::sites::Site;
use gs_door::Door;
use gs_event::{Action, Answer, Event};
use std::alloc::Global;

/// What stays the same for all requests of a session.
#[derive(Drop)]
pub struct Setup {
    pub alloc: Global,
    pub seat: u16,
    /// How many lines a piece of a read has.
    pub piece: u32,
    pub site: Site,
}

impl Setup {
    /// One event of the seat.
    pub fn act<D: Door>(&self, action: Action, door: &mut D) -> Answer
        ensures { TakesAction D.Gives self.now.seat door.old action result door.new }
    {
        door.event(Event::Seat(self.seat, action))
    }
}
