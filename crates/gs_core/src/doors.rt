//! A store is a door to itself. As a door it gives the seed 0, whichever its terms are spread by.
use crate::stores::Store;
use gs_door::Door;
use gs_event::{Answer, Event};

impl Door for Store {
    ghost use Rattle.gs_event.specs.Steps.{Steps};

    ghost Gives = { Steps };

    fn event(&mut self, event: Event) -> Answer {
        self.step(&event)
    }
}
