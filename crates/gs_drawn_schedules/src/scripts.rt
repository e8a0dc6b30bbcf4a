//! The events of a schedule, drawn one by one by what the seats of the model do.
use gs_drawn_events::{
    Ask, Kind, Scope, drawn_any, drawn_count, drawn_for_idle, drawn_for_patch, drawn_for_read,
    drawn_for_upload, drawn_inner, drawn_list, drawn_on_condition, drawn_place, drawn_wider,
};
use gs_drawn_requests::Draws;
use gs_version_models::{Model, Phase, SEATS};
use std::alloc::{AllocError, Global};

/// The number of seats.
pub fn seats() -> u16 {
    u16::try_from(SEATS).unwrap_or(1)
}

/// What is added to the number of a schedule for the seed of its second draws, and of its third.
const SECOND: u64 = 1_000_000;

const THIRD: u64 = 2_000_000;

/// The draws of this seed, if there are any.
fn draws_if(is_so: bool, seed: u64) -> Option<Draws> {
    if is_so { Some(Draws::new(seed)) } else { None }
}

/// What is drawn.
#[derive(Drop)]
pub struct Script {
    alloc: Global,
    draws: Draws,
    /// Only uploads that replace a graph and Deletes write, and an upload is opened, staged and committed
    /// without an event of another seat between.
    is_exact: bool,
    /// Where some questions and reads are about all graphs, which are. These draws are others, so that all
    /// else is drawn as without them.
    wider: Option<Draws>,
    /// Where some writes have conditions, which have, and what these are.
    conditions: Option<Draws>,
    /// What comes next of an upload, the last first, at this seat.
    queue: Vec<Ask>,
    queue_seat: u16,
}

impl Script {
    /// The events of the schedule with this number.
    pub fn new(
        alloc: Global,
        number: u64,
        is_exact: bool,
        is_wide: bool,
        has_conditions: bool,
    ) -> Script {
        Script {
            alloc,
            draws: Draws::new(number),
            is_exact,
            wider: draws_if(is_wide, number.saturating_add(SECOND)),
            conditions: draws_if(has_conditions, number.saturating_add(THIRD)),
            queue: Vec::new(alloc),
            queue_seat: 0,
        }
    }

    /// Which seat is asked next, and what.
    pub fn next(&mut self, model: &Model) -> Result<(u16, Ask), AllocError> {
        if let Some(ask) = self.queue.pop() {
            return Ok((self.queue_seat, ask));
        }
        let seat = self.drawn_seat();
        let ask = if self.is_exact {
            self.drawn_exact(model, seat)?
        } else {
            self.drawn_ask(model, seat)?
        };
        let ask = self.widened(ask);
        Ok((seat, self.conditioned(ask, model.commit())))
    }

    /// The same, or about all graphs.
    fn widened(&mut self, ask: Ask) -> Ask {
        match &mut self.wider {
            None => ask,
            Some(draws) => drawn_wider(draws, ask),
        }
    }

    /// The same, or on a condition. The last commit has this number.
    fn conditioned(&mut self, ask: Ask, commit: u64) -> Ask {
        match &mut self.conditions {
            None => ask,
            Some(draws) => drawn_on_condition(draws, ask, commit),
        }
    }

    /// A seat, at one chance of fifty one that is not there.
    fn drawn_seat(&mut self) -> u16 {
        let number = self.draws.below(usize::from(seats()));
        let seat = u16::try_from(number).unwrap_or_default();
        if self.draws.is_one_in(50) {
            return if seat == 0 {
                u16::MAX
            } else {
                seats().saturating_add(seat)
            };
        }
        seat
    }

    /// What a seat is asked in a schedule with all kinds of writes.
    fn drawn_ask(&mut self, model: &Model, seat: u16) -> Result<Ask, AllocError> {
        let made = model.made(self.alloc)?;
        if self.draws.is_one_in(14) {
            return drawn_any(self.alloc, &mut self.draws, made.as_slice());
        }
        match model.phase(seat) {
            Phase::Idle => Ok(drawn_for_idle(&mut self.draws, made.as_slice())),
            Phase::Writing(_) => drawn_for_upload(self.alloc, &mut self.draws),
            Phase::Patching(_, _) => drawn_for_patch(self.alloc, &mut self.draws),
            Phase::Reading(_) => Ok(drawn_for_read(&mut self.draws)),
        }
    }

    /// What a seat is asked where only whole graphs are written.
    fn drawn_exact(&mut self, model: &Model, seat: u16) -> Result<Ask, AllocError> {
        if seat >= seats() {
            return drawn_any(self.alloc, &mut self.draws, &[]);
        }
        match model.phase(seat) {
            Phase::Reading(_) => self.drawn_rest(),
            _ => self.drawn_whole(seat),
        }
    }

    /// What a seat with a read is asked where only whole graphs are written.
    fn drawn_rest(&mut self) -> Result<Ask, AllocError> {
        if self.draws.is_one_in(12) {
            return drawn_any(self.alloc, &mut self.draws, &[]);
        }
        if self.draws.is_one_in(12) {
            return Ok(Ask::Cancel);
        }
        Ok(Ask::Piece(drawn_count(&mut self.draws)))
    }

    /// What an idle seat is asked where only whole graphs are written.
    fn drawn_whole(&mut self, seat: u16) -> Result<Ask, AllocError> {
        let place = drawn_place(&mut self.draws);
        match self.draws.below(100) {
            0..38 => {
                self.queue_upload(seat)?;
                Ok(Ask::Open(Kind::Put(place), None))
            }
            38..50 => Ok(Ask::Delete(place, None)),
            50..54 => Ok(Ask::Head(Scope::One(place))),
            54..60 => drawn_inner(self.alloc, &mut self.draws),
            _ => Ok(Ask::Pin(Scope::One(place))),
        }
    }

    /// What follows the Open of an upload at this seat: up to three lists, and its end.
    fn queue_upload(&mut self, seat: u16) -> Result<(), AllocError> {
        self.queue_seat = seat;
        let end = if self.draws.is_one_in(7) {
            Ask::Cancel
        } else {
            Ask::Commit
        };
        self.push(end)?;
        for _ in 0..self.draws.below(4) {
            let list = drawn_list(self.alloc, &mut self.draws, 8)?;
            self.push(Ask::Stage(list))?;
        }
        Ok(())
    }

    fn push(&mut self, ask: Ask) -> Result<(), AllocError> {
        self.queue.push(ask).map_err(AllocError::from)
    }
}
