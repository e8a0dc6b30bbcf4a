//! The lock, which threads share.
ghost use Rattle.std.specs.Prelude.{◌≡◌};
ghost use Rattle.gs_door.specs.Kinds.{IsOfKind};
ghost use Rattle.gs_pass.specs.Passes.{record_of};
ghost use Rattle.gs_shared.specs.Tells.{is_of_another as is_of_another_seat, Tells};

use crate::asked::EventAsk;
use crate::locked::Locked;
use gs_audit::Form;
use gs_event::{Answer, Event};
use gs_model::Refusal;
use gs_pass::{Pass, Room, StampCell};
use std::alloc::Global;
use std::sync::ledger::Ledger;
use std::sync::{Mutex, Wait};

/// One Mutex over a store with its page, beside the cell of its passes and the store's seed. Threads share it
/// by reference.
#[derive(Drop)]
pub struct SharedStore<C: Ledger, T: Ledger, B: Room> {
    pub(crate) cell: StampCell,
    pub(crate) lock: Mutex<Locked<C, T, B>>,
    pub(crate) alloc: Global,
    pub(crate) seed: u64,
    ghost table: { cell.table.shared.table_id ≡ B.table },
}

impl<C: Ledger, T: Ledger, B: Room> SharedStore<C, T, B> {
    /// Takes one event, in one hold of the Mutex, and tells the pass. An action of another seat than
    /// the pass's is refused with `BadSeat`, and nothing else is.
    pub fn event<R: Wait>(&self, rt: &R, pass: &mut Pass<C, T, B>, mut event: Event) -> Answer
        ensures told { Tells event result (record_of pass.old) (record_of pass.new) }
        ensures kind { IsOfKind event result }
    {
        if is_of_another(&event, pass.seat()) {
            return Answer::Refused(Refusal::BadSeat);
        }
        let asked = EventAsk::by(&event);
        let form = Form::of(self.alloc, &event);
        let answer = self
            .lock
            .lock(rt)
            .event(rt, &self.cell, pass, &mut event, asked, form);
        // What was staged, and the triples of a patch, are freed here, after the lock.
        drop(event);
        answer
    }
}

/// Whether the event is an action of another seat than this one.
fn is_of_another(event: &Event, seat: u16) -> bool
    ensures { result ≡ is_of_another_seat seat event.now }
{
    match event {
        Event::Seat(other, _) => *other != seat,
        Event::Reclaim(_) => false,
    }
}
