//! One event on a store, on what its seats have open, and on a page.
ghost use Rattle.std.specs.Prelude.{◌≡◌, IfSome};
ghost use Rattle.gs_chronicle.specs.Views.{page_of};
ghost use Rattle.gs_audit.specs.Decisions.{page_by};
ghost use Rattle.gs_audit.specs.Forms.{IsFormOf, counts};
ghost use Rattle.gs_audit.specs.Slots.{slot_phase, slot_count, CanTake};
ghost use Rattle.gs_audit.specs.Takes.{StepsOrLacks, FollowSeats, TakesEvent, kept_phase, kept_count, kept_call};

use crate::forms::Form;
use crate::slots::Slot;
use gs_chronicle::Page;
use gs_core::Store;
use gs_event::{Answer, Event};
use gs_model::Refusal;
use std::alloc::Global;

/// Takes an event, with the form of what it brings, if there is one. That counts as so many triples.
pub fn take<const ENTRIES: usize, const TRIPLES: usize>(
    alloc: Global,
    store: &mut Store,
    slots: &mut Vec<Slot>,
    page: &mut Page<ENTRIES, TRIPLES>,
    event: &mut Event,
    form: Option<Form>,
    count: usize,
) -> Answer
    requires seats { FollowSeats store.old slots.old.items }
    requires form { IfSome form (IsFormOf event.old) }
    requires count { count ≡ counts event.old }
    ensures { TakesEvent ENTRIES TRIPLES store.old slots.old.items (page_of page.old) event.old
        result store.new slots.new.items (page_of page.new) }
{
    let Event::Seat(seat, _) = &*event else {
        return store.step(event);
    };
    match slots.get_mut(*seat as usize) {
        Some(slot) => take_at(alloc, store, slot, page, event, form, count),
        None => store.step(event),
    }
}

/// Takes an event of the seat that has this slot.
fn take_at<const ENTRIES: usize, const TRIPLES: usize>(
    alloc: Global,
    store: &mut Store,
    slot: &mut Slot,
    page: &mut Page<ENTRIES, TRIPLES>,
    event: &mut Event,
    form: Option<Form>,
    count: usize,
) -> Answer
    requires form { IfSome form (IsFormOf event.old) }
    requires count { count ≡ counts event.old }
    ensures steps { StepsOrLacks store.old (slot_phase slot.old) event.old result store.new }
    ensures phase { slot_phase slot.new ≡ kept_phase (slot_phase slot.old) event.old result }
    ensures count { slot_count slot.new
        ≡ kept_count (slot_phase slot.old) (slot_count slot.old) event.old result }
    ensures page { page_of page.new ≡ page_by ENTRIES TRIPLES (page_of page.old)
        (kept_call (slot_phase slot.old) (slot_count slot.old) event.old result) }
{
    if !slot.make_room(event, form, count) {
        return Answer::Refused(Refusal::NoMemory);
    }
    let answer = store.step(event);
    note(alloc, slot, page, event, &answer);
    answer
}

/// Takes note of an answer, and stores what the event decided.
fn note<const ENTRIES: usize, const TRIPLES: usize>(
    alloc: Global,
    slot: &mut Slot,
    page: &mut Page<ENTRIES, TRIPLES>,
    event: &mut Event,
    answer: &Answer,
)
    requires { CanTake slot.old event.old }
    ensures phase { slot_phase slot.new ≡ kept_phase (slot_phase slot.old) event.old answer.now }
    ensures count { slot_count slot.new
        ≡ kept_count (slot_phase slot.old) (slot_count slot.old) event.old answer.now }
    ensures page { page_of page.new ≡ page_by ENTRIES TRIPLES (page_of page.old)
        (kept_call (slot_phase slot.old) (slot_count slot.old) event.old answer.now) }
{
    let Event::Seat(seat, action) = event else {
        return;
    };
    if let Some((request, status)) = slot.note(alloc, action, answer) {
        page.add(*seat, request, status);
    }
}
