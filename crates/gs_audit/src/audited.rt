//! A store with its page.
ghost use Rattle.std.specs.Prelude.{◌≡◌, replicate, IfOk};
ghost use Rattle.std.specs.Coded.{Coded-set, coded_list};
ghost use Rattle.gs_event.specs.Codes.{seat_code};
ghost use Rattle.gs_chronicle.specs.Views.{page_of};
ghost use Rattle.gs_audit.specs.Decisions.{ReplaysTo};
ghost use Rattle.gs_audit.specs.Takes.{FollowSeats};

use crate::forms::{Form, count_of};
use crate::slots::Slot;
use crate::takes::take;
use gs_chronicle::Page;
use gs_core::Store;
use gs_event::{Answer, Event};
use gs_model::Refusal;
use std::alloc::{AllocError, Global};

/// A store, what its seats have open, and a page of the calls that it decided.
#[derive(Drop)]
pub struct Audited<const ENTRIES: usize, const TRIPLES: usize> {
    alloc: Global,
    store: Store,
    slots: Vec<Slot>,
    chronicle: Page<ENTRIES, TRIPLES>,
    ghost agrees: { FollowSeats store slots.items } by { Coded-set (coded_list seat_code) _ _ },
    ghost replays: { ∥ ReplaysTo store.view (page_of chronicle) ∥₁ },
}

impl<const ENTRIES: usize, const TRIPLES: usize> Audited<ENTRIES, TRIPLES> {
    ghost use Rattle.std.specs.Prelude.{◌≡◌, ◌<◌, ◌≤◌, [], true, replicate, IfOk, IfErr, IfSome};
    ghost use Rattle.gs_model.specs.Bases.{is_base};
    ghost use Rattle.gs_model.specs.Limits.{max_seats};
    ghost use Rattle.gs_event.specs.Births.{no_births};
    ghost use Rattle.gs_event.specs.Histories.{ShowsStart, HasStartPins};
    ghost use Rattle.gs_event.specs.Steps.{Steps};
    ghost use Rattle.gs_core.specs.Settings.{start_at};
    ghost use Rattle.gs_chronicle.specs.Pages.{fresh_page};
    ghost use Rattle.gs_chronicle.specs.Views.{page_of};
    ghost use Rattle.gs_audit.specs.Staged.{staged_after};
    ghost use Rattle.gs_audit.specs.Forms.{IsFormOf, counts};
    ghost use Rattle.gs_audit.specs.Decisions.{page_by, ReplaysTo};
    ghost use Rattle.gs_audit.specs.Audits.{audited_store, audited_page, staged_of, decided_on};

    /// A new store with this base, for so many seats, 1 to 512, and page 0, without entries.
    /// `gs_core::is_base` tests a base.
    ///
    /// # Errors
    ///
    /// `NoMemory`.
    pub fn new(alloc: Global, seats: u16, base: &str) -> Result<Audited<ENTRIES, TRIPLES>, Refusal>
        requires entries { 0 < ENTRIES }
        requires some { 1 ≤ seats }
        requires few { seats ≤ max_seats }
        requires base { is_base base.now ≡ true }
        ensures view { IfOk result (λ a. ShowsStart (start_at seats base.now 0 0) (audited_store a)) }
        ensures pinned { IfOk result (λ a. HasStartPins (start_at seats base.now 0 0) (audited_store a)) }
        ensures waste { IfOk result (λ a. (audited_store a).waste ≡ []) }
        ensures births { IfOk result (λ a. (audited_store a).births ≡ no_births seats) }
        ensures page { IfOk result (λ a. page_of (audited_page a) ≡ fresh_page) }
        ensures staged { IfOk result (λ a. staged_of a ≡ replicate seats 0) }
        ensures refused { IfErr result (λ refusal. refusal ≡ Refusal.NoMemory) }
    {
        Audited::seeded(alloc, seats, base, 0)
    }

    /// The same, over a store whose terms are spread by a seed (`gs_core::Store::seeded`).
    ///
    /// # Errors
    ///
    /// `NoMemory`.
    pub fn seeded(
        alloc: Global,
        seats: u16,
        base: &str,
        seed: u64,
    ) -> Result<Audited<ENTRIES, TRIPLES>, Refusal>
        requires entries { 0 < ENTRIES }
        requires some { 1 ≤ seats }
        requires few { seats ≤ max_seats }
        requires base { is_base base.now ≡ true }
        ensures view { IfOk result (λ a. ShowsStart (start_at seats base.now 0 0) (audited_store a)) }
        ensures pinned { IfOk result (λ a. HasStartPins (start_at seats base.now 0 0) (audited_store a)) }
        ensures waste { IfOk result (λ a. (audited_store a).waste ≡ []) }
        ensures births { IfOk result (λ a. (audited_store a).births ≡ no_births seats) }
        ensures page { IfOk result (λ a. page_of (audited_page a) ≡ fresh_page) }
        ensures staged { IfOk result (λ a. staged_of a ≡ replicate seats 0) }
        ensures refused { IfErr result (λ refusal. refusal ≡ Refusal.NoMemory) }
    {
        let store = Store::seeded(alloc, seats, base, seed)?;
        let chronicle = Page::new(alloc)?;
        let Ok(slots) = empty_slots(alloc, seats) else {
            return Err(Refusal::NoMemory);
        };
        Ok(Audited {
            alloc,
            store,
            slots,
            chronicle,
        })
    }

    /// Takes one event: one step of the store. What the event decided stands in the page then. It makes all
    /// its own room first, and where that is refused the answer is want of memory, and nothing changed.
    pub fn event(&mut self, mut event: Event) -> Answer
        ensures steps { Steps (audited_store self.old) event result (audited_store self.new) }
        ensures page { page_of (audited_page self.new)
            ≡ page_by ENTRIES TRIPLES (page_of (audited_page self.old)) (decided_on self.old event result) }
        ensures staged { staged_of self.new ≡ staged_after (staged_of self.old) event result }
    {
        let count = count_of(&event);
        self.event_with(&mut event, None, count)
    }

    /// The same, with the form of what the event brings, if that was made before, and with as how many
    /// triples that counts. What the page stores is taken out of the event. A list that goes to an open upload
    /// stays there, and so do the triples of an open patch that have a form, so that whoever has the event
    /// frees them.
    pub fn event_with(&mut self, event: &mut Event, form: Option<Form>, count: usize) -> Answer
        requires form { IfSome form (IsFormOf event.old) }
        requires count { count ≡ counts event.old }
        ensures steps { Steps (audited_store self.old) event.old result (audited_store self.new) }
        ensures page { page_of (audited_page self.new)
            ≡ page_by ENTRIES TRIPLES (page_of (audited_page self.old))
            (decided_on self.old event.old result) }
        ensures staged { staged_of self.new ≡ staged_after (staged_of self.old) event.old result }
    {
        let Audited {
            alloc,
            store,
            slots,
            chronicle,
        } = self;
        take(*alloc, store, slots, chronicle, event, form, count)
    }

    /// The page. It replays to the dataset, the commit number and the last writes that the store shows.
    pub fn page(&self) -> &Page<ENTRIES, TRIPLES>
        ensures value { result.now ≡ audited_page self.now }
        ensures replays { ∥ ReplaysTo (audited_store self.now).view (page_of result.now) ∥₁ }
    {
        &self.chronicle
    }
}

/// An empty slot for each seat.
fn empty_slots(alloc: Global, seats: u16) -> Result<Vec<Slot>, AllocError>
    ensures { IfOk result (λ v. v.items ≡ replicate seats Slot.Empty) }
{
    let mut slots = Vec::with_capacity(alloc, usize::from(seats))?;
    for _ in 0..seats {
        slots.push(Slot::Empty)?;
    }
    Ok(slots)
}
