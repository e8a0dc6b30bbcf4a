//! Pages of history.
ghost use Rattle.std.specs.Prelude.{◌≡◌, ◌<◌, ◌≤◌, length};
ghost use Rattle.gs_chronicle.specs.Pages.{stored_in, AreNumbered};
ghost use Rattle.gs_chronicle.specs.PageEntries.{own_entries, entry_room};
ghost use Rattle.gs_chronicle.specs.Rows.{rows_of};

use crate::entries::Entry;
use crate::page_entries::PageEntries;
use crate::requests::Request;
use gs_model::Refusal;
use gs_small_triples::FormBlocks;
use std::alloc::Global;

/// After so many calls the spare blocks into which nothing was moved are given back. Those of more calls
/// would take long to give back at once.
const SPARE_CALLS: usize = 1_024;

/// Gives spare blocks back before the first call of a page, and again after each so many.
fn clear_spare(spare: &mut FormBlocks, before: usize) {
    if before % SPARE_CALLS == 0 {
        spare.clear();
    }
}

/// The last calls that a store decided: at most `ENTRIES` of them, which count as at most `TRIPLES` triples
/// in all, as `specs/Sizes` says. They are numbered from 0, and pages are numbered from 0 too.
#[derive(Debug, Drop)]
pub struct Page<const ENTRIES: usize, const TRIPLES: usize> {
    number: u64,
    entries: PageEntries,
    /// As how many triples the entries count, with repeats.
    stored: usize,
    /// Blocks of former entries.
    spare: FormBlocks,
    ghost some: { 0 < ENTRIES },
    ghost few: { length (own_entries entries) ≤ ENTRIES },
    ghost room: { ENTRIES ≤ entry_room entries },
    ghost counted: { stored ≡ stored_in (rows_of (own_entries entries)) },
    ghost small: { stored ≤ TRIPLES },
    ghost numbered: { AreNumbered (rows_of (own_entries entries)) },
}

impl<const ENTRIES: usize, const TRIPLES: usize> Page<ENTRIES, TRIPLES> {
    ghost use Rattle.std.specs.Prelude.{◌≡◌, ◌+◌, ◌<◌, ◌≤◌, length, IfOk, IfErr, Some};
    ghost use Rattle.gs_chronicle.specs.Requests.{request_size, call_of};
    ghost use Rattle.gs_chronicle.specs.Pages.{stored_in, AreNumbered, fresh_page, turned, with_row, page_after};
    ghost use Rattle.gs_chronicle.specs.PageEntries.{own_entries};
    ghost use Rattle.gs_chronicle.specs.Rows.{rows_of};
    ghost use Rattle.gs_chronicle.specs.Views.{page_of};

    /// Page 0, without entries. Room for all entries is reserved here.
    ///
    /// # Errors
    ///
    /// `NoMemory`.
    pub fn new(alloc: Global) -> Result<Page<ENTRIES, TRIPLES>, Refusal>
        requires { 0 < ENTRIES }
        ensures fresh { IfOk result (λ p. page_of p ≡ fresh_page) }
        ensures refused { IfErr result (λ refusal. refusal ≡ Refusal.NoMemory) }
    {
        let Ok(entries) = PageEntries::with_room(alloc, ENTRIES) else {
            return Err(Refusal::NoMemory);
        };
        Ok(Page {
            number: 0,
            entries,
            stored: 0,
            spare: FormBlocks::new(alloc),
        })
    }

    /// The number of the page: how often one was turned, or 2^64 - 1 where it was more often.
    pub fn number(&self) -> u64
        ensures { result ≡ (page_of self.now).number }
    {
        self.number
    }

    /// The entries, the oldest first.
    pub fn entries(&self) -> &[Entry]
        ensures rows { rows_of result.now ≡ (page_of self.now).rows }
        ensures numbered { AreNumbered (rows_of result.now) }
        ensures few { length result.now ≤ ENTRIES }
        ensures small { stored_in (rows_of result.now) ≤ TRIPLES }
    {
        self.entries.as_slice()
    }

    /// Clears the page, which gets the next number. Its entries are former ones then, and are taken apart by
    /// the calls that come.
    pub fn turn_page(&mut self)
        ensures { page_of self.new ≡ turned (page_of self.old) }
    {
        self.entries.turn();
        self.stored = 0;
        self.number = self.number.saturating_add(1);
    }

    /// Stores a call that was decided. Where the page has no room for it, it is turned first; a call that
    /// counts as more triples than a page holds is not stored, and turns the page. A former entry gives its
    /// place, and more are taken apart until all that are there count as no more triples than a page may
    /// have. Takes no memory, but for the list of spare blocks. What a short upload or patch brought is copied
    /// into these.
    pub fn add(&mut self, seat: u16, mut request: Request, status: u16)
        ensures { page_of self.new
            ≡ page_after ENTRIES TRIPLES (page_of self.old) (call_of seat request status) }
    {
        let triples = request.triples();
        if triples > TRIPLES {
            self.turn_page();
            return;
        }
        if self.entries.len() >= ENTRIES || triples > TRIPLES - self.stored {
            self.turn_page();
        }
        clear_spare(&mut self.spare, self.entries.len());
        self.entries.take_apart(triples, TRIPLES, &mut self.spare);
        request.move_into(&mut self.spare);
        self.push(seat, request, status, triples);
    }

    /// Stores a call of so many triples, for which there is room.
    fn push(&mut self, seat: u16, request: Request, status: u16, triples: usize)
        requires room { length (rows_of (own_entries self.old.entries)) < ENTRIES }
        requires size { triples ≡ request_size request }
        requires fits { self.old.stored + triples ≤ TRIPLES }
        ensures { page_of self.new ≡ with_row (page_of self.old) (call_of seat request status) }
    {
        let number = self.entries.len() as u64;
        let entry = Entry::new(number, seat, request, status);
        self.entries.push(entry, &mut self.spare);
        self.stored += triples;
    }
}
