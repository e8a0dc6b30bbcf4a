//! The entries of a page, and those of the pages before that are still there.
ghost use Rattle.std.specs.Prelude.{◌≡◌, ◌≤◌, vec_len};

use crate::entries::Entry;
use gs_small_triples::FormBlocks;
use std::alloc::{AllocError, Global};
use std::mem;

/// The entries of a page, the oldest first. After them stand former ones, of the pages before, that nobody took
/// out yet: a page that is turned moves none.
#[derive(Debug, Drop)]
pub struct PageEntries {
    all: Vec<Entry>,
    /// How many of them are those of the page.
    count: usize,
    /// As how many triples all of them count.
    held: usize,
    ghost there: { count ≤ vec_len all },
}

impl PageEntries {
    ghost use Rattle.std.specs.Prelude.{◌≡◌, ◌<◌, ◌≤◌, [], ◌∷◌, ◌++◌, length, IfOk, IfSome};
    ghost use Rattle.gs_chronicle.specs.PageEntries.{own_entries, entry_room, entries_there};

    /// No entries, with room for so many.
    pub fn with_room(alloc: Global, room: usize) -> Result<PageEntries, AllocError>
        ensures own { IfOk result (λ e. own_entries e ≡ []) }
        ensures room { IfOk result (λ e. room ≤ entry_room e) }
    {
        let all = Vec::with_capacity(alloc, room)?;
        Ok(PageEntries {
            all,
            count: 0,
            held: 0,
        })
    }

    /// How many entries the page has.
    pub fn len(&self) -> usize
        ensures { result ≡ length (own_entries self.now) }
    {
        self.count
    }

    /// The entries of the page.
    pub fn as_slice(&self) -> &[Entry]
        ensures { result.now ≡ own_entries self.now }
    {
        &self.all[..self.count]
    }

    /// Whether all entries would count as more than so many triples once there is one more that counts as
    /// `triples`, in the place of a former one, if there is one left.
    fn would_exceed(&self, triples: usize, most: usize) -> bool {
        let replaced = match self.all.get(self.count) {
            Some(former) => former.triples(),
            None => 0,
        };
        let kept = self.held.saturating_sub(replaced);
        kept.saturating_add(triples) > most
    }

    /// Adds an entry to the page, in the place of a former one, if there is one left, which leaves its blocks.
    pub fn push(&mut self, entry: Entry, blocks: &mut FormBlocks)
        requires { length (own_entries self.old) < entry_room self.old }
        ensures own { own_entries self.new ≡ own_entries self.old ++ entry ∷ [] }
        ensures room { entry_room self.new ≡ entry_room self.old }
    {
        let place = self.count;
        self.held = self.held.saturating_add(entry.triples());
        if place < self.all.len() {
            let former = mem::replace(&mut self.all[place], entry);
            self.held = self.held.saturating_sub(former.triples());
            former.leave_to(blocks);
        } else {
            self.all.push_reserved(entry);
        }
        self.count += 1;
    }

    /// Takes a former entry out, if there is one.
    fn pop_former(&mut self) -> Option<Entry>
        ensures own { own_entries self.new ≡ own_entries self.old }
        ensures room { entry_room self.new ≡ entry_room self.old }
        ensures fewer { IfSome result (λ _. entries_there self.new < entries_there self.old) }
    {
        if self.all.len() <= self.count {
            return None;
        }
        let former = self.all.pop()?;
        self.held = self.held.saturating_sub(former.triples());
        Some(former)
    }

    /// Takes former entries apart, and leaves their blocks, until one more entry that counts as `triples`
    /// may come, and all count as `most` then, or no former one is left.
    pub fn take_apart(&mut self, triples: usize, most: usize, blocks: &mut FormBlocks)
        ensures own { own_entries self.new ≡ own_entries self.old }
        ensures room { entry_room self.new ≡ entry_room self.old }
    {
        'former: while self.would_exceed(triples, most) {
            let Some(former) = self.pop_former() else {
                return;
            };
            former.leave_to(blocks);
        }
    }

    /// Makes a former entry of each.
    pub fn turn(&mut self)
        ensures own { own_entries self.new ≡ [] }
        ensures room { entry_room self.new ≡ entry_room self.old }
    {
        self.count = 0;
    }
}
