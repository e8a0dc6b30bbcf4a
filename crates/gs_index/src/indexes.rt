//! The index: entries by number, and the set of the listed numbers.
ghost use Rattle.std.specs.Prelude.{◌≡◌, ◌+◌, ◌<◌, ◌≤◌, [], ◌∷◌, ◌++◌, length, take, slice_set, true, false, IsOk, IfOk, IfErr, IfSome, OnOk, OnErr};
ghost use Rattle.gs_index.specs.Ages.{blank_entry};
ghost use Rattle.gs_index.specs.Indexes.{entry_at, with_death, is_listed, with_number, without_number, numbers_after, youngest_by, IsIndexed};

use crate::ages::is_same;
use crate::entries::Entry;
use crate::sets::{has, keys_after, numbers_of, put, seek, take};
use gs_model::{LAST_NODE, Refusal};
use gs_pool::Pool;
use gs_term::Target;
use std::alloc::Global;
use std::marker::Model;
use std::mem;

/// Entries, each under a number, and a set of these numbers: those that are listed, in the order of the
/// graphs that their entries are of, and of one graph the youngest first. The set is a tree over a pool
/// of its own, whose nodes are written in place, so a listed number costs a node of 32 bytes. Of n listed
/// numbers a change or a search compares O(log n).
#[derive(Drop)]
pub struct Index {
    entries: Vec<Entry>,
    pool: Pool,
    root: Option<u32>,
}

impl Model for Index {
    ghost use Rattle.gs_index.specs.Indexes.{Indexed};

    ghost Value = { Indexed };

    ghost use Rattle.gs_pool.specs.Pool.{room};
    ghost use Rattle.gs_index.specs.Kept.{numbers_at, IsKept};

    ghost view = { λ x. record {
      entries = x.entries.items;
      listed = numbers_at x.pool x.root;
      spare = room x.pool;
    } };

    ghost invariant = { λ x. IsKept x.entries.items x.pool x.root };
}

impl Index {
    /// No entries. Takes no memory.
    pub fn new(alloc: Global) -> Index
        ensures { result ≡ record { entries = []; listed = []; spare = 0 } }
    {
        Index {
            entries: Vec::new(alloc),
            pool: Pool::new(alloc, u32::MAX),
            root: None,
        }
    }

    /// How many entries there are, listed or not. Their numbers begin at 0.
    pub fn len(&self) -> usize
        ensures value { result ≡ length self.now.entries }
        ensures indexed { IsIndexed self.now }
    {
        self.entries.len()
    }

    /// The entry of a number.
    pub fn entry(&self, number: u32) -> &Entry
        requires { number < length self.now.entries }
        ensures { result.now ≡ entry_at self.now.entries number }
    {
        &self.entries[number as usize]
    }

    /// A blank entry more, under the next number, which is not listed. That no number is left counts
    /// as want of memory.
    pub fn push(&mut self) -> Result<(), Refusal>
        ensures ok { OnOk result (self.new.entries ≡ self.old.entries ++ blank_entry ∷ []) }
        ensures refused { IfErr result (λ e. e ≡ Refusal.NoMemory) }
        ensures kept { OnErr result (self.new ≡ self.old) }
        ensures listed { self.new.listed ≡ self.old.listed }
        ensures spare { self.new.spare ≡ self.old.spare }
    {
        if self.entries.len() as u64 > LAST_NODE {
            return Err(Refusal::NoMemory);
        }
        Ok(self.entries.push(Entry::blank())?)
    }

    /// Makes room for so many numbers more to be listed. Where there is room already, nothing changes.
    pub fn reserve(&mut self, more: usize) -> Result<(), Refusal>
        ensures ok { OnOk result (more ≤ self.new.spare) }
        ensures had_room { more ≤ self.old.spare → IsOk result × (self.new ≡ self.old) }
        ensures refused { IfErr result (λ e. e ≡ Refusal.NoMemory) }
        ensures kept { OnErr result (self.new ≡ self.old) }
        ensures entries { self.new.entries ≡ self.old.entries }
        ensures listed { self.new.listed ≡ self.old.listed }
        ensures spare { self.old.spare ≤ self.new.spare }
    {
        Ok(self.pool.reserve(more)?)
    }

    /// Whether a number is listed.
    pub fn is_listed(&self, number: u32) -> bool
        ensures { result ≡ is_listed number self.now.listed }
    {
        has(&self.pool, &self.entries, self.root, number)
    }

    /// Gives a number that is not listed this entry, and lists it. Takes no memory: there is room for
    /// one more.
    pub fn list(&mut self, number: u32, entry: Entry)
        requires within { number < length self.old.entries }
        requires unlisted { is_listed number self.old.listed ≡ false }
        requires room { 0 < self.old.spare }
        ensures entries { self.new.entries ≡ slice_set self.old.entries number entry }
        ensures listed { self.new.listed ≡ with_number self.new.entries number self.old.listed }
        ensures spare { self.old.spare ≤ self.new.spare + 1 }
    {
        drop(mem::replace(&mut self.entries[number as usize], entry));
        self.root = put(&mut self.pool, &self.entries, self.root, number);
    }

    /// Writes down that a number's entry died at this commit. It stays where it is.
    pub fn end(&mut self, number: u32, death: u64)
        requires { number < length self.old.entries }
        ensures entries { self.new.entries
            ≡ slice_set self.old.entries number (with_death (entry_at self.old.entries number) death) }
        ensures listed { self.new.listed ≡ self.old.listed }
        ensures spare { self.new.spare ≡ self.old.spare }
    {
        self.entries[number as usize].death = Some(death);
    }

    /// Takes a number off the list. Its entry is blank again, so the bytes of its name are given back.
    /// Takes no memory, and leaves the room of one more.
    pub fn unlist(&mut self, number: u32)
        requires { is_listed number self.old.listed ≡ true }
        ensures entries { self.new.entries ≡ slice_set self.old.entries number blank_entry }
        ensures listed { self.new.listed ≡ without_number number self.old.listed }
        ensures spare { self.old.spare + 1 ≤ self.new.spare }
    {
        self.root = take(&mut self.pool, &self.entries, self.root, number);
        drop(mem::replace(&mut self.entries[number as usize], Entry::blank()));
    }

    /// The youngest listed entry of a target, of those made by the commit `version` or an earlier one,
    /// whether it has died or not.
    pub fn find(&self, target: &Target, version: u64) -> Option<u32>
        ensures value { result ≡ youngest_by self.now target.now version }
        ensures within { IfSome result (λ n. n < length self.now.entries) }
    {
        let number = seek(&self.pool, &self.entries, self.root, target, version)?;
        if is_same(target, &self.entries[number as usize].target) {
            Some(number)
        } else {
            None
        }
    }

    /// The listed numbers after `from`, or from the first one on, in order, and `most` of them at most.
    pub fn next(&self, alloc: Global, from: Option<u32>, most: usize) -> Result<Vec<u32>, Refusal>
        requires { IfSome from (λ n. is_listed n self.now.listed ≡ true) }
        ensures ok { IfOk result (λ ns. ns.items ≡ take most (numbers_after from self.now.listed)) }
        ensures refused { IfErr result (λ e. e ≡ Refusal.NoMemory) }
    {
        let keys = keys_after(alloc, &self.pool, &self.entries, self.root, from, most)?;
        Ok(numbers_of(alloc, keys.as_slice())?)
    }
}
