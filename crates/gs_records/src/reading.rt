//! Records in the order of their graphs, as a version of the dataset has them.
ghost use Rattle.std.specs.Prelude.{◌≡◌, ◌+◌, ◌&&◌, ◌<◌, ◌≤◌, true, IfOk, IfErr, IfSome};
ghost use Rattle.std.specs.List.{filter};
ghost use Rattle.gs_model.specs.Limits.{last_node};
ghost use Rattle.gs_index.specs.Indexes.{is_listed};
ghost use Rattle.gs_records.specs.Records.{kept, record_at, is_kept, outlives as outlives_death, has_at as has_entry_at};
ghost use Rattle.gs_catalogue.specs.Catalogues.{name_count, triple_count};
ghost use Rattle.gs_records.specs.Graphs.{current};
ghost use Rattle.gs_records.specs.Waste.{is_opened, used_count};
ghost use Rattle.gs_records.specs.Uses.{AreUsed};
ghost use Rattle.gs_records.specs.Kept.{AreSingle, AreDated};
ghost use Rattle.gs_records.specs.Versions.{AreVersions};
ghost use Rattle.gs_records.specs.Order.{has_number, AreListed, search_goes_on};
ghost use Rattle.gs_records.specs.Laws.{piece_after};
ghost use Rattle.gs_records.specs.Stored.{is_made as is_made_entry};

use crate::records::Records;
use gs_index::Entry;
use gs_model::Refusal;
use std::alloc::Global;

/// Whether what died so is in a version still.
fn outlives(version: u64, death: Option<u64>) -> bool
    ensures { result ≡ outlives_death version death }
{
    match death {
        None => true,
        Some(death) => version < death,
    }
}

/// Whether a version has what an entry is of.
fn has_at(version: u64, entry: &Entry) -> bool
    ensures { result ≡ has_entry_at version entry.now }
{
    entry.birth <= version && outlives(version, entry.death)
}

/// Whether an entry is that of a record, and a version has it.
fn has_made(version: u64, entry: &Entry) -> bool
    ensures { result ≡ (is_made_entry entry.now && has_entry_at version entry.now) }
{
    0 < entry.birth && has_at(version, entry)
}

/// The last of these numbers, of which as many were asked for.
fn last_if_many(numbers: &[u32], most: usize) -> Option<u32>
    ensures { result ≡ search_goes_on most numbers.now }
{
    if numbers.len() < most {
        return None;
    }
    numbers.last().copied()
}

impl Records {
    /// The number of the last commit. It says what is true of all records, and of the listed numbers.
    pub fn latest(&self) -> u64
        ensures value { result ≡ self.now.latest }
        ensures single { AreSingle self.now.records }
        ensures dated { AreDated self.now.latest self.now.records }
        ensures versions { AreVersions self.now.records }
        ensures listed { AreListed self.now.records self.now.listed }
    {
        // The length says of the listed numbers that they are in order.
        let _all = self.index.len();
        self.latest
    }

    /// How many graphs with names there are now. It is kept, and not counted.
    pub fn names(&self) -> usize
        ensures { result ≡ name_count (current self.now.records) }
    {
        self.names
    }

    /// How many triples all graphs of now have, the default graph too, by the count of each version. It is
    /// kept, and not summed up.
    pub fn triples(&self) -> u128
        ensures { result ≡ triple_count (current self.now.records) }
    {
        self.triples
    }

    /// How many numbers are in use: those of the current records, of open ones, and of records that ended
    /// or were given up.
    pub fn in_use(&self) -> u64
        ensures value { result ≡ used_count self.now.records }
        ensures parts { AreUsed self.now.records }
        ensures few { result ≤ last_node + 1 }
    {
        self.pool.nodes_in_use()
    }

    /// Whether the record of a number is open.
    pub fn is_open(&self, number: u32) -> bool
        ensures { result ≡ is_opened (record_at self.now.records number) }
    {
        !self.index.is_listed(number) && self.pool.is_plain(number)
    }

    /// Whether a number stands for a version of a graph, and so is listed.
    pub fn is_record(&self, number: u32) -> bool
        ensures record { result ≡ is_kept (record_at self.now.records number) }
        ensures listed { result ≡ is_listed number self.now.listed }
    {
        self.index.is_listed(number)
    }

    /// The record of a number.
    pub fn record(&self, number: u32) -> &Entry
        requires { is_kept (record_at self.now.records number) ≡ true }
        ensures { record_at self.now.records number ≡ kept result.now }
    {
        self.index.entry(number)
    }

    /// Whether a version of the dataset has the record of a number.
    pub fn has(&self, version: u64, number: u32) -> bool
        ensures { result ≡ has_number version self.now.records number }
    {
        if self.index.len() <= number as usize {
            return false;
        }
        has_made(version, self.index.entry(number))
    }

    /// Of the next `most` numbers after `from`, in the order of their graphs, those that a version of the
    /// dataset has, and the number after which to go on: `None` says that no number is left. That number
    /// is for the same hold of the store, as the version may not have it: once it is free it may be
    /// another graph's. A reader that waits for other events goes on after a number that its pinned
    /// version has.
    pub fn next_at(
        &self,
        alloc: Global,
        version: u64,
        from: Option<u32>,
        most: usize,
    ) -> Result<(Vec<u32>, Option<u32>), Refusal>
        requires some { 0 < most }
        requires from { IfSome from (λ n. is_listed n self.now.listed ≡ true) }
        ensures numbers { IfOk result (λ p. p.0.items
            ≡ filter (has_number version self.now.records) (piece_after most from self.now.listed)) }
        ensures rest { IfOk result (λ p. p.1 ≡ search_goes_on most (piece_after most from self.now.listed)) }
        ensures refused { IfErr result (λ e. e ≡ Refusal.NoMemory) }
        ensures listed { AreListed self.now.records self.now.listed }
    {
        // The length says of the listed numbers that they are in order.
        let _all = self.index.len();
        let numbers = self.index.next(alloc, from, most)?;
        let on = last_if_many(&numbers, most);
        let had = self.had_of(alloc, version, &numbers)?;
        Ok((had, on))
    }

    // Those of some numbers that a version has.
    fn had_of(&self, alloc: Global, version: u64, numbers: &[u32]) -> Result<Vec<u32>, Refusal>
        ensures ok { IfOk result (λ had. had.items
            ≡ filter (has_number version self.now.records) numbers.now) }
        ensures refused { IfErr result (λ e. e ≡ Refusal.NoMemory) }
    {
        let mut had = Vec::new(alloc);
        for number in numbers {
            if self.has(version, *number) {
                had.push(*number)?;
            }
        }
        Ok(had)
    }
}
