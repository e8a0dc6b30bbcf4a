//! What a pass was told.
ghost use Rattle.std.specs.Prelude.{◌≡◌, ◌≤◌, vec_capacity};
ghost use Rattle.gs_pass.specs.Tallies.{seat_in, tally_of, Enters};

use crate::receipts::{MAX_RECEIPTS, Receipt};

/// What a pass was told. `StampLog::close` makes it of the pass.
#[derive(Debug, Drop)]
pub struct Record {
    pub(crate) seat: u16,
    pub(crate) receipts: Vec<Receipt>,
    pub(crate) calls: u64,
    pub(crate) triples: u64,
}

impl Record {
    /// The seat.
    pub fn seat(&self) -> u16
        ensures value { result ≡ seat_in self.now }
    {
        self.seat
    }

    /// Receipts of the first 4,096 deciding calls that were not refused, the oldest first.
    pub fn receipts(&self) -> &[Receipt]
        ensures value { result.now ≡ (tally_of self.now).receipts }
    {
        self.receipts.as_slice()
    }

    /// How many deciding calls were not refused. The count stops at 2^64 - 1.
    pub fn calls(&self) -> u64
        ensures value { result ≡ (tally_of self.now).calls }
    {
        self.calls
    }

    /// As how many triples a page counts what the stages and patches brought that were not refused, with
    /// repeats (`gs_chronicle::list_size`, `ops_size`). The count stops at 2^64 - 1.
    pub fn triples(&self) -> u64
        ensures value { result ≡ (tally_of self.now).triples }
    {
        self.triples
    }

    /// Enters a deciding call.
    pub(crate) fn enter(&mut self, receipt: Receipt)
        requires room { 4096 ≤ vec_capacity self.old.receipts }
        ensures room { vec_capacity self.new.receipts ≡ vec_capacity self.old.receipts }
        ensures seat { self.new.seat ≡ self.old.seat }
        ensures entered { Enters receipt (tally_of self.old) (tally_of self.new) }
    {
        self.calls = self.calls.saturating_add(1);
        if self.receipts.len() < MAX_RECEIPTS {
            self.receipts.push_reserved(receipt);
        }
    }
}
