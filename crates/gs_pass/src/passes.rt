//! A seat's pass.
ghost use Rattle.std.specs.Prelude.{◌≡◌, ◌-◌, ◌^◌, ◌<◌, ◌≤◌, [], min, true, vec_capacity};
ghost use Rattle.crossbeam_utils.specs.Seq.{cell_view};
ghost use Rattle.gs_pass.specs.Stamps.{claimant};
ghost use Rattle.gs_pass.specs.Claims.{receipts_of, are_of, rises};

use crate::cells::Token;
use crate::receipts::Receipt;
use crate::records::Record;
use crate::rooms::Room;
use std::marker::PhantomData;
use std::sync::ledger::{Ledger, Share};

/// The right to act for a seat of one shared store, with what it was told so far. It has a part of
/// both ledgers, and claims the stamp of each of its deciding calls.
#[derive(Drop)]
pub struct Pass<C: Ledger, T: Ledger, B: Room> {
    pub(crate) record: Record,
    pub(crate) call_share: Share<C>,
    pub(crate) triple_share: Share<T>,
    pub(crate) token: Token,
    pub(crate) room: PhantomData<B>,
    ghost call_part: { call_share.parts ≡ 1 },
    ghost triple_part: { triple_share.parts ≡ 1 },
    ghost counts_calls: { record.calls ≡ min call_share.amount (2 ^ 64 - 1) },
    ghost counts_triples: { record.triples ≡ min triple_share.amount (2 ^ 64 - 1) },
    ghost table: { token.table_id ≡ B.table },
    ghost seated: { record.seat < B.start.seats },
    ghost free: { token.me.1 ≡ [] },
    ghost claims: { cell_view token ≡ claimant (cell_view token).claims },
    ghost own: { are_of record.seat (cell_view token).claims ≡ true },
    ghost rise: { rises 0 (cell_view token).claims ≡ true },
    ghost backed: { record.receipts.items ≡ receipts_of (cell_view token).claims },
    ghost reserved: { 4096 ≤ vec_capacity record.receipts },
}

impl<C: Ledger, T: Ledger, B: Room> Pass<C, T, B> {
    ghost use Rattle.gs_pass.specs.Passes.{record_of};
    ghost use Rattle.gs_pass.specs.Tallies.{seat_in, tally_of};

    /// The seat.
    pub fn seat(&self) -> u16
        ensures value { result ≡ seat_in (record_of self.now) }
    {
        self.record.seat
    }

    /// Receipts of the first 4,096 deciding calls that were not refused, the oldest first.
    pub fn receipts(&self) -> &[Receipt]
        ensures value { result.now ≡ (tally_of (record_of self.now)).receipts }
    {
        self.record.receipts.as_slice()
    }

    /// How many deciding calls were not refused. The count stops at 2^64 - 1.
    pub fn calls(&self) -> u64
        ensures value { result ≡ (tally_of (record_of self.now)).calls }
    {
        self.record.calls
    }

    /// As how many triples a page counts what the stages and patches brought that were not refused, with
    /// repeats (`gs_chronicle::list_size`, `ops_size`). The count stops at 2^64 - 1.
    pub fn triples(&self) -> u64
        ensures value { result ≡ (tally_of (record_of self.now)).triples }
    {
        self.record.triples
    }
}
