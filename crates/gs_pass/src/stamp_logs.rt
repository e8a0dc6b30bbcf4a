//! What lies under the lock beside the store: all stamps, and the totals of both ledgers.
ghost use Rattle.std.specs.Prelude.{◌≡◌, ◌<◌, ◌≤◌, ◌+◌, [], ◌∷◌, ◌++◌, length, map, vec_capacity, None};
ghost use Rattle.std.specs.List.{sum_by, All};
ghost use Rattle.crossbeam_utils.specs.Seq.{cell_view};
ghost use Rattle.gs_pass.specs.Stamps.{keeper as keeper_of, stamp, stamp_of};
ghost use Rattle.gs_pass.specs.Tallies.{seat_in, tally_of, count_plus, CountsCall, Enters, IsFresh};
ghost use Rattle.gs_pass.specs.Backing.{IsBacked};

use crate::cells::{Hands, StampCell, Token};
use crate::notes::{compare, note};
use crate::passes::Pass;
use crate::receipt_rooms::ReceiptRoom;
use crate::receipts::{Receipt, code};
use crate::records::Record;
use crate::rooms::Room;
use std::marker::PhantomData;
use std::sync::Wait;
use std::sync::ledger::{Blank, Book, Ledger, Share};

/// Knows all stamps that passes were given, and how many calls and triples all of them counted. It
/// lies under the lock.
#[derive(Drop)]
pub struct StampLog<C: Ledger, T: Ledger, B: Room> {
    keeper: Token,
    calls: Book<C>,
    triples: Book<T>,
    room: PhantomData<B>,
    ghost table: { keeper.table_id ≡ B.table },
    ghost knows: { cell_view keeper ≡ keeper_of (cell_view keeper).all [] },
}

impl<C: Ledger, T: Ledger, B: Room> StampLog<C, T, B> {
    ghost use Rattle.gs_pass.specs.Passes.{record_of, call_share_of, triple_share_of};
    ghost use Rattle.gs_pass.specs.StampLogs.{all_stamps, total_calls, total_triples};

    /// A log of no pass, and the shares that passes are given parts of.
    pub fn new(
        keeper: Token,
        calls: Blank,
        triples: Blank,
    ) -> (StampLog<C, T, B>, Share<C>, Share<T>)
        requires keeper { (keeper.table_id ≡ B.table) × (cell_view keeper ≡ keeper_of [] []) }
        requires calls { (calls.name ≡ C.name) × (calls.parts ≡ C.parts) }
        requires triples { (triples.name ≡ T.name) × (triples.parts ≡ T.parts) }
        ensures none { (all_stamps result.0 ≡ [])
            × (total_calls result.0 ≡ 0)
            × (total_triples result.0 ≡ 0) }
        ensures calls { (result.1.parts ≡ C.parts) × (result.1.amount ≡ 0) }
        ensures triples { (result.2.parts ≡ T.parts) × (result.2.amount ≡ 0) }
    {
        let (calls, call_share) = calls.open::<C>();
        let (triples, triple_share) = triples.open::<T>();
        let stamp_log = StampLog {
            keeper,
            calls,
            triples,
            room: PhantomData,
        };
        (stamp_log, call_share, triple_share)
    }

    /// A pass for a seat of the store, of a part of both ledgers.
    pub fn issue(
        &mut self,
        cell: &StampCell,
        seat: u16,
        space: ReceiptRoom,
        call_share: Share<C>,
        triple_share: Share<T>,
    ) -> Pass<C, T, B>
        requires cell { cell.now.table.shared.table_id ≡ B.table }
        requires seat { seat < B.start.seats }
        requires calls { (call_share.parts ≡ 1) × (call_share.amount ≡ 0) }
        requires triples { (triple_share.parts ≡ 1) × (triple_share.amount ≡ 0) }
        ensures fresh { (seat_in (record_of result) ≡ seat) × IsFresh (tally_of (record_of result)) }
        ensures stamps { all_stamps self.new ≡ all_stamps self.old }
        ensures totals { (total_calls self.new ≡ total_calls self.old)
            × (total_triples self.new ≡ total_triples self.old) }
    {
        let token = cell.split_pass::<Hands>(&mut self.keeper);
        let ReceiptRoom { receipts } = space;
        let record = Record {
            seat,
            receipts,
            calls: 0,
            triples: 0,
        };
        Pass {
            record,
            call_share,
            triple_share,
            token,
            room: PhantomData,
        }
    }

    /// Enters a decided call of the pass.
    pub fn enter<R: Wait>(
        &mut self,
        rt: &R,
        cell: &StampCell,
        pass: &mut Pass<C, T, B>,
        receipt: Receipt,
    )
        requires cell { cell.now.table.shared.table_id ≡ B.table }
        ensures stamps { all_stamps self.new
            ≡ all_stamps self.old ++ stamp (seat_in (record_of pass.old)) receipt ∷ [] }
        ensures totals { (total_calls self.new ≡ total_calls self.old + 1)
            × (total_triples self.new ≡ total_triples self.old) }
        ensures seat { seat_in (record_of pass.new) ≡ seat_in (record_of pass.old) }
        ensures entered { Enters receipt (tally_of (record_of pass.old)) (tally_of (record_of pass.new)) }
    {
        let words = words(pass.record.seat, receipt);
        note(rt, cell, &mut self.keeper, &mut pass.token, words);
        self.calls.add(&mut pass.call_share, 1);
        pass.record.enter(receipt);
    }

    /// Counts triples that the pass brought.
    pub fn count(&mut self, pass: &mut Pass<C, T, B>, triples: u64)
        ensures stamps { all_stamps self.new ≡ all_stamps self.old }
        ensures totals { (total_calls self.new ≡ total_calls self.old)
            × (total_triples self.new ≡ total_triples self.old + triples) }
        ensures seat { seat_in (record_of pass.new) ≡ seat_in (record_of pass.old) }
        ensures same { CountsCall None (tally_of (record_of pass.old)) (tally_of (record_of pass.new)) }
        ensures counted { (tally_of (record_of pass.new)).triples
            ≡ count_plus (tally_of (record_of pass.old)).triples triples }
    {
        self.triples.add(&mut pass.triple_share, triples);
        pass.record.triples = pass.record.triples.saturating_add(triples);
    }

    /// Takes a pass in with its parts. Each of its receipts has its stamp.
    pub fn close<R: Wait>(
        &mut self,
        rt: &R,
        cell: &StampCell,
        call_share: &mut Share<C>,
        triple_share: &mut Share<T>,
        pass: Pass<C, T, B>,
    ) -> Record
        requires cell { cell.now.table.shared.table_id ≡ B.table }
        ensures stamps { all_stamps self.new ≡ all_stamps self.old }
        ensures totals { (total_calls self.new ≡ total_calls self.old)
            × (total_triples self.new ≡ total_triples self.old) }
        ensures calls { (call_share.new.parts ≡ call_share.old.parts + 1)
            × (call_share.new.amount ≡ call_share.old.amount + (call_share_of pass).amount) }
        ensures triples { (triple_share.new.parts ≡ triple_share.old.parts + 1)
            × (triple_share.new.amount ≡ triple_share.old.amount + (triple_share_of pass).amount) }
        ensures record { result ≡ record_of pass }
        ensures backed { IsBacked (all_stamps self.old) result }
    {
        let Pass {
            record,
            call_share: calls,
            triple_share: triples,
            mut token,
            room: _,
        } = pass;
        compare(rt, cell, &mut self.keeper, &mut token);
        call_share.merge(calls);
        triple_share.merge(triples);
        record
    }

    /// Takes in all these passes, in their order. There is room for their records.
    pub fn close_all<R: Wait>(
        &mut self,
        rt: &R,
        cell: &StampCell,
        call_share: &mut Share<C>,
        triple_share: &mut Share<T>,
        passes: Vec<Pass<C, T, B>>,
        records: &mut Vec<Record>,
    )
        requires cell { cell.now.table.shared.table_id ≡ B.table }
        requires room { (records.old.items ≡ []) × (length passes.items ≤ vec_capacity records.old) }
        ensures stamps { all_stamps self.new ≡ all_stamps self.old }
        ensures totals { (total_calls self.new ≡ total_calls self.old)
            × (total_triples self.new ≡ total_triples self.old) }
        ensures calls { (call_share.new.parts ≡ call_share.old.parts + length passes.items)
            × (call_share.new.amount
            ≡ call_share.old.amount + sum_by (λ p. (call_share_of p).amount) passes.items) }
        ensures triples { (triple_share.new.parts ≡ triple_share.old.parts + length passes.items)
            × (triple_share.new.amount
            ≡ triple_share.old.amount + sum_by (λ p. (triple_share_of p).amount) passes.items) }
        ensures records { records.new.items ≡ map record_of passes.items }
        ensures backed { All (IsBacked (all_stamps self.old)) records.new.items }
    {
        for pass in passes {
            let record = self.close(rt, cell, call_share, triple_share, pass);
            records.push_reserved(record);
        }
    }

    /// Shows how the shares stand to the totals: one with every part has the total.
    pub fn audit(&mut self, call_share: &mut Share<C>, triple_share: &mut Share<T>)
        ensures totals { (total_calls self.new ≡ total_calls self.old)
            × (total_triples self.new ≡ total_triples self.old) }
        ensures calls { call_share.old.parts ≡ C.parts → call_share.old.amount ≡ total_calls self.old }
        ensures triples { triple_share.old.parts ≡ T.parts
            → triple_share.old.amount ≡ total_triples self.old }
    {
        self.calls.audit(call_share);
        self.triples.audit(triple_share);
    }
}

/// The stamp in words.
fn words(seat: u16, receipt: Receipt) -> [u64; 4]
    ensures { stamp_of result ≡ stamp seat receipt }
{
    [
        receipt.number,
        u64::from(seat),
        code(receipt.kind),
        u64::from(receipt.status),
    ]
}
