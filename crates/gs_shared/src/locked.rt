//! What lies under the lock.
ghost use Rattle.std.specs.Prelude.{◌≡◌, ◌≢◌, ◌<◌, ◌-◌, length, sum, false, IfSome};
ghost use Rattle.crossbeam_utils.specs.Seq.{cell_view};
ghost use Rattle.gs_chronicle.specs.Views.{page_of};
ghost use Rattle.gs_audit.specs.Audits.{staged_of};
ghost use Rattle.gs_audit.specs.Forms.{IsFormOf};
ghost use Rattle.gs_door.specs.Kinds.{IsOfKind};
ghost use Rattle.gs_pass.specs.Tallies.{tally_of};
ghost use Rattle.gs_shared.specs.Asked.{ask_of_event};
ghost use Rattle.gs_shared.specs.Counts.{IsTied, IsPageCounted};
ghost use Rattle.gs_shared.specs.Limits.{page_entries, page_triples};
ghost use Rattle.gs_shared.specs.Seats.{BeganAs, IsFreshOf};
ghost use Rattle.gs_shared.specs.Tells.{is_of_another, ToldBy};

use crate::asked::EventAsk;
use crate::limits::{PAGE_ENTRIES, PAGE_TRIPLES};
use gs_audit::{Audited, Form};
use gs_event::{Answer, Event};
use gs_model::Refusal;
use gs_pass::{Pass, Receipt, ReceiptRoom, Room, StampCell, StampLog};
use std::sync::Wait;
use std::sync::ledger::{Ledger, Share};

/// A store with its page, and the stamp log that ties both to the passes.
#[derive(Drop)]
pub struct Locked<C: Ledger, T: Ledger, B: Room> {
    pub(crate) audited: Audited<PAGE_ENTRIES, PAGE_TRIPLES>,
    pub(crate) stamp_log: StampLog<C, T, B>,
    ghost began: { BeganAs B.start audited.store.view },
    ghost tied: { IsTied (page_of audited.chronicle) (cell_view stamp_log.keeper).all },
    ghost counted: { IsPageCounted page_entries page_triples (page_of audited.chronicle) (sum (staged_of audited))
        stamp_log.calls.total stamp_log.triples.total },
}

impl<C: Ledger, T: Ledger, B: Room> Locked<C, T, B> {
    /// A pass for a seat, of a part of both ledgers.
    pub(crate) fn issue(
        &mut self,
        cell: &StampCell,
        seat: u16,
        space: ReceiptRoom,
        call_share: Share<C>,
        triple_share: Share<T>,
    ) -> Pass<C, T, B>
        requires cell { cell.now.table.shared.table_id ≡ B.table }
        requires seat { seat < B.start.seats }
        requires calls { (call_share.parts ≡ 1) × (call_share.amount ≡ 0) }
        requires triples { (triple_share.parts ≡ 1) × (triple_share.amount ≡ 0) }
        ensures { IsFreshOf seat result.record }
    {
        self.stamp_log
            .issue(cell, seat, space, call_share, triple_share)
    }

    /// Takes an event that is no action of another seat than the pass's, and tells the pass. The caller
    /// read off the event what it asks, and made the form of what it brings, so that this is not done under
    /// the lock. A list that is staged stays with the event, and so do triples of a
    /// patch that have a form.
    pub(crate) fn event<R: Wait>(
        &mut self,
        rt: &R,
        cell: &StampCell,
        pass: &mut Pass<C, T, B>,
        event: &mut Event,
        asked: EventAsk,
        form: Option<Form>,
    ) -> Answer
        requires own { is_of_another pass.old.record.seat event.old ≡ false }
        requires cell { cell.now.table.shared.table_id ≡ B.table }
        requires asked { asked ≡ ask_of_event event.old }
        requires form { IfSome form (IsFormOf event.old) }
        ensures told { ToldBy event.old result (tally_of pass.old.record) (tally_of pass.new.record) }
        ensures kind { IsOfKind event.old result }
        ensures there { result ≢ Answer.Refused Refusal.BadSeat }
        ensures seat { pass.new.record.seat ≡ pass.old.record.seat }
    {
        let count = asked.counted() as usize;
        let answer = self.audited.event_with(event, form, count);
        self.stamp_log.count(pass, asked.brought(&answer));
        match asked.decided(&answer) {
            None => answer,
            Some((kind, status)) => {
                let number = last_number(&self.audited);
                let receipt = Receipt {
                    number,
                    kind,
                    status,
                };
                self.stamp_log.enter(rt, cell, pass, receipt);
                answer
            }
        }
    }
}

/// The number of the last entry of the page, 0 where it has none.
fn last_number(audited: &Audited<PAGE_ENTRIES, PAGE_TRIPLES>) -> u64
    ensures { result ≡ length (page_of audited.now.chronicle).rows - 1 }
{
    let entries = audited.page().entries().len();
    (entries as u64).saturating_sub(1)
}
