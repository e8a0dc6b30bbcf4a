//! The lock, with what its passes are made of.
ghost use Rattle.std.specs.Prelude.{◌≡◌, ◌↔◌, ◌+◌, ◌<◌, ◌≤◌, [], length, map, true, vec_capacity, IfOk, IfErr, OnOk, OnErr, Err};
ghost use Rattle.gs_model.specs.Bases.{is_base};
ghost use Rattle.gs_model.specs.Limits.{max_seats};
ghost use Rattle.gs_model.specs.declared.refusals.Refusal.TheVariants.{BadSeat as IsBadSeat};
ghost use Rattle.gs_audit.specs.Audits.{audited_store, audited_page};
ghost use Rattle.gs_core.specs.Settings.{start_at};
ghost use Rattle.gs_chronicle.specs.Views.{page_of};
ghost use Rattle.gs_door.specs.Kinds.{IsOfKind};
ghost use Rattle.gs_shared.specs.Parts.{AreForSeats, AreNamedBy};
ghost use Rattle.gs_shared.specs.Seats.{BeganAs, From, IsFreshOf};
ghost use Rattle.gs_shared.specs.Tells.{Tells};
ghost use Rattle.gs_shared.specs.Ends.{FitOnePage, IsWithinPage, HasAllCalls, AllStand};

use crate::endings::Ended;
use crate::locked::Locked;
use crate::parts::SharedParts;
use crate::shared_stores::SharedStore;
use gs_audit::Audited;
use gs_event::{Answer, Event};
use gs_model::Refusal;
use gs_pass::{CountedLedger, Pass, ReceiptRoom, Record, Room, StampLog, Whole, stamp_cell};
use std::alloc::{AllocError, Global};
use std::sync::ledger::{Blank, Share};
use std::sync::{Mutex, Wait};

/// One Mutex over a store with its page, and the parts of both ledgers that no pass has yet. A room
/// names its cell, and the two ledgers count calls and triples.
#[derive(Drop)]
pub struct Shared<C: CountedLedger, T: CountedLedger, B: Room> {
    store: SharedStore<C, T, B>,
    seats: u16,
    handed: u16,
    call_rest: Share<C>,
    triple_rest: Share<T>,
    whole_calls: Whole<C>,
    whole_triples: Whole<T>,
    alloc: Global,
    records: Vec<Record>,
    ghost of_start: { seats ≡ B.start.seats },
    ghost within: { handed ≤ seats },
    ghost call_parts: { call_rest.parts + handed ≡ C.all },
    ghost triple_parts: { triple_rest.parts + handed ≡ T.all },
    ghost calls_left: { seats < C.all },
    ghost triples_left: { seats < T.all },
    ghost no_calls: { call_rest.amount ≡ 0 },
    ghost no_triples: { triple_rest.amount ≡ 0 },
    ghost empty: { records.items ≡ [] },
    ghost reserved: { seats ≤ vec_capacity records },
}

impl<C: CountedLedger, T: CountedLedger, B: Room> Shared<C, T, B> {
    ghost use Rattle.gs_pass.specs.Passes.{record_of};
    ghost use Rattle.gs_shared.specs.Shared.{seat_count, passes_handed_out, shared_store};

    /// A new store with this base, for so many seats, 1 to 512, of which no pass is handed out yet.
    /// `gs_core::is_base` tests a base. The seed spreads terms and, by doors, labels of blank nodes, and shows
    /// in nothing but time: where strangers choose these, it is a random number that is kept from them. The
    /// parts are those of `shared_parts`, for as many seats. `C`, `T` and `B` name them, and `B` also says how
    /// this store begins.
    ///
    /// # Errors
    ///
    /// `NoMemory`.
    pub fn new(
        alloc: Global,
        seats: u16,
        base: &str,
        seed: u64,
        parts: SharedParts,
    ) -> Result<Shared<C, T, B>, Refusal>
        requires some { 1 ≤ seats }
        requires few { seats ≤ max_seats }
        requires base { is_base base.now ≡ true }
        requires start { B.start ≡ start_at seats base.now 0 0 }
        requires parts { AreNamedBy C.CountedLedger T.CountedLedger B.table seats parts }
        ensures fresh { IfOk result (λ s. (seat_count s ≡ seats) × (passes_handed_out s ≡ 0)) }
        ensures refused { IfErr result (λ refusal. refusal ≡ Refusal.NoMemory) }
    {
        let audited = Audited::seeded(alloc, seats, base, seed)?;
        let Ok(records) = Vec::with_capacity(alloc, usize::from(seats)) else {
            return Err(Refusal::NoMemory);
        };
        let SharedParts {
            cell,
            keeper,
            calls,
            triples,
        } = parts;
        let (stamp_log, call_rest, triple_rest) = StampLog::new(keeper, calls, triples);
        let locked = Locked { audited, stamp_log };
        let store = SharedStore {
            cell,
            lock: Mutex::new(locked),
            alloc,
            seed,
        };
        Ok(Shared {
            store,
            seats,
            handed: 0,
            call_rest,
            triple_rest,
            whole_calls: Whole::new(),
            whole_triples: Whole::new(),
            alloc,
            records,
        })
    }

    /// The lock, which threads share.
    pub fn store(&self) -> &SharedStore<C, T, B>
        ensures { result.now ≡ shared_store self.now }
    {
        &self.store
    }

    /// Takes one event, as `SharedStore::event` does.
    pub fn event<R: Wait>(&self, rt: &R, pass: &mut Pass<C, T, B>, event: Event) -> Answer
        ensures told { Tells event result (record_of pass.old) (record_of pass.new) }
        ensures kind { IsOfKind event result }
    {
        self.store.event(rt, pass, event)
    }

    /// A pass for each of the next `n` seats. Room for all their receipts is made before any is handed
    /// out, so a refusal changes nothing.
    ///
    /// # Errors
    ///
    /// `BadSeat` where fewer seats are left, and `NoMemory`.
    pub fn passes(&mut self, n: u16) -> Result<Vec<Pass<C, T, B>>, Refusal>
        ensures bad_seat { (result ≡ Err IsBadSeat) ↔ (seat_count self.old < passes_handed_out self.old + n) }
        ensures refused { IfErr result (λ refusal.
            passes_handed_out self.old + n ≤ seat_count self.old → refusal ≡ Refusal.NoMemory) }
        ensures passes { IfOk result (λ v.
            (length v.items ≡ n)
            × From (λ seat p. IsFreshOf seat (record_of p)) (passes_handed_out self.old) v.items) }
        ensures handed { OnOk result
            ((passes_handed_out self.new ≡ passes_handed_out self.old + n)
            × (seat_count self.new ≡ seat_count self.old)) }
        ensures kept { OnErr result (self.new ≡ self.old) }
    {
        if n > self.seats - self.handed {
            return Err(Refusal::BadSeat);
        }
        let Ok((spaces, passes)) = rooms(self.alloc, n) else {
            return Err(Refusal::NoMemory);
        };
        Ok(self.handed_out(spaces, passes))
    }

    /// A pass in each of these spaces, for the next seats.
    fn handed_out(
        &mut self,
        spaces: Vec<ReceiptRoom>,
        passes: Vec<Pass<C, T, B>>,
    ) -> Vec<Pass<C, T, B>>
        requires left { self.old.handed + length spaces.items ≤ self.old.seats }
        requires room { (passes.items ≡ []) × (length spaces.items ≤ vec_capacity passes) }
        ensures passes { (length result.items ≡ length spaces.items)
            × From (λ seat p. IsFreshOf seat p.record) self.old.handed result.items }
        ensures handed { (self.new.handed ≡ self.old.handed + length spaces.items)
            × (self.new.seats ≡ self.old.seats) }
    {
        let mut spaces = spaces;
        let mut passes = passes;
        let n = spaces.len();
        for _ in 0..n {
            let Some(space) = spaces.pop() else {
                unreachable!()
            };
            let pass = self.next(space);
            passes.push_reserved(pass);
        }
        passes
    }

    /// The pass of the next seat.
    fn next(&mut self, space: ReceiptRoom) -> Pass<C, T, B>
        requires { self.old.handed < self.old.seats }
        ensures fresh { IsFreshOf self.old.handed result.record }
        ensures handed { (self.new.handed ≡ self.old.handed + 1) × (self.new.seats ≡ self.old.seats) }
    {
        let seat = self.handed;
        let call_share = self.call_rest.split_off(1, 0);
        let triple_share = self.triple_rest.split_off(1, 0);
        let pass = self
            .store
            .lock
            .get_mut()
            .issue(&self.store.cell, seat, space, call_share, triple_share);
        self.handed += 1;
        pass
    }

    /// The value that was locked, and what the passes were told, once all that were handed out are
    /// back.
    pub fn end<R: Wait>(self, rt: &R, passes: Vec<Pass<C, T, B>>) -> Ended
        requires back { length passes.items ≡ passes_handed_out self }
        ensures records { result.passes.items ≡ map record_of passes.items }
        ensures turned { FitOnePage result.passes.items → (page_of (audited_page result.audited)).number ≡ 0 }
        ensures within { IsWithinPage (page_of (audited_page result.audited)) }
        ensures many { HasAllCalls (page_of (audited_page result.audited)) result.passes.items }
        ensures stand { AllStand (page_of (audited_page result.audited)) result.passes.items }
        ensures began { BeganAs B.start (audited_store result.audited).view }
    {
        let Shared {
            store,
            seats: _,
            handed: _,
            mut call_rest,
            mut triple_rest,
            whole_calls: _,
            whole_triples: _,
            alloc: _,
            mut records,
        } = self;
        let SharedStore { cell, lock, .. } = store;
        let Locked {
            audited,
            mut stamp_log,
        } = lock.into_inner();
        stamp_log.close_all(
            rt,
            &cell,
            &mut call_rest,
            &mut triple_rest,
            passes,
            &mut records,
        );
        stamp_log.audit(&mut call_rest, &mut triple_rest);
        Ended {
            audited,
            passes: records,
        }
    }
}

/// A new cell, and two new ledgers, for a store of so many seats.
pub fn shared_parts(alloc: Global, seats: u16) -> Result<SharedParts, AllocError>
    ensures { IfOk result (AreForSeats seats) }
{
    let (cell, keeper) = stamp_cell(alloc)?;
    let parts = u64::from(seats) + 1;
    Ok(SharedParts {
        cell,
        keeper,
        calls: Blank::new(parts),
        triples: Blank::new(parts),
    })
}

/// Room for so many passes, and for the receipts of each.
fn rooms<P: Drop>(alloc: Global, n: u16) -> Result<(Vec<ReceiptRoom>, Vec<P>), AllocError>
    ensures { IfOk result (λ r. (length r.0.items ≡ n) × (r.1.items ≡ []) × (n ≤ vec_capacity r.1)) }
{
    let passes = Vec::with_capacity(alloc, usize::from(n))?;
    let mut spaces = Vec::with_capacity(alloc, usize::from(n))?;
    for _ in 0..n {
        let space = ReceiptRoom::new(alloc)?;
        spaces.push_reserved(space);
    }
    Ok((spaces, passes))
}
