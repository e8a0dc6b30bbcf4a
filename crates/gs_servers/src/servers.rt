//! A server, from its first connection to its last.
ghost use Rattle.std.specs.Prelude.{◌≡◌, ◌+◌, ◌≤◌, [], ◌∷◌, ◌++◌, length, true, vec_capacity, IfOk, IfErr, IfSome};
ghost use Rattle.gs_model.specs.Bases.{is_base};
ghost use Rattle.gs_core.specs.Settings.{start_at};
ghost use Rattle.gs_talk.specs.Logs.{Server};
ghost use Rattle.gs_shared.specs.Parts.{AreNamedBy};
ghost use Rattle.gs_shared.specs.Seats.{From, IsFreshOf};
ghost use Rattle.gs_servers.specs.Ends.{EndsAs};
ghost use Rattle.gs_gates.specs.Records.{IsAsBefore};
ghost use Rattle.gs_workers.specs.Served.{IsPromised, WasServed};

use crate::channels::channels;
use crate::promises::{AsBefore, Served};
use crossbeam_channel::Sender;
use gs_gates::{Gate, accept_all, patience, reclaim, whole};
use gs_model::Refusal;
use gs_shared::{CountedLedger, Ended, Pass, Room, Shared, SharedParts, SharedStore, shared_parts};
use gs_workers::{ServicePlan, work};
use std::alloc::{AllocError, Global};
use std::marker::Brand;
use std::net::{TcpListener, TcpStream};
use std::random::RandomSource;
use std::snapshot::Snapshot;
use std::sync::{Mutex, Wait};
use std::thread;
use std::thread::{PromisedHandle, Threads};
use std::time::Clock;

/// Joins the workers, in the order in which they were started. There is room for their passes.
fn join_all<C: CountedLedger, T: CountedLedger, B: Room, R: Threads>(
    rt: &R,
    workers: Vec<PromisedHandle<Pass<C, T, B>, Served<'_, C, T, B>>>,
    back: Vec<Pass<C, T, B>>,
) -> Vec<Pass<C, T, B>>
    requires { (back.items ≡ []) × (length workers.items ≤ vec_capacity back) }
    ensures many { length result.items ≡ length workers.entry.items }
    ensures served { (p : Server)
        → From (λ seat w. IsPromised p seat (record { base = w.promise.plan.base.now; piece = w.promise.plan.piece })
        w.promise.before.value.record) 0 workers.entry.items
        → From (λ seat x. WasServed p seat x.record) 0 result.items }
{
    let mut back = back;
    for worker in workers {
        let pass = worker.join(rt);
        back.push_reserved(pass);
    }
    back
}

/// Says that all is ready, and accepts connections where they are wanted. None can come to the workers
/// after that.
fn accept_once_ready<G: Gate, R: Wait + Clock>(
    rt: &R,
    listener: &TcpListener,
    limit: Option<u64>,
    gate: &G,
    to_workers: Sender<TcpStream>,
) {
    if gate.ready() {
        accept_all(rt, listener, limit, gate, to_workers);
    }
}

/// Starts a worker for each pass, and the reclaimer with the last one; accepts connections; and joins
/// them all. The passes come back in their order. `None` where memory or a thread was wanting: what a
/// thread waits for is dropped then too, so each one that was started ends.
fn with_threads<
    C: CountedLedger + Send + Sync,
    T: CountedLedger + Send + Sync,
    B: Room + Send + Sync,
    G: Gate + Sync,
    R: Threads + Wait + Clock + Sync,
>(
    rt: &R,
    plan: ServicePlan<'_>,
    listener: &TcpListener,
    limit: Option<u64>,
    gate: &G,
    store: &SharedStore<C, T, B>,
    turn: &Mutex<()>,
    passes: Vec<Pass<C, T, B>>,
    last: Pass<C, T, B>,
) -> Option<(Vec<Pass<C, T, B>>, Pass<C, T, B>)>
    ensures many { IfSome result (λ r. length r.0.items ≡ length passes.items) }
    ensures served { From (λ seat x. IsFreshOf seat x.record) 0 passes.items → IfSome result (λ r.
        From (λ seat x. WasServed (record { base = plan.entry.base.now; piece = plan.entry.piece }) seat x.record)
        0 r.0.items) }
    ensures last { IfSome result (λ r. IsAsBefore last.record r.1.record) }
{
    let alloc = plan.alloc;
    let (ends, to_workers, notes) = channels(alloc)?;
    thread::scope(
        thread::scope_env(),
        rt,
        move |scope| -> Option<(Vec<Pass<C, T, B>>, Pass<C, T, B>)>
            ensures many { IfSome result (λ r. length r.0.items ≡ length passes.items) }
            ensures served { From (λ seat x. IsFreshOf seat x.record) 0 passes.items → IfSome result (λ r.
                From (λ seat x. WasServed
                (record { base = plan.entry.base.now; piece = plan.entry.piece }) seat x.record)
                0 r.0.items) }
            ensures last { IfSome result (λ r. IsAsBefore last.record r.1.record) }
        {
            let mut workers = Vec::with_capacity(alloc, passes.len()).ok()?;
            let back = Vec::with_capacity(alloc, passes.len()).ok()?;
            let before = Snapshot::of(&last);
            let reclaimer = scope
                .spawn_with(AsBefore { before }, move || reclaim(rt, store, notes, last))
                .ok()?;
            for pass in passes {
                let (queue, own_notes) = ends.for_worker()?;
                let before = Snapshot::of(&pass);
                let worker = scope
                    .spawn_with(Served { before, plan }, move || {
                        work(rt, plan, store, gate, turn, queue, own_notes, pass)
                    })
                    .ok()?;
                workers.push_reserved(worker);
            }
            drop(ends);
            accept_once_ready(rt, listener, limit, gate, to_workers);
            let back = join_all(rt, workers, back);
            Some((back, reclaimer.join(rt)))
        },
    )
}

/// All passes, as the store is ended with.
fn with_last<P: Drop>(passes: Vec<P>, last: P) -> Result<Vec<P>, AllocError>
    ensures { IfOk result (λ all. all.items ≡ passes.items ++ last ∷ []) }
{
    let mut passes = passes;
    passes.push(last)?;
    Ok(passes)
}

/// A number that strangers do not know, by which terms, and labels of blank nodes, are spread; 0 where the system
/// has none to give.
fn seed_from<R: RandomSource>(rt: &R) -> u64 {
    let mut bytes = [0u8; 8];
    match rt.fill_bytes(&mut bytes) {
        Ok(()) => u64::from_le_bytes(bytes),
        Err(_) => 0,
    }
}

/// As `serve_all`, by this plan, over a store of these parts.
fn run<
    C: CountedLedger + Send + Sync,
    T: CountedLedger + Send + Sync,
    B: Room + Send + Sync,
    G: Gate + Sync,
    R: Threads + Wait + Clock + RandomSource + Sync,
>(
    rt: &R,
    plan: ServicePlan<'_>,
    listener: &TcpListener,
    workers: u16,
    limit: Option<u64>,
    gate: &G,
    parts: SharedParts,
) -> Result<Ended, Refusal>
    requires some { 1 ≤ workers }
    requires few { workers ≤ 256 }
    requires start { B.start ≡ start_at (workers + 1) plan.base.now 0 0 }
    requires parts { AreNamedBy C.CountedLedger T.CountedLedger B.table (workers + 1) parts }
    ensures refused { IfErr result (λ r. r ≡ Refusal.NoMemory) }
    ensures ended { IfOk result (EndsAs workers
        (record { base = plan.entry.base.now; piece = plan.entry.piece })) }
{
    let seats = workers + 1;
    let mut shared = Shared::<C, T, B>::new(plan.alloc, seats, plan.base, seed_from(rt), parts)?;
    let mut passes = shared.passes(seats)?;
    let Some(last) = passes.pop() else {
        unreachable!()
    };
    let turn = Mutex::new(());
    let Some((back, last)) = with_threads(
        rt,
        plan,
        listener,
        limit,
        gate,
        shared.store(),
        &turn,
        passes,
        last,
    ) else {
        return Err(Refusal::NoMemory);
    };
    let Ok(all) = with_last(back, last) else {
        return Err(Refusal::NoMemory);
    };
    Ok(shared.end(rt, all))
}

/// As `serve_all`, by this plan.
pub fn serve_within<G: Gate + Sync, R: Threads + Wait + Clock + RandomSource + Sync>(
    rt: &R,
    plan: ServicePlan<'_>,
    listener: &TcpListener,
    workers: u16,
    limit: Option<u64>,
    gate: &G,
) -> Result<Ended, Refusal>
    requires some { 1 ≤ workers }
    requires few { workers ≤ 256 }
    ensures refused { IfErr result (λ r. r ≡ Refusal.NoMemory) }
    ensures ended { IfOk result (EndsAs workers
        (record { base = plan.entry.base.now; piece = plan.entry.piece })) }
{
    let Ok(parts) = shared_parts(plan.alloc, workers + 1) else {
        return Err(Refusal::NoMemory);
    };
    run::<Brand, Brand, Brand, G, R>(rt, plan, listener, workers, limit, gate, parts)
}

/// Serves the connections that the listener accepts, over a new store with this base, by so many
/// workers, in pieces of so many lines. Each request is served by one of them. While others wait, a
/// connection gives way between two requests, and is served again by whichever worker takes it next. Each
/// worker acts for a seat of its own, from 0 on, and one more thread, of the last seat, frees what no
/// version needs. With a limit, that many are accepted, and once all were served the store is ended;
/// with none, 2^64 - 1. An accept that failed counts. `gs_core::is_base` tests a base.
///
/// # Errors
///
/// `NoMemory`, where memory was wanted and not given before the first or after the last connection, or
/// a thread could not be started.
pub fn serve_all<G: Gate + Sync, R: Threads + Wait + Clock + RandomSource + Sync>(
    rt: &R,
    alloc: Global,
    listener: &TcpListener,
    base: &str,
    workers: u16,
    piece: u32,
    limit: Option<u64>,
    gate: &G,
) -> Result<Ended, Refusal>
    requires base { is_base base.now ≡ true }
    requires some { 1 ≤ workers }
    requires few { workers ≤ 256 }
    requires lines { 1 ≤ piece }
    requires most_lines { piece ≤ 4096 }
    ensures refused { IfErr result (λ r. r ≡ Refusal.NoMemory) }
    ensures ended { IfOk result (EndsAs workers (record { base = base.now; piece = piece })) }
{
    let plan = ServicePlan {
        alloc,
        base,
        piece,
        patience: patience(),
        whole: whole(),
    };
    serve_within(rt, plan, listener, workers, limit, gate)
}
