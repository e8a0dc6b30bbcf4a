//! The reclaimer: it frees what no version needs any more, a little in each hold of the lock, and rests.
ghost use Rattle.std.specs.Prelude.{◌≡◌, ℕ, List};
ghost use Rattle.gs_event.specs.declared.answers.Answer.{Answer as AnAnswer};
ghost use Rattle.gs_pass.specs.Tallies.{tally_of};
ghost use Rattle.gs_gates.specs.Sweeps.{SweepsAll, SweepsMany, has_more as goes_on_after};

use crate::limits::{RECLAIM_NODES, rest_after};
use crate::notes::Note;
use crossbeam_channel::Receiver;
use gs_door::Door;
use gs_event::{Answer, Event};
use gs_shared::{Pass, PassDoor, Room, SharedStore};
use std::sync::Wait;
use std::sync::ledger::Ledger;
use std::thread;
use std::time::{Clock, Duration, Instant};

/// Whether more is to be freed after this answer: something was freed, and something is left.
fn goes_on(answer: &Answer) -> bool
    ensures { result ≡ goes_on_after answer.now }
{
    match answer {
        Answer::Reclaimed(freed, true) => *freed > 0,
        _ => false,
    }
}

/// Asks to free a little, in one hold of the lock; whether more is to be freed.
fn free_some<D: Door>(door: &mut D) -> bool
    ensures { (a : AnAnswer) × D.Gives door.old (Event.Reclaim 4096) a door.new × (result ≡ goes_on_after a) }
{
    let answer = door.event(Event::Reclaim(RECLAIM_NODES));
    goes_on(&answer)
}

/// Frees what can be freed; others get in between. The bound says that it ends; it is not reached.
fn sweep<D: Door>(door: &mut D)
    ensures { (answers : List AnAnswer) × SweepsAll D.Gives door.old answers door.new }
{
    for _ in 0..u64::MAX {
        if !free_some(door) {
            return;
        }
    }
}

/// How long ago that was; no time where the clock cannot be read.
fn since<K: Clock>(clock: &K, start: Option<Instant>) -> Duration {
    match start {
        Some(start) => start.elapsed(clock).unwrap_or(Duration::ZERO),
        None => Duration::ZERO,
    }
}

/// Frees what can be freed, and rests in proportion to the time that this took, so that the store is left
/// to others for most of the time.
pub fn sweep_and_rest<D: Door, K: Clock>(clock: &K, door: &mut D)
    ensures { (answers : List AnAnswer) × SweepsAll D.Gives door.old answers door.new }
{
    let start = Instant::now(clock).ok();
    sweep(door);
    thread::sleep(clock, rest_after(since(clock, start)));
}

/// Frees after each note, until no more can come. What ends during a rest waits for the next sweep.
pub fn sweep_after<D: Door, R: Wait + Clock>(rt: &R, notes: Receiver<Note>, door: &mut D)
    ensures { (n : ℕ) × SweepsMany D.Gives n door.old door.new }
{
    for _ in rt.forever() {
        if notes.recv(rt).is_err() {
            break;
        }
        sweep_and_rest(rt, door);
    }
}

/// The whole run of the reclaimer: its pass comes back, and was told nothing.
pub fn reclaim<C: Ledger, T: Ledger, B: Room, R: Wait + Clock>(
    rt: &R,
    store: &SharedStore<C, T, B>,
    notes: Receiver<Note>,
    pass: Pass<C, T, B>,
) -> Pass<C, T, B>
    ensures seat { result.record.seat ≡ pass.record.seat }
    ensures tally { tally_of result.record ≡ tally_of pass.record }
{
    let mut door = PassDoor::new(rt, store, pass);
    sweep_after(rt, notes, &mut door);
    door.into_pass()
}
