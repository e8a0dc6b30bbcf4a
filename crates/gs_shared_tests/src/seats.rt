//! All seats of a store have passes, and none of them acts for another's.
ghost use Rattle.std.specs.Prelude.{◌≡◌, codes};
ghost use Rattle.gs_core.specs.Settings.{start_at};
ghost use Rattle.gs_shared.specs.Parts.{AreNamedBy};

use gs_event::{Action, Answer, Event, UploadKind};
use gs_model::Refusal;
use gs_shared::{CountedLedger, Pass, Room, Shared, SharedParts, shared_parts};
use gs_term::Target;
use std::alloc::Global;
use std::marker::Brand;
use std::sync::Wait;
use std::test::Fail;

/// What is seen of the last two of 512 seats.
#[derive(Drop)]
struct Outcome {
    /// The last seat for which there is a pass.
    last: u16,
    /// What its pass is answered that cancels, and then commits, the upload of the seat before it.
    others: [Answer; 2],
    /// What that one's own pass is answered, which commits it then.
    own: Answer,
}

/// The pass of a store's last seat acts for the seat of another pass.
fn act<C: CountedLedger, T: CountedLedger, B: Room, R: Wait>(
    rt: &R,
    shared: &Shared<C, T, B>,
    own: &mut Pass<C, T, B>,
    last: &mut Pass<C, T, B>,
) -> Outcome {
    let seat = own.seat();
    let opens = Action::Open(UploadKind::Put(Target::Default), None);
    drop(shared.event(rt, own, Event::Seat(seat, opens)));
    let cancelled = shared.event(rt, last, Event::Seat(seat, Action::Cancel));
    let committed = shared.event(rt, last, Event::Seat(seat, Action::Commit));
    Outcome {
        last: last.seat(),
        others: [cancelled, committed],
        own: shared.event(rt, own, Event::Seat(seat, Action::Commit)),
    }
}

/// The last of the next so many passes of a store, where there are so many.
fn last_of<C: CountedLedger, T: CountedLedger, B: Room>(
    shared: &mut Shared<C, T, B>,
    count: u16,
) -> Option<Pass<C, T, B>> {
    let mut passes = shared.passes(count).ok()?;
    let last = passes.pop();
    drop(passes);
    last
}

/// Hands out the passes of 512 seats, and has the last one act for the one before it, once it was seen
/// that there are no two after 511.
fn act_at<C: CountedLedger, T: CountedLedger, B: Room, R: Wait>(
    rt: &R,
    shared: &mut Shared<C, T, B>,
) -> Option<Outcome> {
    let own = last_of(shared, 511);
    let too_far = last_of(shared, 2);
    let is_over = too_far.is_some();
    drop(too_far);
    let last = if is_over { None } else { last_of(shared, 1) };
    let Some(mut own) = own else {
        drop(last);
        return None;
    };
    let Some(mut last) = last else {
        drop(own);
        return None;
    };
    let outcome = act(rt, shared, &mut own, &mut last);
    drop(last);
    drop(own);
    Some(outcome)
}

/// The same of a new store.
fn run<
    C: CountedLedger + Send + Sync,
    T: CountedLedger + Send + Sync,
    B: Room + Send + Sync,
    R: Wait,
>(rt: &R, alloc: Global, parts: SharedParts) -> Option<Outcome>
    requires start { B.start ≡ start_at 512 (codes "http://localhost") 0 0 }
    requires parts { AreNamedBy C.CountedLedger T.CountedLedger B.table 512 parts }
{
    let mut shared: Shared<C, T, B> = Shared::new(alloc, 512, "http://localhost", 0, parts).ok()?;
    let outcome = act_at(rt, &mut shared);
    drop(shared);
    outcome
}

/// The same, with what a store is made of.
fn seen<R: Wait>(rt: &R, alloc: Global) -> Option<Outcome> {
    let parts = shared_parts(alloc, 512).ok()?;
    run::<Brand, Brand, Brand, R>(rt, alloc, parts)
}

/// What is not as it must be: the last pass is refused both times, and the seat's own is not.
fn wrong_part(seen: &Outcome) -> Option<&'static str> {
    let [cancelled, committed] = &seen.others;
    if !matches!(cancelled, Answer::Refused(Refusal::BadSeat)) {
        return Some("another's Cancel");
    }
    if !matches!(committed, Answer::Refused(Refusal::BadSeat)) {
        return Some("another's Commit");
    }
    if !matches!(seen.own, Answer::Status(204, None, 1)) {
        return Some("the own Commit");
    }
    if seen.last == 511 {
        None
    } else {
        Some("the last seat")
    }
}

#[test]
fn no_pass_acts_for_another_seat(rt: HostRuntime) -> Result<(), Fail> {
    let seen = seen(&rt, rt.alloc()).expect(&rt, "memory, and 512 seats");
    let wrong = wrong_part(&seen);
    drop(seen);
    assert_eq!(rt; wrong, None);
    Ok(())
}
