//! A store has the base, the seed and the number of seats that it was made with.
ghost use Rattle.std.specs.Prelude.{◌≡◌, codes};
ghost use Rattle.gs_core.specs.Settings.{start_at};
ghost use Rattle.gs_shared.specs.Parts.{AreNamedBy};

use gs_door::Door;
use gs_event::{Action, Answer, Event, UploadKind};
use gs_shared::{CountedLedger, PassDoor, Room, Shared, SharedParts, shared_parts};
use std::alloc::Global;
use std::marker::Brand;
use std::sync::Wait;
use std::test::Fail;

/// The seed of the store.
const SEED: u64 = 7;

/// What the one seat of a store is answered that creates a graph, once it was seen that there is no
/// pass for a second, and that its door has the store's seed.
fn create<C: CountedLedger, T: CountedLedger, B: Room, R: Wait>(
    rt: &R,
    shared: &mut Shared<C, T, B>,
) -> Option<Answer> {
    let both = shared.passes(2);
    let are_two = both.is_ok();
    drop(both);
    if are_two {
        return None;
    }
    let mut passes = shared.passes(1).ok()?;
    let pass = passes.pop();
    drop(passes);
    let door = PassDoor::new(rt, shared.store(), pass?);
    let is_seeded = door.seed() == SEED;
    let mut pass = door.into_pass();
    if !is_seeded {
        drop(pass);
        return None;
    }
    let opens = Event::Seat(pass.seat(), Action::Open(UploadKind::New, None));
    drop(shared.event(rt, &mut pass, opens));
    let commits = Event::Seat(pass.seat(), Action::Commit);
    let answer = shared.event(rt, &mut pass, commits);
    drop(pass);
    Some(answer)
}

/// The same of a new store of one seat.
fn run<
    C: CountedLedger + Send + Sync,
    T: CountedLedger + Send + Sync,
    B: Room + Send + Sync,
    R: Wait,
>(rt: &R, alloc: Global, parts: SharedParts) -> Option<Answer>
    requires start { B.start ≡ start_at 1 (codes "http://h:1") 0 0 }
    requires parts { AreNamedBy C.CountedLedger T.CountedLedger B.table 1 parts }
{
    let mut shared: Shared<C, T, B> = Shared::new(alloc, 1, "http://h:1", SEED, parts).ok()?;
    let answer = create(rt, &mut shared);
    drop(shared);
    answer
}

/// The same, with what a store is made of.
fn created<R: Wait>(rt: &R, alloc: Global) -> Option<Answer> {
    let parts = shared_parts(alloc, 1).ok()?;
    run::<Brand, Brand, Brand, R>(rt, alloc, parts)
}

/// Whether a graph was created of this name.
fn is_named(answer: &Answer, wanted: &[u8]) -> bool {
    match answer {
        Answer::Status(201, Some(name), 1) => name.as_bytes() == wanted,
        _ => false,
    }
}

#[test]
fn a_store_has_its_base_its_seed_and_its_seats(rt: HostRuntime) -> Result<(), Fail> {
    let answer = created(&rt, rt.alloc()).expect(&rt, "memory, one seat, and the seed");
    let is_right = is_named(&answer, b"http://h:1/graphs/n1-0");
    drop(answer);
    assert!(rt; is_right);
    Ok(())
}
