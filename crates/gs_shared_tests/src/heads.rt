//! Four threads that ask, whether or not at the same time: all their calls stand on page 0.
ghost use Rattle.std.specs.Prelude.{◌≡◌, codes};
ghost use Rattle.gs_core.specs.Settings.{start_at};
ghost use Rattle.gs_shared.specs.Parts.{AreNamedBy};

use gs_event::{Action, Event, Scope};
use gs_shared::{CountedLedger, Ended, Pass, Room, Shared, SharedParts, SharedStore, shared_parts};
use gs_term::Target;
use std::alloc::Global;
use std::marker::Brand;
use std::sync::Wait;
use std::test::Fail;
use std::thread;
use std::thread::Threads;

/// Asks so many times whether the default graph is there.
pub fn ask<C: CountedLedger, T: CountedLedger, B: Room, R: Wait>(
    rt: &R,
    store: &SharedStore<C, T, B>,
    pass: Pass<C, T, B>,
    times: u32,
) -> Pass<C, T, B> {
    let mut pass = pass;
    for _ in 0..times {
        let head = Action::Head(Scope::One(Target::Default));
        let event = Event::Seat(pass.seat(), head);
        let _ = store.event(rt, &mut pass, event);
    }
    pass
}

/// Each pass asks 1,000 times in a thread of its own: the passes that come back.
fn ask_all<
    C: CountedLedger + Send + Sync,
    T: CountedLedger + Send + Sync,
    B: Room + Send + Sync,
    R: Threads + Wait + Sync,
>(
    rt: &R,
    alloc: Global,
    store: &SharedStore<C, T, B>,
    passes: Vec<Pass<C, T, B>>,
) -> Option<Vec<Pass<C, T, B>>> {
    thread::scope(
        thread::scope_env(),
        rt,
        move |scope| -> Option<Vec<Pass<C, T, B>>> {
            let mut threads = Vec::with_capacity(alloc, 4).ok()?;
            for pass in passes {
                let asks = scope.spawn(move || ask(rt, store, pass, 1000)).ok()?;
                threads.push(asks).ok()?;
            }
            let mut back = Vec::with_capacity(alloc, 4).ok()?;
            for asks in threads {
                let pass = asks.join(rt);
                back.push(pass).ok()?;
            }
            Some(back)
        },
    )
}

/// Four threads ask 1,000 times each.
fn run<
    C: CountedLedger + Send + Sync,
    T: CountedLedger + Send + Sync,
    B: Room + Send + Sync,
    R: Threads + Wait + Sync,
>(rt: &R, alloc: Global, parts: SharedParts) -> Option<Ended>
    requires start { B.start ≡ start_at 4 (codes "http://localhost") 0 0 }
    requires parts { AreNamedBy C.CountedLedger T.CountedLedger B.table 4 parts }
{
    let mut shared: Shared<C, T, B> = Shared::new(alloc, 4, "http://localhost", 0, parts).ok()?;
    let Ok(passes) = shared.passes(4) else {
        drop(shared);
        return None;
    };
    let Some(back) = ask_all(rt, alloc, shared.store(), passes) else {
        drop(shared);
        return None;
    };
    if back.len() != 4 {
        drop(back);
        drop(shared);
        return None;
    }
    Some(shared.end(rt, back))
}

/// What four threads leave that ask 1,000 times each.
fn asked<R: Threads + Wait + Sync>(rt: &R, alloc: Global) -> Option<Ended> {
    let parts = shared_parts(alloc, 4).ok()?;
    run::<Brand, Brand, Brand, R>(rt, alloc, parts)
}

/// The names of the four passes.
const PASSES: [&str; 4] = ["pass 0", "pass 1", "pass 2", "pass 3"];

/// What is not as it must be: the page, or the first such pass.
fn wrong_part(ended: &Ended) -> Option<&'static str> {
    let page = ended.audited.page();
    if page.number() != 0 || page.entries().len() != 4000 {
        return Some("the page");
    }
    for (name, record) in PASSES.iter().zip(&ended.passes) {
        if record.calls() != 1000 || record.receipts().len() != 1000 {
            return Some(name);
        }
    }
    None
}

#[test]
fn four_threads_fill_one_page(rt: HostRuntime) -> Result<(), Fail> {
    let ended = asked(&rt, rt.alloc()).expect(&rt, "memory and threads");
    let wrong = wrong_part(&ended);
    drop(ended);
    assert_eq!(rt; wrong, None);
    Ok(())
}
