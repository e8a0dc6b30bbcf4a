//! The call after the 65,536th turns the page, and receipts number the entries of the new one.
ghost use Rattle.std.specs.Prelude.{◌≡◌, codes};
ghost use Rattle.gs_core.specs.Settings.{start_at};
ghost use Rattle.gs_shared.specs.Parts.{AreNamedBy};

use crate::heads::ask;
use gs_shared::{
    CountedLedger, Ended, Pass, Record, Room, Shared, SharedParts, SharedStore, shared_parts,
};
use std::alloc::Global;
use std::marker::Brand;
use std::sync::Wait;
use std::test::Fail;

/// Both passes, in a list.
fn both<C: CountedLedger, T: CountedLedger, B: Room>(
    alloc: Global,
    first: Pass<C, T, B>,
    second: Pass<C, T, B>,
) -> Option<Vec<Pass<C, T, B>>> {
    let mut back = Vec::with_capacity(alloc, 2).ok()?;
    back.push(first).ok()?;
    back.push(second).ok()?;
    Some(back)
}

/// The first pass of a list asks as often as a page has entries, and then the second twice.
fn ask_both<C: CountedLedger, T: CountedLedger, B: Room, R: Wait>(
    rt: &R,
    alloc: Global,
    store: &SharedStore<C, T, B>,
    mut passes: Vec<Pass<C, T, B>>,
) -> Option<Vec<Pass<C, T, B>>> {
    let second = passes.pop();
    let first = passes.pop();
    drop(passes);
    let Some(first) = first else {
        drop(second);
        return None;
    };
    let Some(second) = second else {
        drop(first);
        return None;
    };
    let first = ask(rt, store, first, 65_536);
    let second = ask(rt, store, second, 2);
    both(alloc, first, second)
}

/// One pass asks as often as a page has entries, and then another twice.
fn run<
    C: CountedLedger + Send + Sync,
    T: CountedLedger + Send + Sync,
    B: Room + Send + Sync,
    R: Wait,
>(rt: &R, alloc: Global, parts: SharedParts) -> Option<Ended>
    requires start { B.start ≡ start_at 2 (codes "http://localhost") 0 0 }
    requires parts { AreNamedBy C.CountedLedger T.CountedLedger B.table 2 parts }
{
    let Ok(mut shared) = Shared::<C, T, B>::new(alloc, 2, "http://localhost", 0, parts) else {
        return None;
    };
    let Ok(passes) = shared.passes(2) else {
        drop(shared);
        return None;
    };
    let Some(back) = ask_both(rt, alloc, shared.store(), passes) else {
        drop(shared);
        return None;
    };
    if back.len() != 2 {
        drop(back);
        drop(shared);
        return None;
    }
    Some(shared.end(rt, back))
}

/// What they leave.
fn asked<R: Wait>(rt: &R, alloc: Global) -> Option<Ended> {
    let parts = shared_parts(alloc, 2).ok()?;
    run::<Brand, Brand, Brand, R>(rt, alloc, parts)
}

/// Whether the receipts of a pass number the two entries of a page.
fn are_numbered(record: Option<&Record>) -> bool {
    let Some(record) = record else {
        return false;
    };
    let mut numbers = [9u64; 2];
    for (number, receipt) in numbers.iter_mut().zip(record.receipts()) {
        *number = receipt.number;
    }
    numbers == [0, 1]
}

/// What of the page, or of the last pass, is not as it must be.
fn wrong_part(ended: &Ended) -> Option<&'static str> {
    let page = ended.audited.page();
    if page.number() != 1 || page.entries().len() != 2 {
        return Some("the page");
    }
    if are_numbered(ended.passes.last()) {
        None
    } else {
        Some("the last pass")
    }
}

#[test]
fn a_full_page_is_turned(rt: HostRuntime) -> Result<(), Fail> {
    let ended = asked(&rt, rt.alloc()).expect(&rt, "memory");
    let wrong = wrong_part(&ended);
    drop(ended);
    assert_eq!(rt; wrong, None);
    Ok(())
}
