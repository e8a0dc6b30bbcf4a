//! A patch of many operations, as a page keeps it: each by its form, in order, and its triples stay with the event;
//! and how many operations have forms.
use crate::stores::{Wide, cats, numbered, wide};
use gs_audit::{Form, count_of};
use gs_chronicle::{KeptOp, KeptOps, Request};
use gs_core::{Action, Answer, Event, Op, UploadKind};
use gs_model::Refusal;
use gs_triple_lists::TripleList;
use std::alloc::Global;

/// How many triples each operation has. The first of every three deletes its triples, the others insert theirs.
const LENGTHS: [usize; 20] = [
    0, 1, 2, 3, 31, 32, 33, 300, 1, 0, 7, 16, 17, 64, 65, 5, 4, 3, 2, 1,
];

/// The operations of these lengths, whose triples are numbered from 0.
fn operations(alloc: Global) -> Result<Vec<Op>, Refusal> {
    let mut ops = Vec::new(alloc);
    let mut first = 0usize;
    for (place, count) in LENGTHS.iter().enumerate() {
        let list = TripleList::of(alloc, numbered(alloc, first, *count)?)?;
        first = first.saturating_add(*count);
        ops.push(if place % 3 == 0 {
            Op::DeleteData(list)
        } else {
            Op::Insert(list)
        })?;
    }
    Ok(ops)
}

/// Whether an operation is kept by its form, of so many triples from this number on.
fn is_kept(alloc: Global, op: &KeptOp, place: usize, first: usize) -> Result<bool, Refusal> {
    let count = LENGTHS.get(place).copied().unwrap_or_default();
    let wanted = numbered(alloc, first, count)?;
    let (deletes, small) = match op {
        KeptOp::Insert(small) => (false, small),
        KeptOp::DeleteData(small) => (true, small),
        KeptOp::DeleteWhere(_) => return Ok(false),
    };
    Ok(deletes == (place % 3 == 0) && small.to_vec(alloc)?.as_slice() == wanted.as_slice())
}

/// Whether all of them are.
fn are_kept(alloc: Global, ops: &[KeptOp]) -> Result<bool, Refusal> {
    let mut first = 0usize;
    for (place, op) in ops.iter().enumerate() {
        if !is_kept(alloc, op, place, first)? {
            return Ok(false);
        }
        let count = LENGTHS.get(place).copied().unwrap_or_default();
        first = first.saturating_add(count);
    }
    Ok(ops.len() == LENGTHS.len())
}

/// Whether the last entry is that of a patch whose operations are kept by their forms.
fn is_stored(alloc: Global, store: &Wide) -> Result<bool, Refusal> {
    let Some(entry) = store.page().entries().last() else {
        return Ok(false);
    };
    match entry.request() {
        Request::Patch(patch) => match patch.ops() {
            KeptOps::Kept(ops) => are_kept(alloc, ops),
            KeptOps::AsTheyCame(_) => Ok(false),
        },
        _ => Ok(false),
    }
}

/// Whether the operations of an event still have all of their triples.
fn has_all(event: &Event) -> bool {
    let Event::Seat(_, Action::CommitPatch(ops)) = event else {
        return false;
    };
    for (op, count) in ops.iter().zip(&LENGTHS) {
        let found = match op {
            Op::Insert(list) | Op::DeleteData(list) => list.len(),
            Op::DeleteWhere(_) => return false,
        };
        if found != *count {
            return false;
        }
    }
    ops.len() == LENGTHS.len()
}

/// Whether a patch of a graph that is there is answered 204, and kept as it is to be.
fn is_patched(alloc: Global, store: &mut Wide) -> Result<bool, Refusal> {
    let kind = UploadKind::Put(cats(alloc)?);
    drop(store.event(Event::Seat(0, Action::Open(kind, None))));
    drop(store.event(Event::Seat(0, Action::Commit)));
    drop(store.event(Event::Seat(0, Action::OpenPatch(cats(alloc)?, None))));
    let mut event = Event::Seat(0, Action::CommitPatch(operations(alloc)?));
    let form = Form::of(alloc, &event);
    let count = count_of(&event);
    let answer = store.event_with(&mut event, form, count);
    let is_right = matches!(answer, Answer::Status(204, _, _)) && has_all(&event);
    drop(answer);
    drop(event);
    Ok(is_right && is_stored(alloc, store)?)
}

/// The same of a new store.
fn is_right(alloc: Global) -> Result<bool, Refusal> {
    let mut store = wide(alloc)?;
    let found = is_patched(alloc, &mut store);
    drop(store);
    found
}

/// As how many triples a patch of so many operations of one triple counts, and whether it has a form. The triple
/// alone counts as two.
fn counts(alloc: Global, operations: usize) -> Result<(usize, bool), Refusal> {
    let mut ops = Vec::new(alloc);
    for _ in 0..operations {
        ops.push(Op::Insert(TripleList::of(alloc, numbered(alloc, 0, 1)?)?))?;
    }
    let event = Event::Seat(0, Action::CommitPatch(ops));
    let form = Form::of(alloc, &event);
    let found = (count_of(&event), form.is_some());
    drop(form);
    drop(event);
    Ok(found)
}

/// 18 times 1,024, and 32 times 1,025.
#[test]
fn a_patch_of_more_than_1024_operations_has_no_form(rt: HostRuntime) -> Result<(), Refusal> {
    assert_eq!(&rt; counts(rt.alloc(), 1_024)?, (18_432, true));
    assert_eq!(&rt; counts(rt.alloc(), 1_025)?, (32_800, false));
    Ok(())
}

#[test]
fn a_patch_of_many_operations_is_kept_by_their_forms(rt: HostRuntime) -> Result<(), Refusal> {
    assert_eq!(&rt; is_right(rt.alloc())?, true);
    Ok(())
}
