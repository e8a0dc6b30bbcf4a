//! Whether lists have keys that go together, the list with the fewest first.
ghost use Rattle.std.specs.Prelude.{◌<◌, length, OnOk, IfOk};
ghost use Rattle.std.specs.List.{All};
ghost use Rattle.std.specs.List.Sorted.{IsPermutation};
ghost use Rattle.gs_joins.specs.Lots.{IsLot};
ghost use Rattle.gs_joins.specs.Choices.{AreIn, Searches};
ghost use Rattle.gs_joins.specs.Answers.{AreRight};

use crate::answers::Answers;
use crate::bindings::{Bound, choose};
use crate::lots::Lot;
use crate::pairs::has_few;
use std::alloc::{AllocError, Global};

/// The place of the list that costs least under what is bound. One with a key at most is as good as it
/// gets, so it looks no further.
fn fewest(lots: &[Lot], order: &[usize], bound: &[Bound]) -> usize
    requires lots { All IsLot lots.now }
    requires order { AreIn lots.now order.now }
    requires some { 0 < length order.now }
    ensures { result < length order.now }
{
    let mut best = 0;
    let mut least = usize::MAX;
    for (i, number) in order.iter().enumerate() {
        let lot = &lots[*number];
        let near = lot.near(bound);
        if near.len() < 2 {
            return i;
        }
        let cost = lot.cost(near);
        if cost < least {
            best = i;
            least = cost;
        }
    }
    best
}

/// The numbers, that of the list that costs least under what is bound first.
fn arranged(
    alloc: Global,
    lots: &[Lot],
    order: &[usize],
    bound: &[Bound],
) -> Result<Vec<usize>, AllocError>
    requires lots { All IsLot lots.now }
    requires order { AreIn lots.now order.now }
    ensures same { IfOk result (λ new. IsPermutation order.now new.items) }
    ensures within { IfOk result (λ new. AreIn lots.now new.items) }
{
    let mut new = Vec::from_slice(alloc, order)?;
    if order.len() > 1 {
        let best = fewest(lots, order, bound);
        new.swap(0, best);
    }
    Ok(new)
}

/// Whether the lists of these numbers have a key each that go together, under what is bound. It ends
/// at the first. The list that leaves the fewest keys is searched first, and one of which all are left
/// after those of which fewer are.
pub fn exists<'a>(
    alloc: Global,
    lots: &[Lot<'a>],
    order: &[usize],
    bound: &mut Vec<Bound<'a>>,
    answers: &mut Answers,
) -> Result<bool, AllocError>
    requires lots { All IsLot lots.now }
    requires order { AreIn lots.now order.now }
    requires answers { AreRight lots.now answers.old }
    ensures searches { IfOk result (Searches lots.now order.now bound.old.items bound.new.items) }
    ensures answers { OnOk result (AreRight lots.now answers.new) }
{
    if order.len() < 3 {
        return has_few(lots, order, bound, answers);
    }
    let new = arranged(alloc, lots, order, bound.as_slice())?;
    let Some((first, rest)) = new.as_slice().split_first() else {
        return Ok(true);
    };
    let lot = &lots[*first];
    let before = bound.len();
    for key in lot.near(bound.as_slice()) {
        answers.looked = answers.looked.saturating_add(1);
        if choose(bound, &lot.sought, *key)? {
            let found = exists(alloc, lots, rest, bound, answers)?;
            bound.truncate(before);
            if found {
                return Ok(true);
            }
        }
    }
    Ok(false)
}
