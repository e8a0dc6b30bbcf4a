//! Which keys of the lists go with keys of all others.
ghost use Rattle.std.specs.Prelude.{◌≡◌, ◌<◌, [], ◌∷◌, take, length, OnOk, IfOk};
ghost use Rattle.std.specs.List.{All};
ghost use Rattle.std.specs.Bool.{Decides};
ghost use Rattle.gs_joins.specs.Lots.{IsLot};
ghost use Rattle.gs_joins.specs.Values.{HasSolution, KeepsAt};
ghost use Rattle.gs_joins.specs.Choices.{AreIn, AreAll, GoesWith, KeepsThose, has_choice};
ghost use Rattle.gs_joins.specs.Answers.{AreRight};

use crate::answers::Answers;
use crate::bindings::choose;
use crate::choices::exists;
use crate::links::gather;
use crate::lots::Lot;
use gs_pool::Key;
use std::alloc::{AllocError, Global};

/// Whether the lists of these numbers have a key each that go together, where nothing is bound.
fn stand_by_themselves(
    alloc: Global,
    lots: &[Lot],
    group: &[usize],
    looked: &mut u64,
) -> Result<bool, AllocError>
    requires lots { All IsLot lots.now }
    requires group { AreIn lots.now group.now }
    ensures { IfOk result (λ found. found ≡ has_choice lots.now group.now []) }
{
    let mut bound = Vec::new(alloc);
    let mut answers = Answers::new(alloc);
    let found = exists(alloc, lots, group, &mut bound, &mut answers)?;
    *looked = looked.saturating_add(answers.looked);
    Ok(found)
}

/// Whether the lists of these numbers have a key each that go together. Those that share no variable
/// with the first are searched by themselves.
fn stand(
    alloc: Global,
    lots: &[Lot],
    order: &mut [usize],
    looked: &mut u64,
) -> Result<bool, AllocError>
    requires lots { All IsLot lots.now }
    requires order { AreIn lots.now order.old }
    ensures { IfOk result (λ stands. Decides stands (HasSolution lots.now order.old)) }
{
    if order.is_empty() {
        return Ok(true);
    }
    let many = gather(lots, order);
    let (group, rest) = order.split_at_mut(many);
    if !stand_by_themselves(alloc, lots, group, looked)? {
        return Ok(false);
    }
    stand(alloc, lots, rest, looked)
}

/// The numbers of the lists, this one first.
fn with_first(alloc: Global, lots: &[Lot], at: usize) -> Result<Vec<usize>, AllocError>
    requires { at < length lots.now }
    ensures all { IfOk result (λ order. AreAll lots.now order.items) }
    ensures first { IfOk result (λ order. take 1 order.items ≡ at ∷ []) }
{
    let mut order = Vec::new(alloc);
    for i in 0..lots.len() {
        order.push(i)?;
    }
    order.swap(0, at);
    Ok(order)
}

/// Whether this key of a list goes with keys of the lists of these numbers.
fn goes_with<'a>(
    alloc: Global,
    lots: &[Lot<'a>],
    at: usize,
    others: &[usize],
    key: Key,
    answers: &mut Answers,
) -> Result<bool, AllocError>
    requires lots { All IsLot lots.now }
    requires at { at < length lots.now }
    requires others { AreIn lots.now others.now }
    requires answers { AreRight lots.now answers.old }
    ensures goes { IfOk result (GoesWith lots.now at others.now key) }
    ensures answers { OnOk result (AreRight lots.now answers.new) }
{
    let mut bound = Vec::new(alloc);
    if !choose(&mut bound, &lots[at].sought, key)? {
        return Ok(false);
    }
    exists(alloc, lots, others, &mut bound, answers)
}

/// The keys of a list that go with keys of the lists of these numbers. Answers are kept while the list
/// is gone through.
fn kept(
    alloc: Global,
    lots: &[Lot],
    at: usize,
    others: &[usize],
    looked: &mut u64,
) -> Result<Vec<Key>, AllocError>
    requires lots { All IsLot lots.now }
    requires at { at < length lots.now }
    requires others { AreIn lots.now others.now }
    ensures { IfOk result (λ kept. KeepsThose lots.now at others.now kept.items) }
{
    let mut answers = Answers::new(alloc);
    let mut kept = Vec::new(alloc);
    for key in &lots[at].keys {
        if goes_with(alloc, lots, at, others, *key, &mut answers)? {
            kept.push(*key)?;
        }
    }
    *looked = looked.saturating_add(answers.looked);
    Ok(kept)
}

/// The keys of the list of the first number that go with keys of all others.
fn kept_first(
    alloc: Global,
    lots: &[Lot],
    at: usize,
    order: &mut [usize],
    looked: &mut u64,
) -> Result<Vec<Key>, AllocError>
    requires lots { All IsLot lots.now }
    requires at { at < length lots.now }
    requires order { AreAll lots.now order.old }
    requires first { take 1 order.old ≡ at ∷ [] }
    ensures { IfOk result (λ kept. KeepsAt lots.now at kept.items) }
{
    let many = gather(lots, order);
    let (group, rest) = order.split_at_mut(many);
    if !stand(alloc, lots, rest, looked)? {
        return Ok(Vec::new(alloc));
    }
    kept(alloc, lots, at, &group[1..], looked)
}

/// The keys of the list of this number that go with keys of all others. `looked` counts the keys that
/// are tried for it.
pub fn kept_at(
    alloc: Global,
    lots: &[Lot],
    at: usize,
    looked: &mut u64,
) -> Result<Vec<Key>, AllocError>
    requires lots { All IsLot lots.now }
    requires at { at < length lots.now }
    ensures { IfOk result (λ kept. KeepsAt lots.now at kept.items) }
{
    let mut order = with_first(alloc, lots, at)?;
    kept_first(alloc, lots, at, order.as_mut_slice(), looked)
}
