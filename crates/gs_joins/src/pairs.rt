//! Whether two lists at most have keys that go together.
ghost use Rattle.std.specs.Prelude.{◌≡◌, ◌<◌, ◌≤◌, [], ◌∷◌, length, OnOk, IfOk, MatchOption};
ghost use Rattle.std.specs.List.{All};
ghost use Rattle.gs_joins.specs.Numbers.{numbers_of};
ghost use Rattle.gs_joins.specs.Lots.{IsLot};
ghost use Rattle.gs_joins.specs.Choices.{AreIn, Searches};
ghost use Rattle.gs_joins.specs.Answers.{AreRight};
ghost use Rattle.gs_joins.specs.Sides.{IsJoinSide, TriesKey, TriesFirst, IsMerge};

use crate::answers::Answers;
use crate::bindings::{Bound, choose};
use crate::lots::Lot;
use crate::merges::{Joint, from_number, has_number, is_rising, joint_of};
use crate::questions::{may_repeat, question_for};
use crate::weights::first_number;
use gs_pool::Key;
use std::alloc::AllocError;

/// How many keys of a slice are gone through in the time of one that is looked up, or fewer.
const LOOK_UP_STEPS: usize = 16;

/// Whether the list of this number has a key under what is bound.
fn has_one<'a>(
    lots: &[Lot<'a>],
    at: usize,
    bound: &mut Vec<Bound<'a>>,
    looked: &mut u64,
) -> Result<bool, AllocError>
    requires lots { All IsLot lots.now }
    requires at { at < length lots.now }
    ensures { IfOk result (Searches lots.now (at ∷ []) bound.old.items bound.new.items) }
{
    let lot = &lots[at];
    let before = bound.len();
    for key in lot.near(bound.as_slice()) {
        *looked = looked.saturating_add(1);
        if choose(bound, &lot.sought, *key)? {
            bound.truncate(before);
            return Ok(true);
        }
    }
    Ok(false)
}

/// A list's number, and its keys near what is bound.
#[derive(Clone, Copy)]
pub struct Side<'k> {
    pub at: usize,
    pub near: &'k [Key],
}

/// Whether this key of a list goes with a key of the other one.
fn goes_with_list<'a>(
    lots: &[Lot<'a>],
    at: usize,
    key: Key,
    other: usize,
    bound: &mut Vec<Bound<'a>>,
    looked: &mut u64,
) -> Result<bool, AllocError>
    requires lots { All IsLot lots.now }
    requires at { at < length lots.now }
    requires other { other < length lots.now }
    ensures { IfOk result (TriesKey lots.now at other bound.old.items bound.new.items key) }
{
    *looked = looked.saturating_add(1);
    let lot = &lots[at];
    let before = bound.len();
    if !choose(bound, &lot.sought, key)? {
        return Ok(false);
    }
    let found = has_one(lots, other, bound, looked)?;
    bound.truncate(before);
    Ok(found)
}

/// Whether one of the keys near goes with a key of the other list. Each is tried, up to the first that
/// does.
fn has_either<'a>(
    lots: &[Lot<'a>],
    one: &Side,
    other: usize,
    bound: &mut Vec<Bound<'a>>,
    looked: &mut u64,
) -> Result<bool, AllocError>
    requires lots { All IsLot lots.now }
    requires one { IsJoinSide lots.now (numbers_of bound.old.items) one.now }
    requires other { other < length lots.now }
    ensures { IfOk result (Searches lots.now (one.now.at ∷ other ∷ []) bound.old.items bound.new.items) }
{
    for key in one.near {
        if goes_with_list(lots, one.at, *key, other, bound, looked)? {
            return Ok(true);
        }
    }
    Ok(false)
}

/// The same, where the keys near rise on both sides by the variable that they share: only those are
/// tried whose number is also on the other side, and both sides are gone through once.
fn has_merged<'a>(
    lots: &[Lot<'a>],
    one: &Side,
    other: &Side,
    joint: Joint,
    bound: &mut Vec<Bound<'a>>,
    looked: &mut u64,
) -> Result<bool, AllocError>
    requires lots { All IsLot lots.now }
    requires one { IsJoinSide lots.now (numbers_of bound.old.items) one.now }
    requires other { IsJoinSide lots.now (numbers_of bound.old.items) other.now }
    requires joint { IsMerge lots.now one.now other.now joint }
    ensures { IfOk result
        (Searches lots.now (one.now.at ∷ other.now.at ∷ []) bound.old.items bound.new.items) }
{
    let mut next = 0;
    for key in one.near {
        let number = first_number(joint.one, *key);
        next = from_number(other.near, joint.other, next, number);
        if has_number(other.near, joint.other, next, number)
            && goes_with_list(lots, one.at, *key, other.at, bound, looked)?
        {
            return Ok(true);
        }
    }
    Ok(false)
}

/// Where the sides have a variable that they share, if going through both costs less than to look up
/// each key of the one, which has no more.
fn merge_for(lots: &[Lot], one: &Side, other: &Side, bound: &[Bound]) -> Option<Joint>
    requires one { one.now.at < length lots.now }
    requires other { other.now.at < length lots.now }
    ensures { MatchOption result (Unit {0}) (IsMerge lots.now one.now other.now) }
{
    if other.near.len() / LOOK_UP_STEPS > one.near.len() {
        return None;
    }
    let joint = joint_of(&lots[one.at].sought, &lots[other.at].sought, bound)?;
    if !is_rising(one.near, joint.one) || !is_rising(other.near, joint.other) {
        return None;
    }
    Some(joint)
}

/// Whether the first of the keys near goes with a key of the other list. Where patterns join as a tree it
/// does, since lists have lost the keys without partners, so nothing else of the slices is looked at.
fn first_goes<'a>(
    lots: &[Lot<'a>],
    one: &Side,
    other: usize,
    bound: &mut Vec<Bound<'a>>,
    looked: &mut u64,
) -> Result<bool, AllocError>
    requires lots { All IsLot lots.now }
    requires one { IsJoinSide lots.now (numbers_of bound.old.items) one.now }
    requires other { other < length lots.now }
    ensures { IfOk result (TriesFirst lots.now one.now.at other bound.old.items bound.new.items) }
{
    match one.near.first() {
        Some(key) => goes_with_list(lots, one.at, *key, other, bound, looked),
        None => Ok(false),
    }
}

/// Whether two lists have keys that go together.
fn has_sides<'a>(
    lots: &[Lot<'a>],
    one: &Side,
    other: &Side,
    bound: &mut Vec<Bound<'a>>,
    looked: &mut u64,
) -> Result<bool, AllocError>
    requires lots { All IsLot lots.now }
    requires one { IsJoinSide lots.now (numbers_of bound.old.items) one.now }
    requires other { IsJoinSide lots.now (numbers_of bound.old.items) other.now }
    ensures { IfOk result
        (Searches lots.now (one.now.at ∷ other.now.at ∷ []) bound.old.items bound.new.items) }
{
    if first_goes(lots, one, other.at, bound, looked)? {
        return Ok(true);
    }
    match merge_for(lots, one, other, bound.as_slice()) {
        Some(joint) => has_merged(lots, one, other, joint, bound, looked),
        None => has_either(lots, one, other.at, bound, looked),
    }
}

/// Whether two lists have keys that go together. The keys of the list that costs less are tried.
fn has_pair<'a>(
    lots: &[Lot<'a>],
    one: &Side,
    second: usize,
    bound: &mut Vec<Bound<'a>>,
    looked: &mut u64,
) -> Result<bool, AllocError>
    requires lots { All IsLot lots.now }
    requires one { IsJoinSide lots.now (numbers_of bound.old.items) one.now }
    requires second { second < length lots.now }
    ensures { IfOk result (Searches lots.now (one.now.at ∷ second ∷ []) bound.old.items bound.new.items) }
{
    let near = lots[second].near(bound.as_slice());
    let other = Side { at: second, near };
    if lots[second].cost(near) < lots[one.at].cost(one.near) {
        return has_sides(lots, &other, one, bound, looked);
    }
    has_sides(lots, one, &other, bound, looked)
}

/// Whether two lists have keys that go together, by an answer that is kept where the question may have
/// come before. One key at most is tried at once: that costs less than a question.
fn has_two<'a>(
    lots: &[Lot<'a>],
    first: usize,
    second: usize,
    bound: &mut Vec<Bound<'a>>,
    answers: &mut Answers,
) -> Result<bool, AllocError>
    requires lots { All IsLot lots.now }
    requires first { first < length lots.now }
    requires second { second < length lots.now }
    requires answers { AreRight lots.now answers.old }
    ensures searches { IfOk result
        (Searches lots.now (first ∷ second ∷ []) bound.old.items bound.new.items) }
    ensures answers { OnOk result (AreRight lots.now answers.new) }
{
    let near = lots[first].near(bound.as_slice());
    let one = Side { at: first, near };
    if near.len() < 2 {
        return has_either(lots, &one, second, bound, &mut answers.looked);
    }
    let asked = question_for(lots, first, second, bound.as_slice());
    if !may_repeat(lots, &asked, bound.as_slice()) {
        return has_pair(lots, &one, second, bound, &mut answers.looked);
    }
    if let Some(found) = answers.find(&asked) {
        return Ok(found);
    }
    let found = has_pair(lots, &one, second, bound, &mut answers.looked)?;
    answers.keep(asked, found)?;
    Ok(found)
}

/// Whether the lists of these numbers have a key each that go together, under what is bound.
pub fn has_few<'a>(
    lots: &[Lot<'a>],
    order: &[usize],
    bound: &mut Vec<Bound<'a>>,
    answers: &mut Answers,
) -> Result<bool, AllocError>
    requires lots { All IsLot lots.now }
    requires order { AreIn lots.now order.now }
    requires few { length order.now ≤ 2 }
    requires answers { AreRight lots.now answers.old }
    ensures searches { IfOk result (Searches lots.now order.now bound.old.items bound.new.items) }
    ensures answers { OnOk result (AreRight lots.now answers.new) }
{
    match order {
        [] => Ok(true),
        [only] => has_one(lots, *only, bound, &mut answers.looked),
        [first, second, ..] => has_two(lots, *first, *second, bound, answers),
    }
}
