//! Keys that have no partner are taken from the lists.
ghost use Rattle.std.specs.Prelude.{◌≡◌, ◌<◌, [], length, IfOk, OnOk, MatchOption, true, false, slice_get};
ghost use Rattle.std.specs.List.{All};
ghost use Rattle.gs_joins.specs.Numbers.{numbers_of};
ghost use Rattle.gs_joins.specs.Lots.{IsLot, Serves};
ghost use Rattle.gs_joins.specs.Reductions.{HasNoneAt, KeepsOf, Reduces};

use crate::bindings::{Bound, choose};
use crate::lots::Lot;
use gs_pool::Key;
use std::alloc::{AllocError, Global};

/// Whether a list has no key near what is bound.
fn has_none(lot: &Lot, bound: &[Bound]) -> bool
    requires { IsLot lot.now }
    ensures { result ≡ true → Serves (numbers_of bound.now) lot.now [] }
{
    lot.near(bound).is_empty()
}

/// Whether each list has a key that goes with this one of the list with this number.
fn has_partners<'a>(
    alloc: Global,
    lots: &[Lot<'a>],
    at: usize,
    key: Key,
) -> Result<bool, AllocError>
    requires lots { All IsLot lots.now }
    requires at { at < length lots.now }
    ensures { IfOk result (λ has. has ≡ false → HasNoneAt lots.now at key) }
{
    let mut bound = Vec::new(alloc);
    if !choose(&mut bound, &lots[at].sought, key)? {
        return Ok(false);
    }
    for (i, other) in lots.iter().enumerate() {
        if i != at && has_none(other, bound.as_slice()) {
            return Ok(false);
        }
    }
    Ok(true)
}

/// The keys of a list that have partners in all others.
fn partnered(
    alloc: Global,
    lots: &[Lot],
    at: usize,
    looked: &mut u64,
) -> Result<Vec<Key>, AllocError>
    requires lots { All IsLot lots.now }
    requires at { at < length lots.now }
    ensures { IfOk result (λ kept. KeepsOf lots.now at kept.items) }
{
    let mut kept = Vec::new(alloc);
    for key in &lots[at].keys {
        *looked = looked.saturating_add(1);
        if has_partners(alloc, lots, at, *key)? {
            kept.push(*key)?;
        }
    }
    Ok(kept)
}

/// Takes the keys without partners out of the list of this number: whether there were any.
fn reduce_at(
    alloc: Global,
    lots: &mut Vec<Lot>,
    at: usize,
    looked: &mut u64,
) -> Result<bool, AllocError>
    requires lots { All IsLot lots.old.items }
    requires at { at < length lots.old.items }
    ensures { OnOk result (Reduces lots.old.items lots.new.items) }
{
    let kept = partnered(alloc, lots.as_slice(), at, looked)?;
    if kept.len() == lots[at].keys.len() {
        return Ok(false);
    }
    let sought = lots[at].sought;
    let lot = Lot::new(alloc, sought, kept)?;
    lots[at] = lot;
    Ok(true)
}

/// Takes the keys without partners out of each list: whether there were any.
fn reduce_once(alloc: Global, lots: &mut Vec<Lot>, looked: &mut u64) -> Result<bool, AllocError>
    requires { All IsLot lots.old.items }
    ensures { OnOk result (Reduces lots.old.items lots.new.items) }
{
    let mut fewer = false;
    for i in 0..lots.len() {
        if reduce_at(alloc, lots, i, looked)? {
            fewer = true;
        }
    }
    Ok(fewer)
}

/// Takes keys without partners out of the lists, over and over: as often as there are lists. `looked`
/// counts the keys for which partners are sought.
pub fn reduce(alloc: Global, lots: &mut Vec<Lot>, looked: &mut u64) -> Result<(), AllocError>
    requires { All IsLot lots.old.items }
    ensures { OnOk result (Reduces lots.old.items lots.new.items) }
{
    for _ in 0..lots.len() {
        if !reduce_once(alloc, lots, looked)? {
            return Ok(());
        }
    }
    Ok(())
}
