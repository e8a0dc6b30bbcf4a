//! The keys that may be the instances of one pattern, so that those with some known numbers are found at once.
ghost use Rattle.std.specs.Prelude.{◌≡◌, IfOk};
ghost use Rattle.std.specs.List.{All};
ghost use Rattle.std.specs.List.Sorted.{IsNonDecreasingBy};
ghost use Rattle.gs_joins.specs.Numbers.{numbers_of};
ghost use Rattle.gs_joins.specs.Lots.{known_key_of, least_of, least_key_of, weight_of, IsSmall, IsKeyTable, IsLot, IsBetween, Serves, MakesLot};

use crate::bindings::{Bound, NO_NUMBER, known};
use crate::sought::Sought;
use crate::weights::{Turn, weight};
use gs_pool::Key;
use std::alloc::{AllocError, Global};

/// A pattern with the keys that may be its instances, and the same keys by their numbers, from each
/// place on.
#[derive(Drop)]
pub struct Lot<'a> {
    pub sought: Sought<'a>,
    pub keys: Vec<Key>,
    by_subject: Vec<Key>,
    by_predicate: Vec<Key>,
    by_object: Vec<Key>,
}

/// The keys by their numbers, from one place on.
fn table_of(keys: &[Key], alloc: Global, turn: Turn) -> Result<Vec<Key>, AllocError>
    ensures { IfOk result (λ table. IsKeyTable turn keys.now table.items) }
{
    let mut table = Vec::from_slice(alloc, keys)?;
    table.sort_unstable_by_key(|key| weight(turn, *key));
    Ok(table)
}

/// The known numbers of a pattern, each where it stands, and `NO_NUMBER` where none is known.
fn known_key(sought: &Sought, bound: &[Bound]) -> Key
    ensures { result ≡ known_key_of (numbers_of bound.now) sought.now }
{
    Key {
        subject: known(&sought.subject, bound),
        predicate: known(&sought.predicate, bound),
        object: known(&sought.object, bound),
    }
}

/// The least number that may stand at a place.
fn least(known: u32) -> u32
    ensures { result ≡ least_of known }
{
    if known == NO_NUMBER { 0 } else { known }
}

/// The least number at each place.
fn least_key(known: Key) -> Key
    ensures { result ≡ least_key_of known }
{
    Key {
        subject: least(known.subject),
        predicate: least(known.predicate),
        object: least(known.object),
    }
}

/// The turn that brings the known places to the front.
fn turn_for(known: Key) -> Turn {
    let subject = known.subject != NO_NUMBER;
    let predicate = known.predicate != NO_NUMBER;
    let object = known.object != NO_NUMBER;
    if object && !predicate {
        return Turn::Object;
    }
    if predicate && !subject {
        return Turn::Predicate;
    }
    Turn::Subject
}

/// The keys of a table up to a weight. Mostly the first one is above it, or few are not.
fn front(table: &[Key], turn: Turn, high: u128) -> &[Key]
    requires { IsNonDecreasingBy (weight_of turn) table.now }
    ensures { IsBetween turn 0 high table.now result.now }
{
    if table.is_empty() || weight(turn, table[0]) > high {
        return &table[..0];
    }
    let many = table.partition_point(|key| weight(turn, *key) <= high);
    &table[..many]
}

/// The keys of a table from the one weight to the other.
fn between(table: &[Key], turn: Turn, low: u128, high: u128) -> &[Key]
    requires { IsNonDecreasingBy (weight_of turn) table.now }
    ensures { IsBetween turn low high table.now result.now }
{
    let start = table.partition_point(|key| weight(turn, *key) < low);
    front(&table[start..], turn, high)
}

impl<'a> Lot<'a> {
    /// A pattern with these keys.
    pub fn new(alloc: Global, sought: Sought<'a>, keys: Vec<Key>) -> Result<Lot<'a>, AllocError>
        requires { All IsSmall keys.items }
        ensures { IfOk result (MakesLot sought.entry keys.items) }
    {
        let by_subject = table_of(keys.as_slice(), alloc, Turn::Subject)?;
        let by_predicate = table_of(keys.as_slice(), alloc, Turn::Predicate)?;
        let by_object = table_of(keys.as_slice(), alloc, Turn::Object)?;
        Ok(Lot {
            sought,
            keys,
            by_subject,
            by_predicate,
            by_object,
        })
    }

    /// The keys by their numbers from one place on.
    pub fn table(&self, turn: Turn) -> &[Key]
        requires { IsLot self.now }
        ensures { IsKeyTable turn self.now.keys.items result.now }
    {
        match turn {
            Turn::Subject => self.by_subject.as_slice(),
            Turn::Predicate => self.by_predicate.as_slice(),
            Turn::Object => self.by_object.as_slice(),
        }
    }

    /// What a search by these keys near costs: as many as they are. Where nothing leaves fewer than the whole
    /// list it costs most, since such keys may have nothing to do with what is known.
    pub(crate) fn cost(&self, near: &[Key]) -> usize {
        if near.len() == self.keys.len() {
            usize::MAX
        } else {
            near.len()
        }
    }

    /// The keys that have what is known where it stands. No other is the pattern's instance.
    pub(crate) fn near(&self, bound: &[Bound]) -> &[Key]
        requires { IsLot self.now }
        ensures { Serves (numbers_of bound.now) self.now result.now }
    {
        let known = known_key(&self.sought, bound);
        let turn = turn_for(known);
        between(
            self.table(turn),
            turn,
            weight(turn, least_key(known)),
            weight(turn, known),
        )
    }
}
