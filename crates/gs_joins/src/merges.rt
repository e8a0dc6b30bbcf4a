//! Two slices of keys gone through together, by the numbers of a variable that both lists have.
ghost use Rattle.std.specs.Prelude.{◌≡◌, ◌≢◌, ◌<◌, ◌≤◌, ℕ, true, false, length, MatchOption};
ghost use Rattle.std.specs.List.Sorted.{IsNonDecreasingBy};
ghost use Rattle.gs_pool.specs.declared.nodes.Key.{Key};
ghost use Rattle.gs_joins.specs.Lots.{first_of};
ghost use Rattle.gs_joins.specs.Merges.{IsItemAt, IsJoint, SkipsLess, IsNotAt};

use crate::bindings::{Bound, NO_NUMBER, known};
use crate::links::is_shared;
use crate::sought::{Item, Sought};
use crate::weights::{Turn, first_number};
use gs_pool::Key;

/// Where two patterns have a variable that both share.
#[derive(Clone, Copy)]
pub struct Joint {
    pub one: Turn,
    pub other: Turn,
}

/// Where a pattern has this variable.
fn turn_of_item(sought: &Sought, item: &Item) -> Option<Turn>
    ensures { MatchOption result (Unit {0}) (IsItemAt sought.now item.now) }
{
    if is_shared(&sought.subject, item) {
        return Some(Turn::Subject);
    }
    if is_shared(&sought.predicate, item) {
        return Some(Turn::Predicate);
    }
    if is_shared(&sought.object, item) {
        return Some(Turn::Object);
    }
    None
}

/// Where two patterns have a variable that both share and that is not known: the first in the one
/// pattern, whichever place the first one is that is not known.
pub fn joint_of(one: &Sought, other: &Sought, bound: &[Bound]) -> Option<Joint>
    ensures { MatchOption result (Unit {0}) (IsJoint one.now other.now) }
{
    if known(&one.subject, bound) == NO_NUMBER {
        let turn = turn_of_item(other, &one.subject)?;
        return Some(Joint {
            one: Turn::Subject,
            other: turn,
        });
    }
    if known(&one.predicate, bound) == NO_NUMBER {
        let turn = turn_of_item(other, &one.predicate)?;
        return Some(Joint {
            one: Turn::Predicate,
            other: turn,
        });
    }
    let turn = turn_of_item(other, &one.object)?;
    Some(Joint {
        one: Turn::Object,
        other: turn,
    })
}

/// Whether the numbers at one place of the keys do not fall.
pub fn is_rising(keys: &[Key], turn: Turn) -> bool
    ensures { result ≡ true → IsNonDecreasingBy (first_of turn) keys.now }
{
    let mut last = 0;
    for key in keys {
        let number = first_number(turn, *key);
        if number < last {
            return false;
        }
        last = number;
    }
    true
}

/// The first place, from this one on, whose key has no less than this number.
pub fn from_number(keys: &[Key], turn: Turn, from: usize, number: u32) -> usize
    requires { from ≤ length keys.now }
    ensures { SkipsLess turn keys.now from number result }
{
    let mut at = from;
    while at < keys.len() && first_number(turn, keys[at]) < number {
        at += 1;
    }
    at
}

/// Whether the key at this place has this number.
pub fn has_number(keys: &[Key], turn: Turn, at: usize, number: u32) -> bool
    ensures { result ≡ false → IsNotAt turn keys.now at number }
{
    at < keys.len() && first_number(turn, keys[at]) == number
}
