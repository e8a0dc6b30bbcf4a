//! Ranges of keys: those that begin with known numbers.
ghost use Rattle.std.specs.Prelude.{◌≡◌, ◌≤◌, length};
ghost use Rattle.gs_dict.specs.Numbering.{IsDistinct};
ghost use Rattle.gs_keys.specs.Roots.{IsGraphAt};
ghost use Rattle.gs_joins.specs.Numbers.{no_number, numbers_of};
ghost use Rattle.gs_match.specs.Ranges.{is_at as is_at_of, key_in_range, range_for, IsRange, Covers, StartsAt};

use gs_joins::{Bound, NO_NUMBER, Sought, known};
use gs_keys::ByText;
use gs_pool::{Key, Pool};
use gs_tree::{after, contains};

/// The keys of a root, in the order of their texts.
#[derive(Clone, Copy)]
pub struct Keys<'a> {
    pub pool: &'a Pool,
    pub root: Option<u32>,
    pub order: ByText<'a>,
}

/// The range of keys that may be the pattern's instances: those that begin with its known numbers,
/// the subject's, and then the predicate's, and then the object's. The first that is not known, and
/// all after it, are `NO_NUMBER`.
pub fn range_of(sought: &Sought, bound: &[Bound]) -> Key
    ensures value { result ≡ range_for (numbers_of bound.now) sought.now }
    ensures form { IsRange result }
    ensures covers { Covers result (numbers_of bound.now) sought.now }
{
    let subject = known(&sought.subject, bound);
    let mut range = Key {
        subject,
        predicate: NO_NUMBER,
        object: NO_NUMBER,
    };
    if subject == NO_NUMBER {
        return range;
    }
    range.predicate = known(&sought.predicate, bound);
    if range.predicate == NO_NUMBER {
        return range;
    }
    range.object = known(&sought.object, bound);
    range
}

/// Whether a number may stand at a place of a range.
fn is_at(place: u32, number: u32) -> bool
    ensures { result ≡ is_at_of place number }
{
    place == NO_NUMBER || place == number
}

/// Whether a key is in a range.
pub fn is_in_range(range: Key, key: Key) -> bool
    ensures { result ≡ key_in_range range key }
{
    is_at(range.subject, key.subject)
        && is_at(range.predicate, key.predicate)
        && is_at(range.object, key.object)
}

/// The first key of a range, or one above the range, where there is either. Where the range is one
/// key, it is looked up. Else `NO_NUMBER` has no text, so the range itself, as a key, is below its
/// keys and above all that are below them.
pub fn first_in(keys: &Keys, range: Key) -> Option<Key>
    requires graph { IsGraphAt keys.now.order.dict.now.terms keys.now.pool.now keys.now.root }
    requires distinct { IsDistinct keys.now.order.dict.now.terms }
    requires few { length keys.now.order.dict.now.terms ≤ no_number }
    requires form { IsRange range }
    ensures { StartsAt keys.now range result }
{
    if range.object == NO_NUMBER {
        return after(keys.pool, &keys.order, keys.root, range);
    }
    if contains(keys.pool, &keys.order, keys.root, range) {
        Some(range)
    } else {
        None
    }
}
