//! Which patterns share a variable.
ghost use Rattle.std.specs.Prelude.{◌≡◌, ◌<◌, ◌≤◌, ◌+◌, length, take, drop, MatchOption, true, false};
ghost use Rattle.gs_joins.specs.Choices.{AreIn};
ghost use Rattle.gs_joins.specs.Merges.{IsSameItem};
ghost use Rattle.gs_joins.specs.Links.{is_this_variable, has_variable, one_has, IsApart, Gathers};

use crate::lots::Lot;
use crate::sought::{Item, Sought};

/// Whether two items are one variable.
pub fn is_shared(a: &Item, b: &Item) -> bool
    ensures apart { result ≡ false → IsApart (is_this_variable a.now) (is_this_variable b.now) }
    ensures same { result ≡ true → IsSameItem a.now b.now }
{
    match a {
        Item::Number(_) => false,
        Item::Variable(x) => match b {
            Item::Number(_) => false,
            Item::Variable(y) => x.as_str() == y.as_str(),
        },
    }
}

/// Whether a pattern has this variable.
pub fn has_item(a: &Sought, item: &Item) -> bool
    ensures { result ≡ false → IsApart (has_variable a.now) (is_this_variable item.now) }
{
    is_shared(&a.subject, item) || is_shared(&a.predicate, item) || is_shared(&a.object, item)
}

/// Whether two patterns share a variable.
fn is_linked(a: &Sought, b: &Sought) -> bool
    ensures { result ≡ false → IsApart (has_variable a.now) (has_variable b.now) }
{
    has_item(a, &b.subject) || has_item(a, &b.predicate) || has_item(a, &b.object)
}

/// Whether a pattern shares a variable with one of the lists of these numbers.
fn is_linked_to(lots: &[Lot], front: &[usize], sought: &Sought) -> bool
    requires { AreIn lots.now front.now }
    ensures { result ≡ false → IsApart (one_has lots.now front.now) (has_variable sought.now) }
{
    for i in front {
        if is_linked(&lots[*i].sought, sought) {
            return true;
        }
    }
    false
}

/// The place of the first of these numbers whose list shares a variable with one in front.
fn first_linked(lots: &[Lot], front: &[usize], rest: &[usize]) -> Option<usize>
    requires front { AreIn lots.now front.now }
    requires rest { AreIn lots.now rest.now }
    ensures { MatchOption result (IsApart (one_has lots.now front.now) (one_has lots.now rest.now))
        (λ i. i < length rest.now) }
{
    for (i, number) in rest.iter().enumerate() {
        if is_linked_to(lots, front, &lots[*number].sought) {
            return Some(i);
        }
    }
    None
}

/// The place of the first number after `many` whose list shares a variable with one before.
fn next_linked(lots: &[Lot], order: &[usize], many: usize) -> Option<usize>
    requires order { AreIn lots.now order.now }
    requires many { many ≤ length order.now }
    ensures { MatchOption result
        (IsApart (one_has lots.now (take many order.now)) (one_has lots.now (drop many order.now)))
        (λ i. i + many < length order.now) }
{
    let (front, rest) = order.split_at(many);
    first_linked(lots, front, rest)
}

/// Puts the numbers of the lists that hang together with the first next to it, each after one that it
/// shares a variable with: how many these are, the first among them. They share none with the others.
pub fn gather(lots: &[Lot], order: &mut [usize]) -> usize
    requires order { AreIn lots.now order.old }
    requires some { 0 < length order.old }
    ensures { Gathers lots.now order.old order.new result }
{
    let mut many = 1;
    'lots: while many < order.len() {
        let Some(next) = next_linked(lots, order, many) else {
            return many;
        };
        order.swap(many, many + next);
        many += 1;
    }
    many
}
