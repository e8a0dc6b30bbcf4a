//! What the answer hangs on, whether two lists have keys that go together.
ghost use Rattle.std.specs.Prelude.{◌≡◌, ◌<◌, length};
ghost use Rattle.gs_joins.specs.Numbers.{numbers_of};
ghost use Rattle.gs_joins.specs.Answers.{number_bound, places_of, question_of};

use crate::bindings::{Bound, number_for};
use crate::links::has_item;
use crate::lots::Lot;
use crate::sought::{Item, Sought};

/// The number that is bound to the variable at each place of a pattern, where it is a variable and
/// has one.
#[derive(Clone, Copy, PartialEq, Eq, PartialOrd, Ord)]
pub struct Places {
    pub subject: Option<u32>,
    pub predicate: Option<u32>,
    pub object: Option<u32>,
}

/// The numbers of two lists, and what is known at the places of their patterns.
#[derive(Clone, Copy, PartialEq, Eq, PartialOrd, Ord)]
pub struct Question {
    pub first: usize,
    pub second: usize,
    pub of_first: Places,
    pub of_second: Places,
}

/// The number that is bound to an item, where it is a variable and has one.
fn place(item: &Item, bound: &[Bound]) -> Option<u32>
    ensures { result ≡ number_bound (numbers_of bound.now) item.now }
{
    match item {
        Item::Number(_) => None,
        Item::Variable(name) => number_for(bound, name),
    }
}

/// What is known at the places of a pattern.
fn places_for(sought: &Sought, bound: &[Bound]) -> Places
    ensures { result ≡ places_of (numbers_of bound.now) sought.now }
{
    Places {
        subject: place(&sought.subject, bound),
        predicate: place(&sought.predicate, bound),
        object: place(&sought.object, bound),
    }
}

/// The question of the lists of two numbers.
pub fn question_for(lots: &[Lot], first: usize, second: usize, bound: &[Bound]) -> Question
    requires first { first < length lots.now }
    requires second { second < length lots.now }
    ensures { result ≡ question_of lots.now (numbers_of bound.now) first second }
{
    Question {
        first,
        second,
        of_first: places_for(&lots[first].sought, bound),
        of_second: places_for(&lots[second].sought, bound),
    }
}

impl Places {
    /// Whether something is known.
    fn is_known(&self) -> bool {
        self.subject.is_some() || self.predicate.is_some() || self.object.is_some()
    }

    /// Whether one of these is the number.
    fn has(&self, number: u32) -> bool {
        self.subject == Some(number)
            || self.predicate == Some(number)
            || self.object == Some(number)
    }
}

/// Whether an item is a variable that is not bound and that the other pattern has too.
fn is_open(item: &Item, place: Option<u32>, other: &Sought) -> bool {
    place.is_none() && has_item(other, item)
}

/// Whether the pattern shares a variable that is not bound with the other one.
fn is_joined(one: &Sought, of_one: &Places, other: &Sought) -> bool {
    is_open(&one.subject, of_one.subject, other)
        || is_open(&one.predicate, of_one.predicate, other)
        || is_open(&one.object, of_one.object, other)
}

/// Whether more is bound than the question tells.
fn is_wider(question: &Question, bound: &[Bound]) -> bool {
    for binding in bound {
        if !question.of_first.has(binding.number) && !question.of_second.has(binding.number) {
            return true;
        }
    }
    false
}

/// Whether a question may come again and is worth an answer that is kept: where something is known
/// at both patterns, they share a variable that is not, and more is bound than both have.
pub fn may_repeat(lots: &[Lot], question: &Question, bound: &[Bound]) -> bool
    requires first { question.now.first < length lots.now }
    requires second { question.now.second < length lots.now }
{
    question.of_first.is_known()
        && question.of_second.is_known()
        && is_joined(
            &lots[question.first].sought,
            &question.of_first,
            &lots[question.second].sought,
        )
        && is_wider(question, bound)
}
