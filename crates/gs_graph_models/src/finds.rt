//! What patterns find, and what operations make of a graph.
use crate::sets::Set;
use gs_drawn_events::{Edit, Mold, Slot, TRIPLES, VARIABLES, terms_of};

/// The terms that variables stand for, where that is known.
#[derive(Clone, Copy, Drop)]
pub struct Bound {
    terms: [Option<u8>; VARIABLES],
}

impl Bound {
    fn none() -> Bound {
        Bound {
            terms: [None; VARIABLES],
        }
    }

    /// Whether a place can stand for a term; a variable stands for it from then on.
    fn takes(&mut self, slot: Slot, term: u8) -> bool {
        match slot {
            Slot::Term(own) => own == term,
            Slot::Variable(variable) => match self.terms.get_mut(variable) {
                None => false,
                Some(known) => match *known {
                    Some(own) => own == term,
                    None => {
                        *known = Some(term);
                        true
                    }
                },
            },
        }
    }
}

/// The variables after a pattern was laid on a triple, where it fits.
fn laid_on(mold: &Mold, number: usize, before: Bound) -> Option<Bound> {
    let [subject, predicate, object] = mold.slots;
    let [first, second, third] = terms_of(number);
    let mut bound = before;
    let fits = bound.takes(subject, first)
        && bound.takes(predicate, second)
        && bound.takes(object, third);
    if fits { Some(bound) } else { None }
}

/// The triples of a graph that one pattern finds.
fn found_by_one(graph: Set, mold: &Mold) -> Set {
    let mut found = Set::none();
    for number in 0..TRIPLES {
        if graph.has(number) && laid_on(mold, number, Bound::none()).is_some() {
            found = found.and(number);
        }
    }
    found
}

/// The triples that a pattern finds in a graph beside one that the other pattern has found.
fn found_beside(graph: Set, mold: &Mold, bound: Bound) -> Set {
    let mut found = Set::none();
    for number in 0..TRIPLES {
        if graph.has(number) && laid_on(mold, number, bound).is_some() {
            found = found.and(number);
        }
    }
    found
}

/// The triples of a graph that two patterns find together.
fn found_by_two(graph: Set, first: &Mold, second: &Mold) -> Set {
    let mut found = Set::none();
    for number in 0..TRIPLES {
        if graph.has(number)
            && let Some(bound) = laid_on(first, number, Bound::none())
        {
            let beside = found_beside(graph, second, bound);
            if beside != Set::none() {
                found = found.and(number).with(beside);
            }
        }
    }
    found
}

/// The instances in a graph of one pattern, or of two.
fn instances(graph: Set, first: &Mold, second: &Option<Mold>) -> Set {
    match second {
        None => found_by_one(graph, first),
        Some(second) => found_by_two(graph, first, second),
    }
}

/// What an operation makes of a graph.
pub fn edited(triples: Set, edit: &Edit) -> Set {
    match edit {
        Edit::Insert(numbers) => triples.with(Set::of(numbers.as_slice())),
        Edit::Remove(numbers) => triples.without(Set::of(numbers.as_slice())),
        Edit::Where(first, second) => triples.without(instances(triples, first, second)),
    }
}
