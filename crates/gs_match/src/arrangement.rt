//! The order in which the lists of patterns are made.
ghost use Rattle.std.specs.Prelude.{◌<◌, length, IfOk};
ghost use Rattle.std.specs.List.Sorted.{IsPermutation};

use crate::seeds::turn_of;
use gs_joins::{Item, Sought};
use gs_term::VariableName;
use std::alloc::{AllocError, Global};

/// Whether one of the patterns has this variable.
fn is_among(patterns: &[Sought], name: &VariableName) -> bool {
    for one in patterns {
        if turn_of(one, name).is_some() {
            return true;
        }
    }
    false
}

/// How much must be read for the list of a pattern, the least first: its subject is a term, it is a
/// variable of one of those before, or it is neither.
fn rank(sought: &Sought, before: &[Sought]) -> usize {
    match &sought.subject {
        Item::Number(_) => 0,
        Item::Variable(name) => { if is_among(before, name) { 1 } else { 2 } }
    }
}

/// The place of the pattern whose list is made best after those before this place.
fn next_at(patterns: &[Sought], from: usize) -> usize
    requires { from < length patterns.now }
    ensures { result < length patterns.now }
{
    let (before, rest) = patterns.split_at(from);
    let mut best = 0;
    let mut least = usize::MAX;
    for (i, one) in rest.iter().enumerate() {
        let rank = rank(one, before);
        if rank < least {
            best = i;
            least = rank;
        }
    }
    from + best
}

/// The patterns, those with a term as subject first, and then, where there are such, one whose subject
/// stands in a pattern before it: so few keys are read.
pub fn known_first<'a>(
    alloc: Global,
    patterns: &[Sought<'a>],
) -> Result<Vec<Sought<'a>>, AllocError>
    ensures { IfOk result (λ new. IsPermutation patterns.now new.items) }
{
    let mut new = Vec::from_slice(alloc, patterns)?;
    for i in 0..new.len() {
        let best = next_at(new.as_slice(), i);
        new.swap(i, best);
    }
    Ok(new)
}
