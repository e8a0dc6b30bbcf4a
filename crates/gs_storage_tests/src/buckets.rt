//! Terms by the buckets that their hashes choose: many of one bucket, and guesses for terms alone in theirs.
use crate::outcome::none_wrong;
use crate::terms::term;
use gs_dict::{Dict, GUESSED_TOGETHER, TermId};
use gs_model::Refusal;
use gs_term::TermText;
use std::alloc::Global;
use std::hash::{FoldHasher, Hasher};
use std::test::Fail;

/// A hasher that has been given the seed.
fn seeded(seed: u64) -> FoldHasher {
    let mut hasher = FoldHasher::default();
    hasher.write_u64(seed);
    hasher
}

/// The first ten bits of a term's hash: what chooses among 1,024 buckets.
fn bucket(seeded: FoldHasher, term: &TermText) -> u64 {
    let mut hasher = seeded;
    hasher.write(term.as_bytes());
    hasher.finish() & 1_023
}

/// Gives terms numbers.
fn intern_all(dict: &mut Dict, terms: &[TermText]) -> Result<(), Refusal> {
    for term in terms {
        dict.intern(term)?;
    }
    Ok(())
}

/// Adds those of 16,000 terms that are of one bucket.
fn push_of_one_bucket(alloc: Global, terms: &mut Vec<TermText>) -> Result<(), Refusal> {
    let hasher = seeded(7);
    for drawn in 0..16_000u64 {
        let candidate = term(alloc, drawn)?;
        if bucket(hasher, &candidate) == 5 {
            terms.push(candidate)?;
        }
    }
    Ok(())
}

/// The place of the first of these terms that does not have it as its number, or how many they are where
/// they are not more than eight, or the dictionary has not as many.
fn first_misnumbered(dict: &Dict, terms: &[TermText]) -> Option<usize> {
    for (i, wanted) in terms.iter().enumerate() {
        match dict.find(wanted) {
            Some(id) if id.number as usize == i => {}
            _ => return Some(i),
        }
    }
    let are_counted = terms.len() > 8 && dict.len() == terms.len();
    if are_counted { None } else { Some(terms.len()) }
}

/// The same of terms of one bucket.
fn first_not_apart(
    alloc: Global,
    dict: &mut Dict,
    terms: &mut Vec<TermText>,
) -> Result<Option<usize>, Refusal> {
    push_of_one_bucket(alloc, terms)?;
    intern_all(dict, terms)?;
    Ok(first_misnumbered(dict, terms))
}

#[test]
fn crafted_terms_of_one_bucket_keep_apart(rt: HostRuntime) -> Result<(), Fail> {
    let mut dict = Dict::new(rt.alloc(), 7, u32::MAX)?;
    let mut terms: Vec<TermText> = Vec::new(rt.alloc());
    let first = first_not_apart(rt.alloc(), &mut dict, &mut terms);
    drop(terms);
    drop(dict);
    none_wrong(first)
}

/// An IRI or a literal.
fn iri_or_literal(alloc: Global, drawn: u64) -> Result<TermText, Refusal> {
    if drawn % 2 == 0 {
        return term(alloc, drawn);
    }
    let text = format!(in alloc; "{drawn}")?;
    TermText::literal(alloc, text.as_str(), None, None)
}

/// Whether no term is of this bucket.
fn is_alone(hasher: FoldHasher, terms: &[TermText], place: u64) -> bool {
    for term in terms {
        if bucket(hasher, term) == place {
            return false;
        }
    }
    true
}

/// Adds as many terms of two kinds as are guessed together twice, no two of them of one bucket.
fn push_alone(alloc: Global, terms: &mut Vec<TermText>) -> Result<(), Refusal> {
    let hasher = seeded(11);
    for drawn in 0..1_000u64 {
        let candidate = iri_or_literal(alloc, drawn)?;
        let place = bucket(hasher, &candidate);
        if terms.len() < 2 * GUESSED_TOGETHER && is_alone(hasher, terms, place) {
            terms.push(candidate)?;
        }
    }
    Ok(())
}

/// Guesses for these terms, and for the first again where they are fewer than are guessed together.
fn guesses(dict: &Dict, terms: &[TermText]) -> Option<[TermId; GUESSED_TOGETHER]> {
    let mut asked = [terms.first()?; GUESSED_TOGETHER];
    for (i, term) in terms.iter().enumerate() {
        if i < GUESSED_TOGETHER {
            asked[i] = term;
        }
    }
    Some(dict.guesses(&asked))
}

/// Whether the guesses for these terms are numbers that were not given.
fn are_new(dict: &Dict, terms: &[TermText]) -> bool {
    let Some(found) = guesses(dict, terms) else {
        return false;
    };
    for id in &found {
        if dict.has(*id) {
            return false;
        }
    }
    true
}

/// Whether the guesses for these terms are 0, 1, 2 and so on.
fn are_known(dict: &Dict, terms: &[TermText]) -> bool {
    let Some(found) = guesses(dict, terms) else {
        return false;
    };
    for (i, id) in found.iter().enumerate() {
        if id.number as usize != i {
            return false;
        }
    }
    true
}

/// Which guesses for terms are wrong, before or after those of the first half are given numbers.
fn wrong_guesses(dict: &mut Dict, terms: &[TermText]) -> Result<Option<&'static str>, Refusal> {
    let (known, others) = terms.split_at(GUESSED_TOGETHER.min(terms.len()));
    if others.len() != GUESSED_TOGETHER {
        return Ok(Some("those for too few terms"));
    }
    if !are_new(dict, known) {
        return Ok(Some("the first ones, of no terms"));
    }
    intern_all(dict, known)?;
    if !are_known(dict, known) {
        return Ok(Some("those for the terms that are there"));
    }
    Ok(if are_new(dict, others) {
        None
    } else {
        Some("those for the others")
    })
}

/// The same of terms alone in their buckets.
fn wrong_guesses_alone(
    alloc: Global,
    dict: &mut Dict,
    terms: &mut Vec<TermText>,
) -> Result<Option<&'static str>, Refusal> {
    push_alone(alloc, terms)?;
    wrong_guesses(dict, terms)
}

/// For a term of an empty bucket a number is guessed that was not given.
#[test]
fn terms_alone_in_their_buckets_are_guessed(rt: HostRuntime) -> Result<(), Fail> {
    let mut dict = Dict::new(rt.alloc(), 11, u32::MAX)?;
    let mut terms: Vec<TermText> = Vec::new(rt.alloc());
    let wrong = wrong_guesses_alone(rt.alloc(), &mut dict, &mut terms);
    drop(terms);
    drop(dict);
    none_wrong(wrong)
}
