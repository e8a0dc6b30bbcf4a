//! Lists of terms that share a bucket. So few terms have 64 buckets, by the last six bits of the hash of a
//! text. Sixteen terms of a bucket are looked at, so one before these is kept again.
use crate::lists::{terms_of, triple};
use crate::outcome::none_wrong;
use gs_model::Refusal;
use gs_term::{TermText, Triple};
use std::alloc::Global;
use std::hash::{FoldHasher, Hasher};
use std::test::Fail;

/// How many triples with objects of one bucket a list has, after which the first of them comes again; and how
/// many terms are kept, with the subject, which is the predicate too.
const ROWS: [(usize, usize); 5] = [(1, 2), (15, 16), (16, 17), (17, 19), (24, 26)];

/// The bucket of a term.
fn bucket_of(term: &TermText) -> u64 {
    let mut hasher = FoldHasher::default();
    hasher.write(term.as_bytes());
    hasher.finish() & 63
}

/// A triple with this object.
fn numbered(alloc: Global, number: u64) -> Result<Triple, Refusal> {
    let text = format!(in alloc; "s s {number}")?;
    triple(alloc, text.as_str())
}

/// Whether the object of a triple is in the bucket after that of its subject.
fn is_next(triple: &Triple) -> bool {
    let bucket = bucket_of(triple.subject()).wrapping_add(1) & 63;
    bucket_of(triple.object()) == bucket
}

/// Adds triples whose objects share a bucket. Of 8,192 objects some 128 do.
fn push_all(alloc: Global, count: usize, triples: &mut Vec<Triple>) -> Result<(), Refusal> {
    for number in 0..8_192 {
        if triples.len() >= count {
            break;
        }
        let one = numbered(alloc, number)?;
        if is_next(&one) {
            triples.push(one)?;
        }
    }
    Ok(())
}

/// The triples of a row.
fn triples(alloc: Global, count: usize) -> Result<Vec<Triple>, Refusal> {
    let mut triples = Vec::new(alloc);
    push_all(alloc, count, &mut triples)?;
    let again = match triples.first() {
        Some(first) => first.clone()?,
        None => return Err(Refusal::Syntax(0)),
    };
    triples.push(again)?;
    Ok(triples)
}

/// Whether a row is right.
fn is_so(alloc: Global, row: &(usize, usize)) -> Result<bool, Refusal> {
    let (count, wanted) = *row;
    let triples = triples(alloc, count)?;
    let are_all = triples.len() == count.saturating_add(1);
    let kept = terms_of(alloc, triples.as_slice());
    drop(triples);
    Ok(are_all && kept? == Some(wanted))
}

/// The number of the first row that is wrong.
fn wrong_row(alloc: Global) -> Result<Option<usize>, Refusal> {
    for (number, row) in ROWS.iter().enumerate() {
        if !is_so(alloc, row)? {
            return Ok(Some(number));
        }
    }
    Ok(None)
}

#[test]
fn a_term_of_a_full_bucket_is_kept_again(rt: HostRuntime) -> Result<(), Fail> {
    none_wrong(wrong_row(rt.alloc()))
}
