//! Lists of many terms. Each is written twice over, so that each of its terms comes again once there are more
//! buckets: 64 with the first term that is in a chain, 256 with the 65th, and 1,024 with the 257th. Two of the
//! terms that come before a row's own are in chains.
use crate::lists::{terms_of, triple};
use crate::outcome::none_wrong;
use gs_model::Refusal;
use gs_term::Triple;
use std::alloc::Global;
use std::test::Fail;

/// Where each triple of a list has a term of its own.
#[derive(Clone, Copy)]
enum Place {
    Subject,
    Predicate,
    Object,
    All,
}

/// A place, how many triples a list has, and how many terms are kept of it.
type Row = (Place, u64, usize);

const ROWS: [Row; 14] = [
    (Place::Object, 59, 61),
    (Place::Object, 60, 62),
    (Place::Object, 61, 63),
    (Place::Object, 251, 253),
    (Place::Object, 252, 254),
    (Place::Object, 253, 255),
    (Place::Object, 1_020, 1_022),
    (Place::Object, 1_021, 1_023),
    (Place::Subject, 61, 63),
    (Place::Subject, 253, 255),
    (Place::Predicate, 61, 63),
    (Place::Predicate, 253, 255),
    (Place::All, 22, 66),
    (Place::All, 86, 258),
];

/// The triple of this number.
fn numbered(alloc: Global, place: Place, number: u64) -> Result<Triple, Refusal> {
    let text = match place {
        Place::Subject => format!(in alloc; "{number} p o")?,
        Place::Predicate => format!(in alloc; "s {number} o")?,
        Place::Object => format!(in alloc; "s p {number}")?,
        Place::All => format!(in alloc; "s{number} p{number} o{number}")?,
    };
    triple(alloc, text.as_str())
}

/// Adds so many triples.
fn push_all(
    alloc: Global,
    place: Place,
    count: u64,
    triples: &mut Vec<Triple>,
) -> Result<(), Refusal> {
    for number in 0..count {
        triples.push(numbered(alloc, place, number)?)?;
    }
    Ok(())
}

/// The triples of a row, twice over.
fn triples(alloc: Global, place: Place, count: u64) -> Result<Vec<Triple>, Refusal> {
    let mut triples = Vec::new(alloc);
    push_all(alloc, place, count, &mut triples)?;
    push_all(alloc, place, count, &mut triples)?;
    Ok(triples)
}

/// Whether a row is right.
fn is_so(alloc: Global, row: &Row) -> Result<bool, Refusal> {
    let (place, count, wanted) = *row;
    let triples = triples(alloc, place, count)?;
    let kept = terms_of(alloc, triples.as_slice());
    drop(triples);
    Ok(kept? == Some(wanted))
}

/// The number of the first row that is wrong.
fn wrong_row(alloc: Global) -> Result<Option<usize>, Refusal> {
    for (number, row) in ROWS.iter().enumerate() {
        if !is_so(alloc, row)? {
            return Ok(Some(number));
        }
    }
    Ok(None)
}

#[test]
fn many_terms_are_kept_once(rt: HostRuntime) -> Result<(), Fail> {
    none_wrong(wrong_row(rt.alloc()))
}
