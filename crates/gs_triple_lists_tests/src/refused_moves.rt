//! Lists that take the triples of another one, where a request for memory is refused. With memory these show
//! the usual answers; `rt try --test --fail-alloc N` refuses the request of that number.
use crate::lists::{has_both, has_just, push_each, triples};
use crate::outcome::none_wrong;
use gs_model::Refusal;
use gs_term::Triple;
use gs_triple_lists::TripleList;
use std::alloc::Global;
use std::test::Fail;

/// The triples of a list, and those of the other one. The second row makes more buckets on the way: more than
/// 64 terms come after the first 16.
const ROWS: [(&str, &str); 3] = [
    ("", "g"),
    ("f, a p b", "g, h, i, j, a p b, c p a"),
    ("a p b", "g"),
];

/// Takes the triples of a new list, and says whether that was refused, which has to leave the list with just
/// those that it had.
fn is_refused(
    alloc: Global,
    list: &mut TripleList,
    own: &[Triple],
    given: &[Triple],
) -> Result<Option<bool>, Refusal> {
    let mut other = TripleList::new(alloc);
    let pushed = push_each(&mut other, given);
    let taken = list.take_from(&mut other);
    drop(other);
    pushed?;
    match taken {
        Ok(()) => Ok(Some(false)),
        Err(_) => Ok(if has_just(list, own) {
            Some(true)
        } else {
            None
        }),
    }
}

/// Whether a list takes triples after its own, at once or again where memory was refused.
fn takes(
    alloc: Global,
    list: &mut TripleList,
    own: &[Triple],
    given: &[Triple],
) -> Result<bool, Refusal> {
    push_each(list, own)?;
    let is_taken = match is_refused(alloc, list, own, given)? {
        None => false,
        Some(false) => true,
        Some(true) => is_refused(alloc, list, own, given)? == Some(false),
    };
    Ok(is_taken && has_both(list, own, given))
}

/// The same of a new list.
fn takes_in_new(alloc: Global, own: &[Triple], given: &[Triple]) -> Result<bool, Refusal> {
    let mut list = TripleList::new(alloc);
    let answer = takes(alloc, &mut list, own, given);
    drop(list);
    answer
}

/// Whether a row is right.
fn is_so(alloc: Global, row: &(&str, &str)) -> Result<bool, Refusal> {
    let own = triples(alloc, row.0)?;
    let given = triples(alloc, row.1)?;
    let answer = takes_in_new(alloc, own.as_slice(), given.as_slice());
    drop(given);
    drop(own);
    answer
}

/// The number of the first row that is wrong.
fn wrong_row(alloc: Global) -> Result<Option<usize>, Refusal> {
    for (number, row) in ROWS.iter().enumerate() {
        if !is_so(alloc, row)? {
            return Ok(Some(number));
        }
    }
    Ok(None)
}

#[test]
fn refused_triples_are_not_taken(rt: HostRuntime) -> Result<(), Fail> {
    none_wrong(wrong_row(rt.alloc()))
}
