//! Lists that are put in order, and what they give then.
use crate::lists::triple;
use crate::outcome::none_wrong;
use gs_model::Refusal;
use gs_triple_lists::{TripleList, TripleNumbers};
use std::alloc::Global;
use std::test::Fail;

/// How a list stands: not in order, as it came, or sorted, each triple once.
#[derive(Clone, Copy, PartialEq, Eq)]
enum Given {
    Nothing,
    AsItCame,
    Sorted,
}

/// Triples `s p NUMBER` by their first number, their count, and the step to the next number, which is up or
/// down; and what the list gives. A number has six digits, so that texts rise as numbers do.
type Row = (u64, u64, bool, Given);

const ROWS: [Row; 7] = [
    (100_000, 0, true, Given::AsItCame),
    (100_000, 1, true, Given::AsItCame),
    (100_000, 2, true, Given::AsItCame),
    (100_000, 4_097, true, Given::AsItCame),
    (200_000, 2, false, Given::Nothing),
    (200_000, 4_096, false, Given::Nothing),
    (200_000, 4_097, false, Given::Sorted),
];

/// The number of the triple at a place.
fn number_at(row: &Row, place: u64) -> u64 {
    let (first, _, is_up, _) = *row;
    if is_up {
        first.saturating_add(place)
    } else {
        first.saturating_sub(place)
    }
}

/// Adds the triples of a row.
fn push_all(alloc: Global, row: &Row, list: &mut TripleList) -> Result<(), Refusal> {
    for place in 0..row.1 {
        let number = number_at(row, place);
        let text = format!(in alloc; "s p {number}")?;
        list.push(triple(alloc, text.as_str())?)?;
    }
    Ok(())
}

/// Whether numbers are those of a list from its end to its start.
fn is_mirrored(came: &[TripleNumbers], sorted: &[TripleNumbers]) -> bool {
    let pairs = came.iter().rev().zip(sorted.iter());
    let mut is_so = came.len() == sorted.len();
    for (one, other) in pairs {
        is_so = is_so && one.object == other.object;
    }
    is_so
}

/// Whether numbers are those of a list, at their places.
fn is_same(came: &[TripleNumbers], given: &[TripleNumbers]) -> bool {
    let mut is_so = came.len() == given.len();
    for (one, other) in came.iter().zip(given.iter()) {
        is_so = is_so && one.object == other.object;
    }
    is_so
}

/// Whether a list gives this.
fn gives(list: &TripleList, wanted: Given) -> bool {
    let (_, came) = list.parts();
    match list.ordered_parts() {
        None => wanted == Given::Nothing,
        Some((_, numbers)) => match wanted {
            Given::Nothing => false,
            Given::AsItCame => is_same(came, numbers),
            Given::Sorted => is_mirrored(came, numbers),
        },
    }
}

/// Whether a list of a row gives what it has to, and nothing before and after one triple more.
fn is_right(alloc: Global, row: &Row, list: &mut TripleList) -> Result<bool, Refusal> {
    push_all(alloc, row, list)?;
    let is_first = gives(list, Given::Nothing);
    list.put_in_order()?;
    let is_put = gives(list, row.3);
    list.push(triple(alloc, "s p 000000")?)?;
    Ok(is_first && is_put && gives(list, Given::Nothing))
}

/// The same of a new list.
fn is_so(alloc: Global, row: &Row) -> Result<bool, Refusal> {
    let mut list = TripleList::new(alloc);
    let answer = is_right(alloc, row, &mut list);
    drop(list);
    answer
}

/// The number of the first row that is wrong.
fn wrong_row(alloc: Global) -> Result<Option<usize>, Refusal> {
    for (number, row) in ROWS.iter().enumerate() {
        if !is_so(alloc, row)? {
            return Ok(Some(number));
        }
    }
    Ok(None)
}

#[test]
fn a_list_that_rises_or_is_long_is_put_in_order(rt: HostRuntime) -> Result<(), Fail> {
    none_wrong(wrong_row(rt.alloc()))
}
