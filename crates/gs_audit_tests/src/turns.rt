//! Pages that are turned while entries of the pages before are still there, which no page shows.
use crate::stores::{Small, put, small};
use gs_chronicle::{Entry, Request};
use gs_core::{Action, Event};
use gs_event::Scope;
use gs_model::Refusal;
use gs_term::Target;
use std::alloc::Global;

/// A name; what a new store is asked, `H` for a Head, and a digit for a PUT of so many triples; the number of
/// the page then, the calls that stand in it, and how many entries there are with those of the pages before.
type Row = (&'static str, &'static [u8], u64, &'static [u8], usize);

/// A page has four entries and six triples, so 7 turns it and is not stored. With those of the pages before
/// there are no more entries and triples than that.
const ROWS: [Row; 16] = [
    ("four Heads", b"HHHH", 0, b"HHHH", 4),
    ("a fifth", b"HHHHH", 1, b"H", 4),
    ("two PUTs after four Heads", b"HHHH42", 1, b"42", 4),
    ("two PUTs of too many", b"HHHH43", 2, b"3", 4),
    ("a page without entries", b"HHHH7", 1, b"", 4),
    ("a Head after it", b"HHHH7H", 1, b"H", 4),
    ("two pages without entries", b"HHHH77", 2, b"", 4),
    ("three calls after them", b"HHHH77H4H", 2, b"H4H", 4),
    ("Heads among PUTs", b"1111H7H", 2, b"H", 4),
    (
        "a full page after one that is turned early",
        b"11117222H",
        1,
        b"222H",
        4,
    ),
    ("a page turned for its triples", b"111172222", 2, b"2", 3),
    ("a page turned for its entries", b"6H7H6HHH", 2, b"H", 4),
    ("a PUT in the place of a PUT", b"H47H3", 1, b"H3", 2),
    ("a PUT that takes one apart behind it", b"H473", 1, b"3", 1),
    ("a PUT before a Head that stays", b"4H75", 1, b"5", 2),
    (
        "a PUT that takes the next place apart",
        b"22276",
        1,
        b"6",
        1,
    ),
];

/// Asks what a step says: a Head by the second seat, or a PUT by the first.
fn take_step(alloc: Global, store: &mut Small, step: u8) -> Result<(), Refusal> {
    if step == b'H' {
        let head = Action::Head(Scope::One(Target::Default));
        drop(store.event(Event::Seat(1, head)));
    } else {
        drop(put(alloc, store, step.wrapping_sub(b'0'))?);
    }
    Ok(())
}

/// Whether an entry is that of a step.
fn is_entry(alloc: Global, entry: &Entry, step: u8) -> Result<bool, Refusal> {
    match entry.request() {
        Request::Head(_) => Ok(step == b'H' && entry.seat() == 1),
        Request::Upload(upload) => {
            let count = usize::from(step.wrapping_sub(b'0'));
            let given = upload.to_vec(alloc)?.len();
            Ok(given == count && upload.count() == count && entry.seat() == 0)
        }
        _ => Ok(false),
    }
}

/// Whether a page has exactly the entries of these steps, numbered from 0.
fn has_entries(alloc: Global, store: &Small, steps: &[u8]) -> Result<bool, Refusal> {
    let entries = store.page().entries();
    if entries.len() != steps.len() {
        return Ok(false);
    }
    for (place, entry) in entries.iter().enumerate() {
        let step = steps[place];
        if entry.number() != place as u64 || !is_entry(alloc, entry, step)? {
            return Ok(false);
        }
    }
    Ok(true)
}

/// How many entries there are, with those of the pages before, which a page shows for debugging alone.
fn entries_there(alloc: Global, store: &Small) -> Result<usize, Refusal> {
    let page = store.page();
    let text = format!(in alloc; "{page:?}")?;
    Ok(text.as_str().matches("Entry {").count())
}

/// Whether a row leaves its page, in a store that is lent.
fn is_left(alloc: Global, store: &mut Small, row: &Row) -> Result<bool, Refusal> {
    for step in row.1 {
        take_step(alloc, store, *step)?;
    }
    let is_shown = store.page().number() == row.2 && has_entries(alloc, store, row.3)?;
    Ok(is_shown && entries_there(alloc, store)? == row.4)
}

/// Whether a row leaves its page.
fn is_right(alloc: Global, row: &Row) -> Result<bool, Refusal> {
    let mut store = small(alloc)?;
    let answer = is_left(alloc, &mut store, row);
    drop(store);
    answer
}

/// The name of the first row that leaves another page.
fn wrong_row(alloc: Global) -> Result<Option<&'static str>, Refusal> {
    for row in &ROWS {
        if !is_right(alloc, row)? {
            return Ok(Some(row.0));
        }
    }
    Ok(None)
}

#[test]
fn a_page_has_no_entry_of_the_pages_before(rt: HostRuntime) -> Result<(), Refusal> {
    assert_eq!(&rt; wrong_row(rt.alloc())?, None);
    Ok(())
}
