//! Uploads by the lengths of their lists, and what the page has of them. Lists are staged as the lock does
//! it, with their small forms, or without, as where memory was refused for a small form.
use crate::stores::{Wide, cats, numbered, wide};
use gs_audit::{Form, count_of};
use gs_chronicle::{Request, Upload};
use gs_core::{Action, Answer, Event, UploadKind};
use gs_model::Refusal;
use gs_triple_lists::TripleList;
use std::alloc::Global;

/// Which lists of an upload have their small forms.
#[derive(Clone, Copy, PartialEq, Eq)]
enum Forms {
    All,
    Even,
    None,
}

/// A name, and the lengths of the lists of an upload. Where all have their small forms: how many are kept by
/// these, and how many times others are gathered between them. A list of fewer than 32 triples is gathered
/// where a triple came before it.
type Row = (&'static str, &'static [usize], [usize; 2]);

const ROWS: [Row; 15] = [
    ("a short list", &[1], [1, 0]),
    ("a long list", &[40], [1, 0]),
    ("no triples", &[0], [0, 0]),
    ("three short lists", &[1, 1, 1], [1, 1]),
    ("a short list between long ones", &[40, 1, 40], [2, 1]),
    ("short and long lists in turn", &[1, 40, 1, 40], [3, 1]),
    ("two of the longest short lists", &[31, 31], [1, 1]),
    ("the shortest long list", &[32], [1, 0]),
    (
        "the shortest long list between short ones",
        &[1, 32, 1],
        [2, 1],
    ),
    ("no triples first", &[0, 5], [1, 0]),
    ("no triples last", &[5, 0], [1, 0]),
    ("no triples before a long list", &[5, 0, 40], [2, 0]),
    ("no triples before a short list", &[5, 0, 3], [1, 1]),
    (
        "no triples among short lists",
        &[5, 2, 0, 3, 40, 0, 4],
        [2, 2],
    ),
    (
        "long lists and short ones after them",
        &[40, 33, 2, 300, 3, 31, 30],
        [3, 2],
    ),
];

/// Whether the list with this place in an upload has its small form.
fn has_form(forms: Forms, place: usize) -> bool {
    match forms {
        Forms::All => true,
        Forms::Even => place % 2 == 0,
        Forms::None => false,
    }
}

/// Whether an event has a list of so many triples.
fn has_list(event: &Event, count: usize) -> bool {
    match event {
        Event::Seat(_, Action::Stage(list)) => list.len() == count,
        _ => false,
    }
}

/// Whether a list is staged by its small form, and stays with its event.
fn is_staged_small(alloc: Global, store: &mut Wide, list: TripleList) -> bool {
    let count = list.len();
    let mut event = Event::Seat(0, Action::Stage(list));
    let form = Form::of(alloc, &event);
    let size = count_of(&event);
    let answer = store.event_with(&mut event, form, size);
    let is_right = matches!(answer, Answer::Staged) && has_list(&event, count);
    drop(answer);
    drop(event);
    is_right
}

/// Whether a list is staged.
fn is_staged(store: &mut Wide, list: TripleList) -> bool {
    let answer = store.event(Event::Seat(0, Action::Stage(list)));
    let is_right = matches!(answer, Answer::Staged);
    drop(answer);
    is_right
}

/// Whether lists of these lengths are staged to an open upload, whose triples are numbered from 0.
fn are_staged(
    alloc: Global,
    store: &mut Wide,
    counts: &[usize],
    forms: Forms,
) -> Result<bool, Refusal> {
    let mut first = 0usize;
    for (place, count) in counts.iter().enumerate() {
        let list = TripleList::of(alloc, numbered(alloc, first, *count)?)?;
        let is_right = if has_form(forms, place) {
            is_staged_small(alloc, store, list)
        } else {
            is_staged(store, list)
        };
        if !is_right {
            return Ok(false);
        }
        first = first.saturating_add(*count);
    }
    Ok(true)
}

/// How many triples lists of these lengths have.
fn sum_of(counts: &[usize]) -> usize {
    let mut sum = 0usize;
    for count in counts {
        sum = sum.saturating_add(*count);
    }
    sum
}

/// The upload of the last entry of a page.
fn last_upload(store: &Wide) -> Option<&Upload> {
    match store.page().entries().last() {
        Some(entry) => match entry.request() {
            Request::Upload(upload) => Some(upload),
            _ => None,
        },
        None => None,
    }
}

/// Whether the last upload of a page has just the triples of lists of these lengths, in their order. Each of
/// these triples counts as two.
pub fn is_stored(alloc: Global, store: &Wide, counts: &[usize]) -> Result<bool, Refusal> {
    let Some(upload) = last_upload(store) else {
        return Ok(false);
    };
    let wanted = numbered(alloc, 0, sum_of(counts))?;
    let stored = upload.to_vec(alloc)?;
    Ok(stored.as_slice() == wanted.as_slice() && upload.count() == wanted.len().saturating_mul(2))
}

/// Whether the last upload of a page keeps lists in these numbers. They are counted in what is written of it
/// for debugging.
fn is_kept_by(alloc: Global, store: &Wide, kept: [usize; 2]) -> Result<bool, Refusal> {
    let Some(upload) = last_upload(store) else {
        return Ok(false);
    };
    let text = format!(in alloc; "{upload:?}")?;
    let small = text.as_str().matches("Small(").count();
    let gathered = text.as_str().matches("Gathered(").count();
    Ok([small, gathered] == kept)
}

/// Whether the upload of a row is stored as it was staged, in a store that is lent, and where all lists
/// have their small forms is kept as the row says.
fn is_right(alloc: Global, store: &mut Wide, row: &Row, forms: Forms) -> Result<bool, Refusal> {
    let kind = UploadKind::Put(cats(alloc)?);
    drop(store.event(Event::Seat(0, Action::Open(kind, None))));
    if !are_staged(alloc, store, row.1, forms)? {
        return Ok(false);
    }
    drop(store.event(Event::Seat(0, Action::Commit)));
    let is_kept = forms != Forms::All || is_kept_by(alloc, store, row.2)?;
    Ok(is_kept && is_stored(alloc, store, row.1)?)
}

/// The same, in a store of its own.
fn is_right_alone(alloc: Global, row: &Row, forms: Forms) -> Result<bool, Refusal> {
    let mut store = wide(alloc)?;
    let answer = is_right(alloc, &mut store, row, forms);
    drop(store);
    answer
}

/// The name of the first row that is wrong.
fn wrong_row(alloc: Global, forms: Forms) -> Result<Option<&'static str>, Refusal> {
    for row in &ROWS {
        if !is_right_alone(alloc, row, forms)? {
            return Ok(Some(row.0));
        }
    }
    Ok(None)
}

/// The name of the first row that is wrong where all are done in one store, twice. Each page after the
/// first takes the places of uploads of the page before, and uses their blocks.
fn wrong_row_together(alloc: Global, store: &mut Wide) -> Result<Option<&'static str>, Refusal> {
    for row in ROWS.iter().chain(ROWS.iter()) {
        if !is_right(alloc, store, row, Forms::All)? {
            return Ok(Some(row.0));
        }
    }
    Ok(None)
}

#[test]
fn uploads_in_the_blocks_of_former_ones_are_stored_as_they_were_staged(
    rt: HostRuntime,
) -> Result<(), Refusal> {
    let mut store = wide(rt.alloc())?;
    let wrong = wrong_row_together(rt.alloc(), &mut store);
    drop(store);
    assert_eq!(&rt; wrong?, None);
    Ok(())
}

#[test]
fn lists_with_small_forms_are_stored_as_they_were_staged(rt: HostRuntime) -> Result<(), Refusal> {
    assert_eq!(&rt; wrong_row(rt.alloc(), Forms::All)?, None);
    Ok(())
}

#[test]
fn lists_are_stored_where_some_have_small_forms(rt: HostRuntime) -> Result<(), Refusal> {
    assert_eq!(&rt; wrong_row(rt.alloc(), Forms::Even)?, None);
    Ok(())
}

#[test]
fn lists_without_small_forms_are_stored_as_they_were_staged(
    rt: HostRuntime,
) -> Result<(), Refusal> {
    assert_eq!(&rt; wrong_row(rt.alloc(), Forms::None)?, None);
    Ok(())
}
