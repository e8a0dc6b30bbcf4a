//! Worked rows: what is done to a new store, and the page that it leaves.
use crate::stores::{Small, Wide, cats, put, small, triples, wide};
use gs_chronicle::Request;
use gs_core::{Action, Answer, Event, UploadKind};
use gs_event::Scope;
use gs_model::Refusal;
use gs_term::Target;
use gs_triple_lists::TripleList;
use std::alloc::Global;

/// So many Heads of the default graph, and then a PUT of each of these numbers of triples, 0 for none;
/// the status of the last commit, 0 where there was none; and the page that is left.
struct Row {
    name: &'static str,
    heads: u8,
    puts: [u8; 2],
    status: u16,
    number: u64,
    entries: usize,
}

const ROWS: [Row; 5] = [
    Row {
        name: "four Heads fit",
        heads: 4,
        puts: [0, 0],
        status: 0,
        number: 0,
        entries: 4,
    },
    Row {
        name: "the fifth Head turns the page",
        heads: 5,
        puts: [0, 0],
        status: 0,
        number: 1,
        entries: 1,
    },
    Row {
        name: "four triples and two fit",
        heads: 0,
        puts: [4, 2],
        status: 204,
        number: 0,
        entries: 2,
    },
    Row {
        name: "four triples and three turn the page",
        heads: 0,
        puts: [4, 3],
        status: 204,
        number: 1,
        entries: 1,
    },
    Row {
        name: "seven triples are not stored, and turn the page",
        heads: 0,
        puts: [7, 0],
        status: 201,
        number: 1,
        entries: 0,
    },
];

/// The status of an answer to a commit, 0 for another answer.
fn status_in(answer: &Answer) -> u16 {
    match answer {
        Answer::Status(status, _, _) => *status,
        _ => 0,
    }
}

/// The status of a PUT of so many triples.
fn status_of(alloc: Global, store: &mut Small, count: u8) -> Result<u16, Refusal> {
    let answer = put(alloc, store, count)?;
    let status = status_in(&answer);
    drop(answer);
    Ok(status)
}

/// Whether a row leaves its page, in a store that is lent.
fn is_left(alloc: Global, store: &mut Small, row: &Row) -> Result<bool, Refusal> {
    for _ in 0..row.heads {
        let head = Action::Head(Scope::One(Target::Default));
        drop(store.event(Event::Seat(1, head)));
    }
    let mut status = 0;
    for count in &row.puts {
        if *count > 0 {
            status = status_of(alloc, store, *count)?;
        }
    }
    let page = store.page();
    Ok(status == row.status && page.number() == row.number && page.entries().len() == row.entries)
}

/// Whether a row leaves its page.
fn is_right(alloc: Global, row: &Row) -> Result<bool, Refusal> {
    let mut store = small(alloc)?;
    let answer = is_left(alloc, &mut store, row);
    drop(store);
    answer
}

/// The name of the first row that leaves another page.
fn wrong_row(alloc: Global) -> Result<Option<&'static str>, Refusal> {
    for row in &ROWS {
        if !is_right(alloc, row)? {
            return Ok(Some(row.name));
        }
    }
    Ok(None)
}

/// As how many triples the last entry of a page counts.
fn last_triples(store: &Small) -> Option<usize> {
    match store.page().entries().last() {
        Some(entry) => Some(entry.request().triples()),
        None => None,
    }
}

/// What is answered otherwise to a Stage of no triples and its Commit, or the entry where it counts any.
fn wrong_of_none(alloc: Global, store: &mut Small) -> Result<Option<&'static str>, Refusal> {
    let kind = UploadKind::Put(cats(alloc)?);
    drop(store.event(Event::Seat(0, Action::Open(kind, None))));
    let none = Action::Stage(TripleList::new(alloc));
    let stage = store.event(Event::Seat(0, none));
    let is_staged = matches!(stage, Answer::Staged);
    drop(stage);
    let commit = store.event(Event::Seat(0, Action::Commit));
    let status = status_in(&commit);
    drop(commit);
    if !is_staged {
        return Ok(Some("the Stage"));
    }
    if status != 201 {
        return Ok(Some("the Commit"));
    }
    let are_none = last_triples(store) == Some(0);
    Ok(if are_none { None } else { Some("the entry") })
}

/// Stages four triples.
fn stage_four(alloc: Global, store: &mut Wide) -> Result<(), Refusal> {
    let list = triples(alloc, 4)?;
    drop(store.event(Event::Seat(0, Action::Stage(list))));
    Ok(())
}

/// How many triples the last entry of a page gives, and as how many it counts.
fn last_counts(alloc: Global, store: &Wide) -> Result<(usize, usize), Refusal> {
    match store.page().entries().last() {
        Some(entry) => match entry.request() {
            Request::Upload(upload) => {
                Ok((upload.to_vec(alloc)?.len(), entry.request().triples()))
            }
            _ => Ok((0, 0)),
        },
        None => Ok((0, 0)),
    }
}

/// What is not as it must be of a PUT of 300 lists of four triples, which is stored whole.
fn wrong_of_many(alloc: Global, store: &mut Wide) -> Result<Option<&'static str>, Refusal> {
    let kind = UploadKind::Put(cats(alloc)?);
    drop(store.event(Event::Seat(0, Action::Open(kind, None))));
    for _ in 0..300u32 {
        stage_four(alloc, store)?;
    }
    let commit = store.event(Event::Seat(0, Action::Commit));
    let status = status_in(&commit);
    drop(commit);
    if status != 201 {
        return Ok(Some("the status"));
    }
    let (given, counted) = last_counts(alloc, store)?;
    if given != 1_200 {
        return Ok(Some("the triples that are given"));
    }
    let are_all = counted == 1_200;
    Ok(if are_all { None } else { Some("their count") })
}

#[test]
fn an_upload_of_many_lists_is_stored_whole(rt: HostRuntime) -> Result<(), Refusal> {
    let mut store = wide(rt.alloc())?;
    let wrong = wrong_of_many(rt.alloc(), &mut store);
    drop(store);
    assert_eq!(&rt; wrong?, None);
    Ok(())
}

#[test]
fn an_empty_list_is_staged_and_counts_for_nothing(rt: HostRuntime) -> Result<(), Refusal> {
    let mut store = small(rt.alloc())?;
    let wrong = wrong_of_none(rt.alloc(), &mut store);
    drop(store);
    assert_eq!(&rt; wrong?, None);
    Ok(())
}

#[test]
fn rows_leave_their_pages(rt: HostRuntime) -> Result<(), Refusal> {
    assert_eq!(&rt; wrong_row(rt.alloc())?, None);
    Ok(())
}
