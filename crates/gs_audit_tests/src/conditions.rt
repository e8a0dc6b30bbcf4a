//! Writes on condition: their answers, and the entries that a page has of them.
use crate::stores::{Small, cats, small, triples};
use gs_chronicle::{Entry, Request};
use gs_core::{Action, Answer, Event, UploadKind};
use gs_model::Refusal;
use std::alloc::Global;

/// How the graph is written.
#[derive(Clone, Copy, PartialEq, Eq)]
enum Way {
    /// A PUT of a triple.
    Put,
    /// A patch without operations.
    Patch,
    Delete,
}

/// A write of the graph that rows write, by the first seat: how, on which condition, its status, and the
/// number that comes with it.
type Write = (Way, Option<u64>, u16, u64);

/// What is done to a new store. The first and the third take effect, as commits 1 and 2; the others come
/// too late.
const FIRST: [Write; 4] = [
    (Way::Put, None, 201, 1),
    (Way::Put, Some(0), 412, 1),
    (Way::Put, Some(1), 204, 2),
    (Way::Delete, Some(1), 412, 2),
];

/// What is done then. The first of them turns the page, which is full; it is commit 3, and the Delete
/// after it is commit 4. A graph that is missing is not too late for a Delete, and it is for a PUT.
const SECOND: [Write; 4] = [
    (Way::Patch, Some(2), 204, 3),
    (Way::Delete, Some(3), 204, 4),
    (Way::Delete, Some(0), 404, 4),
    (Way::Put, Some(3), 412, 4),
];

/// A PUT of a triple.
fn put(alloc: Global, store: &mut Small, since: Option<u64>) -> Result<Answer, Refusal> {
    let list = triples(alloc, 1)?;
    let kind = UploadKind::Put(cats(alloc)?);
    drop(store.event(Event::Seat(0, Action::Open(kind, since))));
    drop(store.event(Event::Seat(0, Action::Stage(list))));
    Ok(store.event(Event::Seat(0, Action::Commit)))
}

/// A patch without operations.
fn patch(alloc: Global, store: &mut Small, since: Option<u64>) -> Result<Answer, Refusal> {
    let opens = Action::OpenPatch(cats(alloc)?, since);
    drop(store.event(Event::Seat(0, opens)));
    let commits = Action::CommitPatch(Vec::new(alloc));
    Ok(store.event(Event::Seat(0, commits)))
}

/// The answer to a write.
fn answer(alloc: Global, store: &mut Small, write: Write) -> Result<Answer, Refusal> {
    let (way, since, _, _) = write;
    match way {
        Way::Put => put(alloc, store, since),
        Way::Patch => patch(alloc, store, since),
        Way::Delete => {
            let deletes = Action::Delete(cats(alloc)?, since);
            Ok(store.event(Event::Seat(0, deletes)))
        }
    }
}

/// Whether a write has its status and its number.
fn is_answered(alloc: Global, store: &mut Small, write: Write) -> Result<bool, Refusal> {
    let (_, _, status, number) = write;
    let answer = answer(alloc, store, write)?;
    let is_right = match &answer {
        Answer::Status(found, None, last) => *found == status && *last == number,
        _ => false,
    };
    drop(answer);
    Ok(is_right)
}

/// Whether each write has its status and its number.
fn are_answered(alloc: Global, store: &mut Small, writes: &[Write]) -> Result<bool, Refusal> {
    for write in writes {
        if !is_answered(alloc, store, *write)? {
            return Ok(false);
        }
    }
    Ok(true)
}

/// How a request writes the graph, and its condition.
fn written_by(request: &Request) -> Option<(Way, Option<u64>)> {
    match request {
        Request::Upload(upload) => Some((Way::Put, upload.since())),
        Request::Patch(patch) => Some((Way::Patch, patch.since())),
        Request::Delete(_, since) => Some((Way::Delete, *since)),
        Request::Head(_) | Request::Pin(_) => None,
    }
}

/// Whether an entry is that of a write.
fn is_of(entry: &Entry, write: Write) -> bool {
    let (way, since, status, _) = write;
    let is_asked = written_by(entry.request()) == Some((way, since));
    is_asked && entry.seat() == 0 && entry.status() == status
}

/// Whether a page of this number has just the entries of these writes.
fn is_page(store: &Small, number: u64, writes: &[Write]) -> bool {
    let page = store.page();
    for (entry, write) in page.entries().iter().zip(writes) {
        if !is_of(entry, *write) {
            return false;
        }
    }
    page.number() == number && page.entries().len() == writes.len()
}

/// What is not as it must be.
fn wrong_part(alloc: Global, store: &mut Small) -> Result<Option<&'static str>, Refusal> {
    if !are_answered(alloc, store, &FIRST)? {
        return Ok(Some("an answer of the first four"));
    }
    if !is_page(store, 0, &FIRST) {
        return Ok(Some("the first page"));
    }
    if !are_answered(alloc, store, &SECOND)? {
        return Ok(Some("an answer of the last four"));
    }
    let is_left = is_page(store, 1, &SECOND);
    Ok(if is_left {
        None
    } else {
        Some("the second page")
    })
}

#[test]
fn entries_have_their_conditions(rt: HostRuntime) -> Result<(), Refusal> {
    let mut store = small(rt.alloc())?;
    let wrong = wrong_part(rt.alloc(), &mut store);
    drop(store);
    assert_eq!(&rt; wrong?, None);
    Ok(())
}
