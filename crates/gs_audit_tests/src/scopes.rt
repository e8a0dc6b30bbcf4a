//! Questions and reads, of one graph and of the whole dataset, and the entries that a page has of them.
use crate::stores::{Small, cats, put, small};
use gs_chronicle::{Entry, Request};
use gs_core::{Action, Answer, Event};
use gs_event::Scope;
use gs_model::Refusal;
use gs_term::Target;
use std::alloc::Global;

/// A question, or a read that begins, of the graph that rows write or of the whole dataset; and the
/// status.
#[derive(Clone, Copy)]
struct Call {
    is_read: bool,
    is_whole: bool,
    status: u16,
}

/// What is done to a new store: these calls, and then a PUT of a triple to the graph.
const BEFORE: [Call; 3] = [
    Call {
        is_read: false,
        is_whole: false,
        status: 404,
    },
    Call {
        is_read: false,
        is_whole: true,
        status: 200,
    },
    Call {
        is_read: true,
        is_whole: false,
        status: 404,
    },
];

/// What is done then. The first of them turns the page, which is full.
const AFTER: [Call; 3] = [
    Call {
        is_read: false,
        is_whole: false,
        status: 200,
    },
    Call {
        is_read: false,
        is_whole: true,
        status: 200,
    },
    Call {
        is_read: true,
        is_whole: true,
        status: 200,
    },
];

/// What the last read gives.
const LINES: &[u8] = b"<http://e/s> <http://e/p> _:b1_0 <http://e/cats> .\n";

/// The action of a call.
fn action(alloc: Global, call: Call) -> Result<Action, Refusal> {
    let scope = if call.is_whole {
        Scope::All
    } else {
        Scope::One(cats(alloc)?)
    };
    Ok(if call.is_read {
        Action::Pin(scope)
    } else {
        Action::Head(scope)
    })
}

/// Whether a call of the second seat has its status.
fn is_answered(alloc: Global, store: &mut Small, call: Call) -> Result<bool, Refusal> {
    let action = action(alloc, call)?;
    let answer = store.event(Event::Seat(1, action));
    let is_right = match &answer {
        Answer::Status(status, None, _) => !call.is_read && *status == call.status,
        Answer::Pinned(status, _) => call.is_read && *status == call.status,
        _ => false,
    };
    drop(answer);
    Ok(is_right)
}

/// Whether each call has its status.
fn are_answered(alloc: Global, store: &mut Small, calls: &[Call]) -> Result<bool, Refusal> {
    for call in calls {
        if !is_answered(alloc, store, *call)? {
            return Ok(false);
        }
    }
    Ok(true)
}

/// Whether a scope is the graph that rows write.
fn is_cats(scope: &Scope) -> bool {
    match scope {
        Scope::One(Target::Named(name)) => name.as_bytes() == b"http://e/cats".as_slice(),
        Scope::One(Target::Default) | Scope::All => false,
    }
}

/// Whether a scope is that of a call.
fn is_scope(scope: &Scope, call: Call) -> bool {
    if call.is_whole {
        matches!(scope, Scope::All)
    } else {
        is_cats(scope)
    }
}

/// Whether an entry is that of a call of the second seat.
fn is_of(entry: &Entry, call: Call) -> bool {
    let is_asked = match entry.request() {
        Request::Head(scope) => !call.is_read && is_scope(scope, call),
        Request::Pin(scope) => call.is_read && is_scope(scope, call),
        _ => false,
    };
    is_asked && entry.seat() == 1 && entry.status() == call.status
}

/// Whether a page of this number begins with the entries of these calls, and has so many.
fn is_page(store: &Small, number: u64, calls: &[Call], count: usize) -> bool {
    let page = store.page();
    for (entry, call) in page.entries().iter().zip(calls) {
        if !is_of(entry, *call) {
            return false;
        }
    }
    page.number() == number && page.entries().len() == count
}

/// Whether the second seat's read gives its lines, all at once.
fn is_read(store: &mut Small) -> bool {
    match store.event(Event::Seat(1, Action::Piece(9))) {
        Answer::Lines(lines, true) => lines.into_bytes().as_slice() == LINES,
        other => {
            drop(other);
            false
        }
    }
}

/// What is not as it must be.
fn wrong_part(alloc: Global, store: &mut Small) -> Result<Option<&'static str>, Refusal> {
    if !are_answered(alloc, store, &BEFORE)? {
        return Ok(Some("an answer of an empty store"));
    }
    drop(put(alloc, store, 1)?);
    if !is_page(store, 0, &BEFORE, 4) {
        return Ok(Some("the first page"));
    }
    if !are_answered(alloc, store, &AFTER)? {
        return Ok(Some("an answer of a store with a graph"));
    }
    if !is_read(store) {
        return Ok(Some("the lines"));
    }
    let is_left = is_page(store, 1, &AFTER, 3);
    Ok(if is_left {
        None
    } else {
        Some("the second page")
    })
}

#[test]
fn entries_have_their_scopes(rt: HostRuntime) -> Result<(), Refusal> {
    let mut store = small(rt.alloc())?;
    let wrong = wrong_part(rt.alloc(), &mut store);
    drop(store);
    assert_eq!(&rt; wrong?, None);
    Ok(())
}
