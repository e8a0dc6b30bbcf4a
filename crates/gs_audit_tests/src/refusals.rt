//! A store with its page, where a request for memory is refused. With memory this shows the usual
//! answers; `rt try --test --fail-alloc N` refuses the request of that number.
use crate::stores::{Wide, cats, numbered, triples, wide};
use crate::uploads::is_stored;
use gs_audit::{Form, count_of};
use gs_core::{Action, Answer, Event, UploadKind};
use gs_event::Scope;
use gs_model::Refusal;
use gs_triple_lists::TripleList;
use std::alloc::Global;

/// Whether an answer is want of memory.
fn wants_memory(answer: &Answer) -> bool {
    matches!(answer, Answer::Refused(Refusal::NoMemory))
}

/// Opens an upload by the first seat, a second time where the first was refused.
fn open(alloc: Global, store: &mut Wide) -> Result<Answer, Refusal> {
    let kind = UploadKind::Post(cats(alloc)?);
    let answer = store.event(Event::Seat(0, Action::Open(kind, None)));
    if !wants_memory(&answer) {
        return Ok(answer);
    }
    drop(answer);
    let kind = UploadKind::Post(cats(alloc)?);
    Ok(store.event(Event::Seat(0, Action::Open(kind, None))))
}

/// The same with so many triples that are staged.
fn stage(alloc: Global, store: &mut Wide, count: u8) -> Result<Answer, Refusal> {
    let list = triples(alloc, count)?;
    let answer = store.event(Event::Seat(0, Action::Stage(list)));
    if !wants_memory(&answer) {
        return Ok(answer);
    }
    drop(answer);
    let list = triples(alloc, count)?;
    Ok(store.event(Event::Seat(0, Action::Stage(list))))
}

/// Stages a list by its small form, or without where that was refused. The list stays with its event, which
/// is made once more where it was refused.
fn stage_small(alloc: Global, store: &mut Wide, list: TripleList) -> Answer {
    let mut event = Event::Seat(0, Action::Stage(list));
    let form = Form::of(alloc, &event);
    let size = count_of(&event);
    let answer = store.event_with(&mut event, form, size);
    if !wants_memory(&answer) {
        return answer;
    }
    drop(answer);
    let size = count_of(&event);
    store.event_with(&mut event, None, size)
}

/// The same with the commit.
fn commit(store: &mut Wide) -> Answer {
    let answer = store.event(Event::Seat(0, Action::Commit));
    if !wants_memory(&answer) {
        return answer;
    }
    drop(answer);
    store.event(Event::Seat(0, Action::Commit))
}

/// The lines of the whole dataset once the upload was committed.
const LINES: &[u8] = b"<http://e/s> <http://e/p> _:b1_0 <http://e/cats> .
<http://e/s> <http://e/p> _:b1_1 <http://e/cats> .
<http://e/s> <http://e/p> _:b1_2 <http://e/cats> .
";

/// The lines that the second seat's read gives, asked for a second time where the first was refused.
fn read(store: &mut Wide) -> Answer {
    let answer = store.event(Event::Seat(1, Action::Piece(9)));
    if !wants_memory(&answer) {
        return answer;
    }
    drop(answer);
    store.event(Event::Seat(1, Action::Piece(9)))
}

/// What is answered otherwise of a question about the whole dataset, and of a read of it, by the second
/// seat. Neither takes memory until lines are asked for.
fn wrong_read(store: &mut Wide) -> Option<&'static str> {
    let asked = store.event(Event::Seat(1, Action::Head(Scope::All)));
    if !matches!(asked, Answer::Status(200, None, 1)) {
        return Some("the question");
    }
    let pinned = store.event(Event::Seat(1, Action::Pin(Scope::All)));
    if !matches!(pinned, Answer::Pinned(200, 1)) {
        return Some("the read");
    }
    let is_given = match read(store) {
        Answer::Lines(lines, true) => lines.into_bytes().as_slice() == LINES,
        other => {
            drop(other);
            false
        }
    };
    if is_given { None } else { Some("the lines") }
}

/// What is answered otherwise of an upload of five triples, which are three, and of the dataset then, or
/// the page where each deciding call is not stored once.
fn wrong_part(alloc: Global, store: &mut Wide) -> Result<Option<&'static str>, Refusal> {
    if !matches!(open(alloc, store)?, Answer::Opened(1)) {
        return Ok(Some("the open"));
    }
    if !matches!(stage(alloc, store, 2)?, Answer::Staged) {
        return Ok(Some("the first list"));
    }
    if !matches!(stage(alloc, store, 3)?, Answer::Staged) {
        return Ok(Some("the second list"));
    }
    if !matches!(commit(store), Answer::Status(201, _, 1)) {
        return Ok(Some("the commit"));
    }
    if let Some(part) = wrong_read(store) {
        return Ok(Some(part));
    }
    let page = store.page();
    let is_stored = page.number() == 0 && page.entries().len() == 3;
    Ok(if is_stored { None } else { Some("the page") })
}

/// The lengths of lists that are staged by their small forms. The second and the last are gathered.
const COUNTS: [usize; 4] = [2, 3, 33, 1];

/// Whether lists of these lengths are staged, whose triples are numbered from 0.
fn are_staged(alloc: Global, store: &mut Wide) -> Result<bool, Refusal> {
    let mut first = 0usize;
    for count in &COUNTS {
        let list = TripleList::of(alloc, numbered(alloc, first, *count)?)?;
        let answer = stage_small(alloc, store, list);
        let is_staged = matches!(answer, Answer::Staged);
        drop(answer);
        if !is_staged {
            return Ok(false);
        }
        first = first.saturating_add(*count);
    }
    Ok(true)
}

/// What is answered otherwise of an upload of these lists, or the page where they are not stored.
fn wrong_list(alloc: Global, store: &mut Wide) -> Result<Option<&'static str>, Refusal> {
    if !matches!(open(alloc, store)?, Answer::Opened(1)) {
        return Ok(Some("the open"));
    }
    if !are_staged(alloc, store)? {
        return Ok(Some("a list"));
    }
    if !matches!(commit(store), Answer::Status(201, _, 1)) {
        return Ok(Some("the commit"));
    }
    let are_stored = is_stored(alloc, store, &COUNTS)?;
    Ok(if are_stored { None } else { Some("the page") })
}

/// What is not as it must be where nine uploads of 22 triples turn a page of four entries twice.
fn wrong_turn(alloc: Global, store: &mut Wide) -> Result<Option<&'static str>, Refusal> {
    for _ in 0..9u32 {
        drop(open(alloc, store)?);
        if !matches!(stage(alloc, store, 22)?, Answer::Staged) {
            return Ok(Some("a list"));
        }
        if !matches!(commit(store), Answer::Status(_, _, _)) {
            return Ok(Some("a commit"));
        }
    }
    let page = store.page();
    let is_turned = page.number() == 2 && page.entries().len() == 1;
    Ok(if is_turned { None } else { Some("the page") })
}

/// Whichever request was refused, the event that was answered so changed nothing, also in the page:
/// made once more, it is answered as ever, and stored once.
#[test]
fn a_refused_event_changes_nothing(rt: HostRuntime) -> Result<(), Refusal> {
    let mut store = wide(rt.alloc())?;
    let wrong = wrong_part(rt.alloc(), &mut store);
    drop(store);
    assert_eq!(&rt; wrong?, None);
    Ok(())
}

/// The same where pages are turned while entries of the pages before are there: no turn wants memory, and
/// no call is missing.
#[test]
fn a_refused_event_is_stored_once_where_pages_are_turned(rt: HostRuntime) -> Result<(), Refusal> {
    let mut store = wide(rt.alloc())?;
    let wrong = wrong_turn(rt.alloc(), &mut store);
    drop(store);
    assert_eq!(&rt; wrong?, None);
    Ok(())
}

/// The same of lists by their small forms: each is stored once, and in its order, by its small form or
/// gathered.
#[test]
fn a_refused_list_is_stored_once(rt: HostRuntime) -> Result<(), Refusal> {
    let mut store = wide(rt.alloc())?;
    let wrong = wrong_list(rt.alloc(), &mut store);
    drop(store);
    assert_eq!(&rt; wrong?, None);
    Ok(())
}
