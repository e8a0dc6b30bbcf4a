//! A client stops in the middle of a read of a thousand triples, and a thousand others are posted meanwhile, one
//! by one.
use crate::large::{
    FIRST, GIVEN, MANY, ONE_VERSION, TWO_VERSIONS, push_piece, push_pin, push_put, triple,
    with_many, with_more, words,
};
use crate::lines::{Bounds, Lines};
use gs_drawn_events::{Place, target};
use gs_event::{Action, Event, UploadKind};
use gs_model::Refusal;
use gs_triple_lists::TripleList;
use std::alloc::Global;

/// How many triples are posted, each by itself: one after each of those that are there.
const POSTS: u64 = 1_000;

/// The distance of their numbers. These are odd, so none is there yet, and go all over the tree.
const DISTANCE: u64 = 2;

/// How many more nodes are in use once one triple went into a graph of fewer than 2,048, at most: eight for each of
/// eleven binary digits, and its own.
const MOST_FOR_ONE: u64 = 89;

/// What is counted after the Reclaim that follows so many POSTs: a node for each triple of the newest graph, those
/// that only the read has, which are some, and at most as many as it has triples, and the records of both
/// versions. What the versions between them had is free.
fn between(posts: u64) -> Bounds {
    if posts == 0 {
        return with_many();
    }
    let triples = MANY.saturating_add(posts);
    let nodes = Bounds {
        least: triples.saturating_add(1),
        most: triples.saturating_add(MANY),
        triples,
    };
    with_more(nodes, TWO_VERSIONS)
}

/// What is counted before that Reclaim: what was there, and the nodes and the record that the POST took.
fn posted(posts: u64) -> Bounds {
    let before = between(posts.saturating_sub(1));
    Bounds {
        least: before.least.saturating_add(2),
        most: before.most.saturating_add(1).saturating_add(MOST_FOR_ONE),
        triples: MANY.saturating_add(posts),
    }
}

/// Seat 0 posts one triple, the one of this place, and a Reclaim follows.
fn push_post(alloc: Global, lines: &mut Lines, place: u64) -> Result<(), Refusal> {
    let posts = place.saturating_add(1);
    let commit = posts.saturating_add(1);
    let opened = with_more(between(place), 1);
    let open = Action::Open(UploadKind::Post(target(alloc, Place::A)?), None);
    let answer = format!(in alloc; "opened {commit}")?;
    lines.push("Open", Event::Seat(0, open), answer.as_str(), opened)?;
    let mut one = Vec::new(alloc);
    let skipped = place.saturating_mul(DISTANCE).saturating_add(1);
    one.push(triple(alloc, FIRST.saturating_add(skipped))?)?;
    let stage = Event::Seat(0, Action::Stage(TripleList::of(alloc, one)?));
    lines.push("Stage", stage, "staged", with_more(opened, 1))?;
    let answer = format!(in alloc; "status 204, commit {commit}")?;
    let end = Event::Seat(0, Action::Commit);
    lines.push("Commit", end, answer.as_str(), posted(posts))?;
    lines.push_reclaim(true, between(posts))?;
    Ok(())
}

/// The read goes on, and has its lines. Once it has ended, a Reclaim leaves a node for each triple, and a record.
/// Seat 1 reads all triples.
fn push_end(alloc: Global, lines: &mut Lines) -> Result<(), Refusal> {
    let next = FIRST.saturating_add(GIVEN.saturating_mul(2));
    let rest = words(alloc, next, MANY.saturating_sub(GIVEN), 2, "end")?;
    push_piece(lines, 999, rest.as_str(), between(POSTS))?;
    let all = MANY.saturating_add(POSTS);
    let bounds = Bounds::exactly(all.saturating_add(ONE_VERSION), all);
    lines.push_reclaim(false, bounds)?;
    push_pin(alloc, lines, "pinned 200, commit 1001", bounds)?;
    let all = words(alloc, FIRST, all, 1, "end")?;
    push_piece(lines, u32::MAX, all.as_str(), bounds)
}

/// The schedule of a store of two seats.
pub fn slow_reader_lines(alloc: Global) -> Result<Lines, Refusal> {
    let mut lines = Lines::new(alloc);
    push_put(alloc, &mut lines)?;
    push_pin(alloc, &mut lines, "pinned 200, commit 1", with_many())?;
    let given = words(alloc, FIRST, GIVEN, 2, "more")?;
    push_piece(&mut lines, 10, given.as_str(), with_many())?;
    for place in 0..POSTS {
        push_post(alloc, &mut lines, place)?;
    }
    push_end(alloc, &mut lines)?;
    Ok(lines)
}
