//! One triple and then a thousand are added to a thousand others while these are read.
use crate::lines::{Bounds, Lines};
use gs_drawn_events::{Place, made, target};
use gs_event::{Action, Event, Scope, UploadKind};
use gs_model::Refusal;
use gs_term::{TermText, Triple};
use gs_triple_lists::TripleList;
use gs_version_models::MOST_FOR_TRIPLE;
use std::alloc::{AllocError, Global};

/// How many triples each of the two large uploads has.
pub const MANY: u64 = 1_000;

/// How many these and the one have.
const ALL: u64 = 2_001;

/// How many more nodes are in use once one triple went into a graph of a thousand, at most: eight for each
/// of the ten binary digits, and its own. A copy of the graph's tree would take a thousand more.
const MOST_FOR_ONE: u64 = 81;

/// How many lists an upload comes in, and how many triples a list has.
const LISTS: u64 = 10;

const LIST: u64 = 100;

/// How many lines were given before the other uploads.
pub const GIVEN: u64 = 10;

/// How many records there are of one version of the graph, of two, and of three.
pub const ONE_VERSION: u64 = 1;

pub const TWO_VERSIONS: u64 = 2;

const THREE_VERSIONS: u64 = 3;

/// Triples have numbers from here on, all of four digits: those of the first upload are even, the one has
/// the next even number, and those of the last upload are odd.
pub const FIRST: u64 = 4_000;

/// The triple of a number.
pub fn triple(alloc: Global, number: u64) -> Result<Triple, Refusal> {
    let subject = format!(in alloc; "http://e/s{number}")?;
    let object = format!(in alloc; "{number}")?;
    made(
        TermText::iri(alloc, subject.as_str())?,
        TermText::iri(alloc, "http://e/p")?,
        TermText::literal(alloc, object.as_str(), None, None)?,
    )
}

/// Appends its line.
pub fn push_line(text: &mut String, alloc: Global, number: u64) -> Result<(), AllocError> {
    let line = format!(in alloc; "<http://e/s{number}> <http://e/p> \"{number}\" .\n")?;
    text.push_str(line.as_str())
}

/// What a piece is to answer: the lines from this number on, so many, at this distance, and then this.
pub fn words(
    alloc: Global,
    first: u64,
    count: u64,
    distance: u64,
    last: &str,
) -> Result<String, AllocError> {
    let mut text = String::from_str(alloc, "lines ")?;
    for place in 0..count {
        push_line(
            &mut text,
            alloc,
            first.saturating_add(place.saturating_mul(distance)),
        )?;
    }
    text.push_str(last)?;
    Ok(text)
}

fn list(alloc: Global, first: u64) -> Result<TripleList, Refusal> {
    let mut triples = Vec::new(alloc);
    for place in 0..LIST {
        triples.push(triple(alloc, first.saturating_add(place.saturating_mul(2)))?)?;
    }
    Ok(TripleList::of(alloc, triples)?)
}

/// The same, with so many nodes or records more.
pub fn with_more(bounds: Bounds, nodes: u64) -> Bounds {
    Bounds {
        least: bounds.least.saturating_add(nodes),
        most: bounds.most.saturating_add(nodes),
        triples: bounds.triples,
    }
}

/// Seat 0 stages every second triple from this number on, in lists, the last of them first. Each takes a
/// node more than are in use before.
fn push_stages(
    alloc: Global,
    lines: &mut Lines,
    first: u64,
    before: Bounds,
) -> Result<(), Refusal> {
    for place in 0..LISTS {
        let lists_after = LISTS.saturating_sub(1).saturating_sub(place);
        let skipped = lists_after.saturating_mul(LIST).saturating_mul(2);
        let action = Action::Stage(list(alloc, first.saturating_add(skipped))?);
        let staged = place.saturating_add(1).saturating_mul(LIST);
        let event = Event::Seat(0, action);
        lines.push("Stage", event, "staged", with_more(before, staged))?;
    }
    Ok(())
}

/// Seat 0 puts the even triples.
pub fn push_put(alloc: Global, lines: &mut Lines) -> Result<(), Refusal> {
    let open = Action::Open(UploadKind::Put(target(alloc, Place::A)?), None);
    let opened = Bounds::exactly(1, 0);
    lines.push("Open", Event::Seat(0, open), "opened 1", opened)?;
    push_stages(alloc, lines, FIRST, opened)?;
    let commit = Event::Seat(0, Action::Commit);
    lines.push("Commit", commit, "status 201, commit 1", with_many())?;
    Ok(())
}

/// What is counted once the even triples were put.
pub fn with_many() -> Bounds {
    Bounds::exactly(MANY.saturating_add(ONE_VERSION), MANY)
}

/// Seat 1 begins to read, which is to be answered in these words.
pub fn push_pin(
    alloc: Global,
    lines: &mut Lines,
    words: &str,
    bounds: Bounds,
) -> Result<(), Refusal> {
    let pin = Action::Pin(Scope::One(target(alloc, Place::A)?));
    lines.push("Pin", Event::Seat(1, pin), words, bounds)?;
    Ok(())
}

/// Seat 1 is given so many lines, which are to be these.
pub fn push_piece(
    lines: &mut Lines,
    count: u32,
    words: &str,
    bounds: Bounds,
) -> Result<(), Refusal> {
    let piece = Event::Seat(1, Action::Piece(count));
    lines.push("Piece", piece, words, bounds)?;
    Ok(())
}

/// What is counted once the one triple was posted.
fn with_one() -> Bounds {
    let triples = MANY.saturating_add(1);
    let nodes = Bounds {
        least: triples,
        most: triples.saturating_add(MOST_FOR_ONE),
        triples,
    };
    with_more(nodes, TWO_VERSIONS)
}

/// Seat 0 posts one triple, which takes no more nodes than it may.
fn push_one(alloc: Global, lines: &mut Lines) -> Result<(), Refusal> {
    let open = Action::Open(UploadKind::Post(target(alloc, Place::A)?), None);
    let opened = with_more(with_many(), 1);
    lines.push("Open", Event::Seat(0, open), "opened 2", opened)?;
    let mut one = Vec::new(alloc);
    one.push(triple(alloc, FIRST.saturating_add(MANY.saturating_mul(2)))?)?;
    let stage = Event::Seat(0, Action::Stage(TripleList::of(alloc, one)?));
    lines.push("Stage", stage, "staged", with_more(opened, 1))?;
    let commit = Event::Seat(0, Action::Commit);
    lines.push("Commit", commit, "status 204, commit 2", with_one())?;
    Ok(())
}

/// Seat 0 posts the odd triples, each of which takes no more nodes than it may.
fn push_post(alloc: Global, lines: &mut Lines) -> Result<(), Refusal> {
    let open = Action::Open(UploadKind::Post(target(alloc, Place::A)?), None);
    let opened = with_more(with_one(), 1);
    lines.push("Open", Event::Seat(0, open), "opened 3", opened)?;
    push_stages(alloc, lines, FIRST.saturating_add(1), opened)?;
    let staged = opened.most.saturating_add(MANY);
    let bounds = Bounds {
        least: ALL.saturating_add(THREE_VERSIONS),
        most: staged.saturating_add(MANY.saturating_mul(MOST_FOR_TRIPLE)),
        triples: ALL,
    };
    let commit = Event::Seat(0, Action::Commit);
    lines.push("Commit", commit, "status 204, commit 3", bounds)?;
    Ok(())
}

/// While the read is there, a Reclaim leaves the nodes of the newest graph and those that the pin has, which
/// are some, and at most as many as the read has triples; and the records of both versions, and not of the one
/// between them. The lines of the read are those at its pin.
fn push_rest(alloc: Global, lines: &mut Lines) -> Result<(), Refusal> {
    let nodes = Bounds {
        least: ALL.saturating_add(1),
        most: ALL.saturating_add(MANY),
        triples: ALL,
    };
    let under_read = with_more(nodes, TWO_VERSIONS);
    lines.push_reclaim(true, under_read)?;
    let next = FIRST.saturating_add(GIVEN.saturating_mul(2));
    let rest = words(alloc, next, MANY.saturating_sub(GIVEN), 2, "end")?;
    push_piece(lines, 999, rest.as_str(), under_read)
}

/// After the read a Reclaim leaves a node for each triple, and a record. Seat 1 reads all triples.
fn push_end(alloc: Global, lines: &mut Lines) -> Result<(), Refusal> {
    let bounds = Bounds::exactly(ALL.saturating_add(ONE_VERSION), ALL);
    lines.push_reclaim(false, bounds)?;
    push_pin(alloc, lines, "pinned 200, commit 3", bounds)?;
    let all = words(alloc, FIRST, ALL, 1, "end")?;
    push_piece(lines, u32::MAX, all.as_str(), bounds)
}

fn push_all(alloc: Global, lines: &mut Lines) -> Result<(), Refusal> {
    let first = with_many();
    push_put(alloc, lines)?;
    push_pin(alloc, lines, "pinned 200, commit 1", first)?;
    let given = words(alloc, FIRST, GIVEN, 2, "more")?;
    push_piece(lines, 10, given.as_str(), first)?;
    push_one(alloc, lines)?;
    push_post(alloc, lines)?;
    push_rest(alloc, lines)?;
    push_end(alloc, lines)
}

/// The schedule of a store of two seats.
pub fn large_lines(alloc: Global) -> Result<Lines, Refusal> {
    let mut lines = Lines::new(alloc);
    push_all(alloc, &mut lines)?;
    Ok(lines)
}
