//! A store of 512 seats, each of which reads all graphs at a version of its own.
use crate::large::{push_line, triple};
use crate::lines::{Bounds, Lines};
use gs_drawn_events::{Place, target};
use gs_event::{Action, Event, Scope, UploadKind};
use gs_model::Refusal;
use gs_triple_lists::TripleList;
use std::alloc::Global;

/// How many seats there are: the most that a store has.
const SEATS: u16 = 512;

/// The number of the triple of the default graph. That of the version of a seat is the seat's number after this.
const FIRST: u64 = 4_000;

/// What is counted where there are so many versions of the named graph, all of one triple: a node and a
/// record for each of them and of the default graph.
fn versions(count: u64) -> Bounds {
    let nodes = count.saturating_add(1).saturating_mul(2);
    Bounds::exactly(nodes, if count == 0 { 1 } else { 2 })
}

/// The same, with so many nodes and records more.
fn versions_and(count: u64, more: u64) -> Bounds {
    let bounds = versions(count);
    Bounds::exactly(bounds.least.saturating_add(more), bounds.triples)
}

/// The number of the triple of a seat's version.
fn number_of(seat: u16) -> u64 {
    FIRST.saturating_add(1).saturating_add(u64::from(seat))
}

/// The commit number of a seat's version: the first commit is that of the default graph.
fn commit_of(seat: u16) -> u64 {
    u64::from(seat).saturating_add(2)
}

/// A seat stages the triple of this number.
fn stage(alloc: Global, seat: u16, number: u64) -> Result<Event, Refusal> {
    let mut one = Vec::new(alloc);
    one.push(triple(alloc, number)?)?;
    let list = TripleList::of(alloc, one)?;
    Ok(Event::Seat(seat, Action::Stage(list)))
}

/// Seat 0 puts the triple of the default graph.
fn push_default(alloc: Global, lines: &mut Lines) -> Result<(), Refusal> {
    let open = Action::Open(UploadKind::Put(target(alloc, Place::Default)?), None);
    let opened = Bounds::exactly(1, 0);
    lines.push("Open", Event::Seat(0, open), "opened 1", opened)?;
    let staged = Bounds::exactly(2, 0);
    lines.push("Stage", stage(alloc, 0, FIRST)?, "staged", staged)?;
    let commit = Event::Seat(0, Action::Commit);
    lines.push("Commit", commit, "status 204, commit 1", versions(0))?;
    Ok(())
}

/// A seat opens an upload for a triple of its own over the named graph.
fn push_open(alloc: Global, lines: &mut Lines, seat: u16) -> Result<(), Refusal> {
    let before = u64::from(seat);
    let open = Action::Open(UploadKind::Put(target(alloc, Place::A)?), None);
    let event = Event::Seat(seat, open);
    let words = format!(in alloc; "opened {}", before.saturating_add(2))?;
    lines.push("Open", event, words.as_str(), versions_and(before, 1))?;
    Ok(())
}

fn push_commit(alloc: Global, lines: &mut Lines, seat: u16) -> Result<(), Refusal> {
    let status = if seat == 0 { 201 } else { 204 };
    let words = format!(in alloc; "status {status}, commit {}", commit_of(seat))?;
    let commit = Event::Seat(seat, Action::Commit);
    let bounds = versions(u64::from(seat).saturating_add(1));
    lines.push("Commit", commit, words.as_str(), bounds)?;
    Ok(())
}

/// A seat puts that triple.
fn push_version(alloc: Global, lines: &mut Lines, seat: u16) -> Result<(), Refusal> {
    push_open(alloc, lines, seat)?;
    let event = stage(alloc, seat, number_of(seat))?;
    let staged = versions_and(u64::from(seat), 2);
    lines.push("Stage", event, "staged", staged)?;
    push_commit(alloc, lines, seat)
}

/// A seat begins a read of all graphs.
fn push_pin(alloc: Global, lines: &mut Lines, seat: u16) -> Result<(), Refusal> {
    let words = format!(in alloc; "pinned 200, commit {}", commit_of(seat))?;
    let pin = Event::Seat(seat, Action::Pin(Scope::All));
    let bounds = versions(u64::from(seat).saturating_add(1));
    lines.push("Pin", pin, words.as_str(), bounds)?;
    Ok(())
}

/// It is given the line of the default graph.
fn push_first(alloc: Global, lines: &mut Lines, seat: u16) -> Result<(), Refusal> {
    let mut words = String::from_str(alloc, "lines ")?;
    push_line(&mut words, alloc, FIRST)?;
    words.push_str("more")?;
    let piece = Event::Seat(seat, Action::Piece(1));
    let bounds = versions(u64::from(seat).saturating_add(1));
    lines.push("Piece", piece, words.as_str(), bounds)?;
    Ok(())
}

/// A seat is given the line of its version. Where that is not the newest, its node and its record are freed
/// then: so many versions of the named graph are there before, and so many are left.
fn push_last(
    alloc: Global,
    lines: &mut Lines,
    seat: u16,
    before: u64,
    left: u64,
) -> Result<(), Refusal> {
    let number = number_of(seat);
    let words = format!(in alloc;
        "lines <http://e/s{number}> <http://e/p> \"{number}\" <http://e/a> .\nend"
    )?;
    let piece = Event::Seat(seat, Action::Piece(1));
    lines.push("Piece", piece, words.as_str(), versions(before))?;
    lines.push_reclaim(left > 1, versions(left))?;
    Ok(())
}

/// The seats end their reads, every seventh after the one before, round and round, so that each comes once.
fn push_ends(alloc: Global, lines: &mut Lines) -> Result<(), Refusal> {
    let last = SEATS.saturating_sub(1);
    let mut count = u64::from(SEATS);
    for turn in 0..SEATS {
        let place = u32::from(turn).saturating_mul(7) % 512;
        let seat = u16::try_from(place).unwrap_or_default();
        let left = count.saturating_sub(u64::from(seat != last));
        push_last(alloc, lines, seat, count, left)?;
        count = left;
    }
    Ok(())
}

fn push_all(alloc: Global, lines: &mut Lines) -> Result<(), Refusal> {
    push_default(alloc, lines)?;
    for seat in 0..SEATS {
        push_version(alloc, lines, seat)?;
        push_pin(alloc, lines, seat)?;
        push_first(alloc, lines, seat)?;
    }
    lines.push_reclaim(true, versions(u64::from(SEATS)))?;
    push_ends(alloc, lines)
}

/// The schedule of a store of so many seats.
pub fn seat_lines(alloc: Global) -> Result<Lines, Refusal> {
    let mut lines = Lines::new(alloc);
    push_all(alloc, &mut lines)?;
    Ok(lines)
}
