//! Events of worked schedules, from their lines.
use crate::notation::{operations, triples};
use gs_event::{Action, Event, Scope, UploadKind};
use gs_model::Refusal;
use gs_term::{GraphName, Target};
use std::alloc::Global;

fn target(alloc: Global, word: &str) -> Result<Target, Refusal> {
    if word == "default" {
        return Ok(Target::Default);
    }
    let name = word.trim_start_matches('<').trim_end_matches('>');
    Ok(Target::Named(GraphName::new(alloc, name)?))
}

fn scope(alloc: Global, word: &str) -> Result<Scope, Refusal> {
    if word == "all" {
        return Ok(Scope::All);
    }
    Ok(Scope::One(target(alloc, word)?))
}

fn kind(alloc: Global, word: &str, name: &str) -> Result<UploadKind, Refusal> {
    match word {
        "put" => Ok(UploadKind::Put(target(alloc, name)?)),
        "post" => Ok(UploadKind::Post(target(alloc, name)?)),
        _ => Ok(UploadKind::New),
    }
}

/// The number after the word `since`, where these two end the words.
fn since(words: &[&str]) -> Option<u64> {
    let (last, front) = words.split_last()?;
    if front.last().copied() != Some("since") {
        return None;
    }
    last.parse::<u64>().ok()
}

/// The action of a line's words after the seat.
fn action(alloc: Global, words: &[&str]) -> Result<Action, Refusal> {
    let word = words.first().copied().unwrap_or_default();
    let next = words.get(1).copied().unwrap_or_default();
    let last = words.get(2).copied().unwrap_or_default();
    match word {
        "open" if next == "patch" => Ok(Action::OpenPatch(target(alloc, last)?, since(words))),
        "open" => Ok(Action::Open(kind(alloc, next, last)?, since(words))),
        "commit" => Ok(Action::Commit),
        "delete" => Ok(Action::Delete(target(alloc, next)?, since(words))),
        "head" => Ok(Action::Head(scope(alloc, next)?)),
        "pin" => Ok(Action::Pin(scope(alloc, next)?)),
        "piece" => Ok(Action::Piece(next.parse::<u32>().unwrap_or_default())),
        _ => Ok(Action::Cancel),
    }
}

/// The event of a line.
pub fn event(alloc: Global, line: &str) -> Result<Event, Refusal> {
    if let Some((seat, text)) = line.split_once(" stage ") {
        let seat = seat.parse::<u16>().unwrap_or_default();
        return Ok(Event::Seat(seat, Action::Stage(triples(alloc, text)?)));
    }
    if let Some((seat, text)) = line.split_once(" patch:") {
        let seat = seat.parse::<u16>().unwrap_or_default();
        let operations = operations(alloc, text)?;
        return Ok(Event::Seat(seat, Action::CommitPatch(operations)));
    }
    let mut words = Vec::new(alloc);
    for word in line.split(' ') {
        words.push(word)?;
    }
    let first = words.first().copied().unwrap_or_default();
    let second = words.get(1).copied().unwrap_or_default();
    if first == "reclaim" {
        return Ok(Event::Reclaim(second.parse::<u64>().unwrap_or_default()));
    }
    let rest = words.get(1..).unwrap_or_default();
    Ok(Event::Seat(
        first.parse::<u16>().unwrap_or_default(),
        action(alloc, rest)?,
    ))
}

/// The events of a schedule: its lines but those that begin a store or ask for counts.
pub fn events(alloc: Global, input: &str) -> Result<Vec<Event>, Refusal> {
    let mut events = Vec::new(alloc);
    for line in input.lines() {
        if line != "counts" && !line.starts_with("store ") {
            events.push(event(alloc, line)?)?;
        }
    }
    Ok(events)
}
