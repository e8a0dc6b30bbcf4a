//! What a seat does, step by step.
use gs_event::{Action, Event, Scope, UploadKind};
use gs_model::Refusal;
use gs_term::{Target, TermText, Triple};
use gs_triple_lists::TripleList;
use std::alloc::Global;

/// What a seat does to the default graph, or asks of all graphs.
#[derive(Clone, Copy)]
pub enum Step {
    Open,
    Stage,
    Commit,
    OpenPatch,
    CommitPatch,
    Delete,
    Head,
    HeadAll,
    Pin,
    PinAll,
    Piece,
    Cancel,
}

/// Two triples.
fn triples(alloc: Global) -> Result<TripleList, Refusal> {
    let mut list = Vec::new(alloc);
    for number in 0..2 {
        let subject = TermText::iri(alloc, "http://e/s")?;
        let predicate = TermText::iri(alloc, "http://e/p")?;
        let object = TermText::blank(alloc, 1, number)?;
        if !subject.is_subject() || !predicate.is_iri() {
            return Err(Refusal::Syntax(0));
        }
        list.push(Triple::new(subject, predicate, object))?;
    }
    Ok(TripleList::of(alloc, list)?)
}

/// This step of this seat. Two triples are staged, a patch has no operations, and a piece has one line.
pub fn event(alloc: Global, seat: u16, step: Step) -> Result<Event, Refusal> {
    let action = match step {
        Step::Open => Action::Open(UploadKind::Put(Target::Default), None),
        Step::Stage => Action::Stage(triples(alloc)?),
        Step::Commit => Action::Commit,
        Step::OpenPatch => Action::OpenPatch(Target::Default, None),
        Step::CommitPatch => Action::CommitPatch(Vec::new(alloc)),
        Step::Delete => Action::Delete(Target::Default, None),
        Step::Head => Action::Head(Scope::One(Target::Default)),
        Step::HeadAll => Action::Head(Scope::All),
        Step::Pin => Action::Pin(Scope::One(Target::Default)),
        Step::PinAll => Action::Pin(Scope::All),
        Step::Piece => Action::Piece(1),
        Step::Cancel => Action::Cancel,
    };
    Ok(Event::Seat(seat, action))
}
