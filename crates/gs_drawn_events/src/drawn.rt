//! What is asked, drawn.
use crate::asks::{Ask, Edit, Kind, Place, Scope};
use crate::molds::{Mold, Slot, VARIABLES};
use crate::terms::{FIRST_PREDICATE, FIRST_SUBJECT, LITERAL, TRIPLES};
use gs_drawn_requests::Draws;
use std::alloc::{AllocError, Global};

/// A list of at most so many triples, with repeats.
pub fn drawn_list(alloc: Global, draws: &mut Draws, most: usize) -> Result<Vec<usize>, AllocError> {
    let mut list = Vec::new(alloc);
    for _ in 0..draws.below(most.saturating_add(1)) {
        list.push(draws.below(TRIPLES))?;
    }
    Ok(list)
}

/// The default graph, or one of two names.
pub fn drawn_place(draws: &mut Draws) -> Place {
    match draws.below(3) {
        0 => Place::Default,
        1 => Place::A,
        _ => Place::B,
    }
}

/// One of these, a name that the store made up, or would make up for some request.
pub fn drawn_any_place(draws: &mut Draws, made: &[Place]) -> Place {
    if draws.is_one_in(40) {
        return Place::Made(draws.below(50) as u64, draws.below(2) as u64);
    }
    if draws.is_one_in(5)
        && let Some(place) = made.get(draws.below(made.len()))
    {
        return *place;
    }
    drawn_place(draws)
}

/// A put, a post, or a new graph.
pub fn drawn_kind(draws: &mut Draws, made: &[Place]) -> Kind {
    let place = drawn_any_place(draws, made);
    match draws.below(8) {
        0..3 => Kind::Put(place),
        3..7 => Kind::Post(place),
        _ => Kind::New,
    }
}

/// How many lines a piece has.
pub fn drawn_count(draws: &mut Draws) -> u32 {
    match draws.below(8) {
        0..4 => 1,
        4 | 5 => 2,
        6 => 3,
        _ => 99,
    }
}

/// One of the first terms from this one on, so many, or a variable.
fn drawn_slot(draws: &mut Draws, first: u8, count: usize) -> Slot {
    if draws.is_one_in(2) {
        return Slot::Variable(draws.below(VARIABLES));
    }
    let number = u8::try_from(draws.below(count)).unwrap_or_default();
    Slot::Term(first.saturating_add(number))
}

fn drawn_mold(draws: &mut Draws) -> Mold {
    let object = if draws.is_one_in(2) {
        drawn_slot(draws, LITERAL, 1)
    } else {
        drawn_slot(draws, FIRST_SUBJECT, 1)
    };
    Mold {
        slots: [
            drawn_slot(draws, FIRST_SUBJECT, 4),
            drawn_slot(draws, FIRST_PREDICATE, 2),
            object,
        ],
    }
}

fn drawn_edit(alloc: Global, draws: &mut Draws) -> Result<Edit, AllocError> {
    match draws.below(6) {
        0..3 => Ok(Edit::Insert(drawn_list(alloc, draws, 5)?)),
        3 | 4 => Ok(Edit::Remove(drawn_list(alloc, draws, 6)?)),
        _ => {
            let first = drawn_mold(draws);
            let second = if draws.is_one_in(2) {
                Some(drawn_mold(draws))
            } else {
                None
            };
            Ok(Edit::Where(first, second))
        }
    }
}

/// Operations, at most four.
pub fn drawn_edits(alloc: Global, draws: &mut Draws) -> Result<Vec<Edit>, AllocError> {
    let mut edits = Vec::new(alloc);
    for _ in 0..draws.below(5) {
        edits.push(drawn_edit(alloc, draws)?)?;
    }
    Ok(edits)
}

/// Anything, whether it makes sense or not.
pub fn drawn_any(alloc: Global, draws: &mut Draws, made: &[Place]) -> Result<Ask, AllocError> {
    let place = drawn_any_place(draws, made);
    match draws.below(10) {
        0 => Ok(Ask::Open(drawn_kind(draws, made), None)),
        1 => Ok(Ask::OpenPatch(place, None)),
        2 => Ok(Ask::Delete(place, None)),
        3 => Ok(Ask::Head(Scope::One(place))),
        4 => Ok(Ask::Pin(Scope::One(place))),
        _ => drawn_inner(alloc, draws),
    }
}

/// Anything that an idle seat refuses.
pub fn drawn_inner(alloc: Global, draws: &mut Draws) -> Result<Ask, AllocError> {
    match draws.below(5) {
        0 => Ok(Ask::Stage(drawn_list(alloc, draws, 4)?)),
        1 => Ok(Ask::Commit),
        2 => Ok(Ask::Patch(drawn_edits(alloc, draws)?)),
        3 => Ok(Ask::Piece(u32::from(draws.is_one_in(2)))),
        _ => Ok(Ask::Cancel),
    }
}

/// What a seat with an upload is asked.
pub fn drawn_for_upload(alloc: Global, draws: &mut Draws) -> Result<Ask, AllocError> {
    match draws.below(10) {
        0..6 => Ok(Ask::Stage(drawn_list(alloc, draws, 8)?)),
        6..9 => Ok(Ask::Commit),
        _ => Ok(Ask::Cancel),
    }
}

/// What a seat with a patch is asked.
pub fn drawn_for_patch(alloc: Global, draws: &mut Draws) -> Result<Ask, AllocError> {
    if draws.is_one_in(10) {
        return Ok(Ask::Cancel);
    }
    Ok(Ask::Patch(drawn_edits(alloc, draws)?))
}

/// What a seat with a read is asked.
pub fn drawn_for_read(draws: &mut Draws) -> Ask {
    if draws.is_one_in(10) {
        return Ask::Cancel;
    }
    Ask::Piece(drawn_count(draws))
}

/// What an idle seat is asked.
pub fn drawn_for_idle(draws: &mut Draws, made: &[Place]) -> Ask {
    let place = drawn_any_place(draws, made);
    match draws.below(100) {
        0..40 => Ask::Open(drawn_kind(draws, made), None),
        40..62 => Ask::OpenPatch(place, None),
        62..70 => Ask::Delete(place, None),
        70..74 => Ask::Head(Scope::One(place)),
        _ => Ask::Pin(Scope::One(place)),
    }
}

/// The same, but one in three questions and reads is about all graphs.
pub fn drawn_wider(draws: &mut Draws, ask: Ask) -> Ask {
    match ask {
        Ask::Head(scope) => Ask::Head(drawn_scope(draws, scope)),
        Ask::Pin(scope) => Ask::Pin(drawn_scope(draws, scope)),
        other => other,
    }
}

/// This, or at one chance of three all graphs.
fn drawn_scope(draws: &mut Draws, scope: Scope) -> Scope {
    if draws.is_one_in(3) {
        return Scope::All;
    }
    scope
}

/// How far below the last commit number a condition may be drawn.
const NEAR: usize = 9;

/// A commit number near the last one: below it, it, the next one, 0, or one that no commit has.
fn drawn_near(draws: &mut Draws, commit: u64) -> u64 {
    match draws.below(12) {
        0 => 0,
        1 => u64::MAX,
        2 => commit.saturating_add(1),
        _ => commit.saturating_sub(draws.below(NEAR) as u64),
    }
}

/// No condition, or at one chance of four one that is drawn near the last commit number.
fn drawn_since(draws: &mut Draws, commit: u64) -> Option<u64> {
    if draws.is_one_in(4) {
        return Some(drawn_near(draws, commit));
    }
    None
}

/// The same, but one in four writes has a condition. The last commit has this number.
pub fn drawn_on_condition(draws: &mut Draws, ask: Ask, commit: u64) -> Ask {
    match ask {
        Ask::Open(kind, _) => Ask::Open(kind, drawn_since(draws, commit)),
        Ask::OpenPatch(place, _) => Ask::OpenPatch(place, drawn_since(draws, commit)),
        Ask::Delete(place, _) => Ask::Delete(place, drawn_since(draws, commit)),
        other => other,
    }
}
