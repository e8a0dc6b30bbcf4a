//! The bodies of requests.
use crate::draws::Draws;
use crate::requests::Edit;
use crate::triples::{POOL, POOL_SIZE, Triples};
use std::alloc::{AllocError, Global};

#[derive(Clone, Copy, Drop, PartialEq)]
pub enum Language {
    NTriples,
    Turtle,
}

const PREFIX: &str = "PREFIX e: <http://e/>\n";

const LINE_FAULTS: [&str; 4] = [
    "<a> <http://e/p> \"1\" .\n",
    "<http://e/a> <http://e/p> \"1\"\n",
    "\"1\" <http://e/p> <http://e/a> .\n",
    "<http://e/a> <http://e/p> \"1 .\n",
];

const TURTLE_FAULTS: [&str; 4] = [
    "x:a e:p 1 .\n",
    "e:a e:p .\n",
    "e:a e:p 1\n",
    "e:a e:p \"1 .\n",
];

/// Updates that are none, and such as are not served.
const UPDATE_FAULTS: [(u16, &str); 6] = [
    (400, "INSERT DATA { ?x e:p 1 }"),
    (400, "DELETE DATA { _:x e:p 1 }"),
    (400, "INSERT DATA { e:a e:p 1"),
    (422, "CLEAR ALL"),
    (422, "INSERT { e:a e:p 1 } WHERE { }"),
    (422, "INSERT DATA { GRAPH e:b { e:a e:p 1 } }"),
];

/// The numbers below `POOL_SIZE`, in another order: that of their multiples of a number that has no
/// divisor with it.
fn order(draws: &mut Draws) -> usize {
    match draws.below(4) {
        0 => 1,
        1 => 5,
        2 => 7,
        _ => 11,
    }
}

/// Adds the triples with this fault somewhere among them, which is empty where there is none.
fn push_triples(
    text: &mut Vec<u8>,
    draws: &mut Draws,
    language: Language,
    triples: Triples,
    fault: &str,
) -> Result<(), AllocError> {
    let stride = order(draws);
    let fault_place = draws.below(POOL_SIZE.saturating_add(1));
    for place in 0..POOL_SIZE {
        if place == fault_place {
            text.extend_from_slice(fault.as_bytes())?;
        }
        let number = place.wrapping_mul(stride) % POOL_SIZE;
        if let Some(entry) = POOL.get(number) {
            if triples.has(entry) {
                let (_, line, turtle) = entry;
                let written = if language == Language::Turtle {
                    turtle
                } else {
                    line
                };
                text.extend_from_slice(written.as_bytes())?;
                text.push(b'\n')?;
            }
        }
    }
    if fault_place == POOL_SIZE {
        text.extend_from_slice(fault.as_bytes())?;
    }
    Ok(())
}

/// A document of these triples, with a fault or without.
pub fn document(
    alloc: Global,
    draws: &mut Draws,
    language: Language,
    triples: Triples,
    has_fault: bool,
) -> Result<Vec<u8>, AllocError> {
    let mut text = Vec::new(alloc);
    let mut fault = "";
    if language == Language::Turtle {
        if has_fault {
            fault = draws.pick(&TURTLE_FAULTS);
        }
        if has_fault || triples != Triples::none() {
            text.extend_from_slice(PREFIX.as_bytes())?;
        }
    } else if has_fault {
        fault = draws.pick(&LINE_FAULTS);
    }
    push_triples(&mut text, draws, language, triples, fault)?;
    Ok(text)
}

/// Adds an operation.
fn push_edit(text: &mut Vec<u8>, draws: &mut Draws, edit: Edit) -> Result<(), AllocError> {
    if edit.inserts {
        text.extend_from_slice(b"INSERT DATA {\n")?;
    } else {
        text.extend_from_slice(b"DELETE DATA {\n")?;
    }
    push_triples(text, draws, Language::Turtle, edit.triples, "")?;
    text.extend_from_slice(b"}")
}

/// An update of two operations.
pub fn update(
    alloc: Global,
    draws: &mut Draws,
    first: Edit,
    second: Edit,
) -> Result<Vec<u8>, AllocError> {
    let mut text = Vec::new(alloc);
    text.extend_from_slice(PREFIX.as_bytes())?;
    push_edit(&mut text, draws, first)?;
    text.extend_from_slice(b" ;\n")?;
    push_edit(&mut text, draws, second)?;
    Ok(text)
}

/// A text that is no update, or is not served, and its status.
#[derive(Drop)]
pub struct FaultyUpdate {
    pub status: u16,
    pub text: Vec<u8>,
}

/// A faulty update that begins with a good operation or ends with one.
pub fn faulty_update(
    alloc: Global,
    draws: &mut Draws,
    edit: Edit,
) -> Result<FaultyUpdate, AllocError> {
    let mut text = Vec::new(alloc);
    let number = draws.below(UPDATE_FAULTS.len());
    let (status, fault) = UPDATE_FAULTS.get(number).copied().unwrap_or((400, "?"));
    text.extend_from_slice(PREFIX.as_bytes())?;
    if draws.is_one_in(2) {
        push_edit(&mut text, draws, edit)?;
        text.extend_from_slice(b" ; ")?;
        text.extend_from_slice(fault.as_bytes())?;
    } else {
        text.extend_from_slice(fault.as_bytes())?;
        text.extend_from_slice(b" ; ")?;
        push_edit(&mut text, draws, edit)?;
    }
    Ok(FaultyUpdate { status, text })
}
