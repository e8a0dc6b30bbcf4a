//! What is measured: a document filled piece by piece, a walk over all keys, and small unions.
use crate::document::{Document, Terms, mixed};
use crate::graphs::Graph;
use gs_dict::{GUESSED_TOGETHER, NO_TERM};
use gs_model::Refusal;
use gs_pool::Key;
use std::alloc::{AllocError, Global};

/// The triples of a piece.
const PIECE: u32 = 500;

/// The keys that a walk takes at once, and the lines of a piece that is read.
const STEP: usize = 256;

/// How far each piece goes.
#[derive(Clone, Copy, PartialEq, Eq, PartialOrd, Ord, Drop)]
pub enum Phase {
    /// Terms are made, and nothing more.
    Make,
    Intern,
    Sort,
    /// Keys are tested, as a union asks for.
    Test,
    Unite,
}

/// The terms of the piece that begins at a place.
fn piece_from(alloc: Global, document: &Document, from: u32) -> Result<Vec<Terms>, Refusal> {
    let to = from.saturating_add(PIECE).min(document.count());
    let mut piece = Vec::with_capacity(alloc, PIECE as usize)?;
    for at in from..to {
        piece.push(document.terms(at)?)?;
    }
    Ok(piece)
}

/// Takes a piece as far as the phase goes, and says how many keys it adds.
fn take(
    graph: &mut Graph,
    piece: &[Terms],
    phase: Phase,
    keys: &mut Vec<Key>,
) -> Result<usize, Refusal> {
    keys.clear();
    let mut guesses = [NO_TERM; GUESSED_TOGETHER];
    for (at, terms) in piece.iter().enumerate() {
        if at % GUESSED_TOGETHER == 0 {
            guesses = graph.guesses(&piece[at..]);
        }
        keys.push(graph.key_of(guesses[at % GUESSED_TOGETHER], terms)?)?;
    }
    if phase >= Phase::Sort {
        graph.sort(keys);
    }
    match phase {
        Phase::Unite => graph.unite(keys, 0),
        Phase::Test if graph.may_unite(keys) => Ok(keys.len()),
        _ => Ok(0),
    }
}

/// Fills a graph with a document, as far as the phase goes, and says how many keys that adds.
pub fn fill(
    alloc: Global,
    graph: &mut Graph,
    document: &Document,
    phase: Phase,
) -> Result<usize, Refusal> {
    let mut keys = Vec::new(alloc);
    let mut added = 0usize;
    for number in 0..document.count().div_ceil(PIECE) {
        let piece = piece_from(alloc, document, number.saturating_mul(PIECE))?;
        if phase >= Phase::Intern {
            added = added.saturating_add(take(graph, &piece, phase, &mut keys)?);
        }
    }
    Ok(added)
}

/// Walks all keys: how many there are.
pub fn walk(alloc: Global, graph: &Graph) -> Result<usize, Refusal> {
    let mut keys: Vec<Key> = Vec::new(alloc);
    let mut from = None;
    let mut walked = 0usize;
    for _ in 0..=graph.nodes() {
        keys.clear();
        graph.next_keys(from, STEP, &mut keys)?;
        walked = walked.saturating_add(keys.len());
        let Some(last) = keys.last() else {
            break;
        };
        from = Some(*last);
    }
    Ok(walked)
}

/// Reads all lines, a piece at a time: how many bytes they have.
pub fn read(alloc: Global, graph: &Graph) -> Result<usize, Refusal> {
    let mut from = None;
    let mut bytes = 0usize;
    for _ in 0..=graph.nodes() {
        let piece = graph.next_lines(alloc, from, STEP as u32)?;
        from = piece.last;
        let is_end = piece.is_end;
        bytes = bytes.saturating_add(piece.lines.into_bytes().len());
        if is_end {
            break;
        }
    }
    Ok(bytes)
}

/// Where the keys of a small run stand.
#[derive(Clone, Copy, PartialEq, Eq, Drop)]
pub enum Places {
    /// They have one subject.
    Near,
    /// Each has a subject that is drawn.
    Apart,
}

/// All keys of a graph.
fn all_keys(alloc: Global, graph: &Graph) -> Result<Vec<Key>, AllocError> {
    let mut keys = Vec::new(alloc);
    graph.next_keys(None, graph.nodes() as usize, &mut keys)?;
    Ok(keys)
}

/// Ten keys of numbers that keys of the graph have, which it mostly lacks.
fn draw(
    graph: &Graph,
    known: &[Key],
    places: Places,
    run: u64,
    keys: &mut Vec<Key>,
) -> Result<(), AllocError> {
    keys.clear();
    for number in 0..10 {
        let drawn = mixed(run.wrapping_mul(10).wrapping_add(number));
        let first = match places {
            Places::Near => mixed(run),
            Places::Apart => mixed(drawn),
        };
        let count = known.len().max(1) as u64;
        if let (Some(subject), Some(object)) = (
            known.get((first % count) as usize),
            known.get((drawn % count) as usize),
        ) {
            keys.push(Key {
                object: object.object,
                ..*subject
            })?;
        }
    }
    graph.sort(keys);
    Ok(())
}

/// Draws runs of ten keys, and unites them with the graph in commits of their own where that is asked
/// for: how many keys that adds.
pub fn unite_few(
    alloc: Global,
    graph: &mut Graph,
    places: Places,
    runs: u64,
    unites: bool,
) -> Result<usize, Refusal> {
    let known = all_keys(alloc, graph)?;
    let mut keys = Vec::new(alloc);
    let mut added = 0usize;
    for run in 0..runs {
        draw(graph, &known, places, run, &mut keys)?;
        if unites {
            let commit = run.saturating_add(1);
            added = added.saturating_add(graph.unite(&keys, commit)?);
        } else if graph.may_unite(&keys) {
            added = added.saturating_add(1);
        }
    }
    Ok(added)
}
