//! Small graphs and patterns that are drawn, and a plain solver for them, apart from the store: it
//! tries every term for every variable (SPARQL 1.1 Query, section 18.3). What it leaves of a graph
//! is what a DELETE WHERE with the patterns must leave.
ghost use Rattle.std.specs.Prelude.{◌<◌};

use crate::removals::leaves;
use gs_core::Refusal;
use std::alloc::{AllocError, Global};
use std::test::Fail;

/// Four terms, in the order of their texts, and three variables.
const WORDS: [&str; 7] = ["\"x\"", "<a>", "<b>", "_1", "?x", "?y", "?z"];

/// Which triples a graph has, by their numbers, which have their order: 16 s + 4 p + o of the
/// numbers of their terms.
type Graph = [bool; 64];

/// The numbers of the words at the three places of a pattern.
type Places = [usize; 3];

/// A number below this one, which is not 0, and the next state.
fn draw(state: &mut u64, below: u64) -> usize {
    *state = state
        .wrapping_mul(6_364_136_223_846_793_005)
        .wrapping_add(1_442_695_040_888_963_407);
    let number = (*state >> 33).checked_rem(below).unwrap_or_default();
    usize::try_from(number).unwrap_or_default()
}

/// Each triple whose subject is no literal and whose predicate is an IRI, at one chance of two.
fn drawn_graph(state: &mut u64) -> Graph {
    let mut graph = [false; 64];
    for number in 16..64 {
        let predicate = number / 4 % 4;
        if predicate == 1 || predicate == 2 {
            graph[number] = draw(state, 2) == 0;
        }
    }
    graph
}

/// A variable, at four chances of five, or a term.
fn drawn_place(state: &mut u64) -> usize {
    match draw(state, 5) {
        0 => draw(state, 4),
        _ => draw(state, 3).saturating_add(4),
    }
}

/// One to four patterns.
fn drawn_patterns(alloc: Global, state: &mut u64) -> Result<Vec<Places>, AllocError> {
    let mut patterns = Vec::new(alloc);
    for _ in 0..=draw(state, 4) {
        patterns.push([drawn_place(state), drawn_place(state), drawn_place(state)])?;
    }
    Ok(patterns)
}

/// The term at a place, where the variables' terms are the digits of `assigned` to the base 4.
fn term_at(assigned: usize, place: usize) -> usize
    ensures { result < 4 }
{
    match place {
        4 => assigned % 4,
        5 => assigned / 4 % 4,
        6 => assigned / 16 % 4,
        term => term % 4,
    }
}

/// The number of a pattern's instance.
fn instance(assigned: usize, places: &Places) -> usize
    ensures { result < 64 }
{
    let subject = term_at(assigned, places[0]);
    let predicate = term_at(assigned, places[1]);
    16 * subject + 4 * predicate + term_at(assigned, places[2])
}

/// Whether the graph has the instance of each pattern.
fn is_solution(graph: &Graph, patterns: &[Places], assigned: usize) -> bool {
    for places in patterns {
        if !graph[instance(assigned, places)] {
            return false;
        }
    }
    true
}

fn take_out(graph: &mut Graph, patterns: &[Places], assigned: usize) {
    for places in patterns {
        graph[instance(assigned, places)] = false;
    }
}

/// The graph without the instances of the patterns under all solutions.
fn without_instances(graph: &Graph, patterns: &[Places]) -> Graph {
    let mut left = *graph;
    for assigned in 0..64 {
        if is_solution(graph, patterns, assigned) {
            take_out(&mut left, patterns, assigned);
        }
    }
    left
}

/// The words at three places, and a dot.
fn push_places(text: &mut String, places: &Places) -> Result<(), AllocError> {
    for place in places {
        text.push_str(WORDS.get(*place).copied().unwrap_or_default())?;
        text.push(' ')?;
    }
    text.push_str(". ")
}

fn graph_text(alloc: Global, graph: &Graph) -> Result<String, AllocError> {
    let mut text = String::new(alloc);
    for number in 0..64 {
        if graph[number] {
            push_places(&mut text, &[number / 16, number / 4 % 4, number % 4])?;
        }
    }
    Ok(text)
}

fn patterns_text(alloc: Global, patterns: &[Places]) -> Result<String, AllocError> {
    let mut text = String::new(alloc);
    for places in patterns {
        push_places(&mut text, places)?;
    }
    Ok(text)
}

/// A drawn graph, drawn patterns, and what these leave of it, as texts.
#[derive(Drop)]
struct Drawn {
    graph: String,
    removed: String,
    left: String,
}

/// The next draw.
fn next_draw(alloc: Global, state: &mut u64) -> Result<Drawn, AllocError> {
    let graph = drawn_graph(state);
    let patterns = drawn_patterns(alloc, state)?;
    let left = without_instances(&graph, patterns.as_slice());
    Ok(Drawn {
        graph: graph_text(alloc, &graph)?,
        removed: patterns_text(alloc, patterns.as_slice())?,
        left: graph_text(alloc, &left)?,
    })
}

/// Whether both stores leave what must be left.
fn is_so(alloc: Global, drawn: &Drawn) -> Result<bool, Refusal> {
    let graph = drawn.graph.as_str();
    leaves(alloc, graph, drawn.removed.as_str(), drawn.left.as_str())
}

/// The graph of a draw, and with a bar after it the patterns, where a store leaves something else.
fn wrong_in(alloc: Global, drawn: &Drawn) -> Result<Option<String>, Refusal> {
    if is_so(alloc, drawn)? {
        return Ok(None);
    }
    let (graph, removed) = (drawn.graph.as_str(), drawn.removed.as_str());
    Ok(Some(format!(in alloc; "{graph}| {removed}")?))
}

/// The first of 300 draws of which a store leaves something else.
fn wrong_draw(alloc: Global) -> Result<Option<String>, Refusal> {
    let mut state = 1;
    for _ in 0..300 {
        let drawn = next_draw(alloc, &mut state)?;
        let wrong = wrong_in(alloc, &drawn);
        drop(drawn);
        if let Some(text) = wrong? {
            return Ok(Some(text));
        }
    }
    Ok(None)
}

#[test]
fn a_run_leaves_what_every_assignment_leaves(rt: HostRuntime) -> Result<(), Fail> {
    assert_eq!(rt; wrong_draw(rt.alloc())?, None);
    Ok(())
}

/// How many of 300 draws take out some triples and leave some.
fn count_of_parted(alloc: Global) -> Result<u32, AllocError> {
    let mut state = 1;
    let mut parted: u32 = 0;
    for _ in 0..300 {
        let drawn = next_draw(alloc, &mut state)?;
        if drawn.left != drawn.graph && !drawn.left.is_empty() {
            parted = parted.saturating_add(1);
        }
    }
    Ok(parted)
}

#[test]
fn many_draws_take_out_some_triples_and_leave_some(rt: HostRuntime) -> Result<(), Fail> {
    assert!(rt; count_of_parted(rt.alloc())? >= 100);
    Ok(())
}
