//! Small graphs and patterns by a seed: what is left is what the search over all triples leaves.
use crate::draws::Draws;
use crate::notation::{patterns, triples};
use crate::outcome::none_wrong;
use crate::trees::left_by;
use gs_event::Op;
use gs_graphs::{SortedGraph, update};
use gs_model::Refusal;
use gs_term::{Pattern, Triple};
use std::alloc::{AllocError, Global};
use std::test::Fail;

/// What a graph and its patterns are drawn from: of all triples of these words, each or none, and up to
/// so many patterns.
struct Words {
    subjects: &'static str,
    predicates: &'static str,
    objects: &'static str,
    parts: &'static str,
    most: u64,
}

/// 24 triples, and words of patterns of which no graph has `c`.
const FEW: Words = Words {
    subjects: "a b _1",
    predicates: "a b",
    objects: "a b _1 \"a",
    parts: "?x ?y ?z ?w ?x ?y ?z ?w ?x ?y ?z a b a _1 c",
    most: 4,
};

/// 2,400 triples, of which some 1,200 are drawn: more keys than are read at once.
const MANY: Words = Words {
    subjects: "n0 n1 n2 n3 n4 n5 n6 n7 n8 n9 _1 _2",
    predicates: "n0 n1 n2 p q",
    objects: "n0 n1 n2 n3 n4 n5 n6 n7 n8 n9 _1 _2 _3 m0 m1 m2 m3 m4 m5 m6 m7 m8 m9 \"0 \"1 \"2 \"3 \"4 \"5 \"6 \"7 \"8 \"9 k0 k1 k2 k3 k4 k5 k6",
    parts: "?x ?y ?z ?w ?x ?y ?z ?w ?x ?y n0 n1 n2 p q _1",
    most: 2,
};

/// Each of the triples of these words, or none, as it is drawn.
fn push_graph(draws: &mut Draws, words: &Words, text: &mut String) -> Result<(), AllocError> {
    for subject in words.subjects.split(' ') {
        for predicate in words.predicates.split(' ') {
            for object in words.objects.split(' ') {
                if draws.next() % 2 == 0 {
                    text.push_str(subject)?;
                    text.push(' ')?;
                    text.push_str(predicate)?;
                    text.push(' ')?;
                    text.push_str(object)?;
                    text.push(',')?;
                }
            }
        }
    }
    Ok(())
}

/// A word of a pattern.
fn part(draws: &mut Draws, words: &Words) -> &'static str {
    let at = (draws.next() % 16) as usize;
    words.parts.split(' ').nth(at).unwrap_or("?x")
}

/// One pattern or some.
fn push_patterns(draws: &mut Draws, words: &Words, text: &mut String) -> Result<(), AllocError> {
    let many = draws.next().checked_rem(words.most).unwrap_or_default();
    for _ in 0..many.saturating_add(1) {
        text.push_str(part(draws, words))?;
        text.push(' ')?;
        text.push_str(part(draws, words))?;
        text.push(' ')?;
        text.push_str(part(draws, words))?;
        text.push(',')?;
    }
    Ok(())
}

/// The operation that takes out the instances of patterns, in a list.
fn removal(alloc: Global, patterns: Vec<Pattern>) -> Result<Vec<Op>, Refusal> {
    let mut operations = Vec::new(alloc);
    operations.push(Op::DeleteWhere(patterns))?;
    Ok(operations)
}

/// The patterns of the first operation.
fn patterns_of(operations: &[Op]) -> &[Pattern] {
    match operations.first() {
        Some(Op::DeleteWhere(patterns)) => patterns.as_slice(),
        _ => &[],
    }
}

/// The lines that the search over all triples leaves of a graph of these triples, which is lent empty.
fn left_slowly(
    alloc: Global,
    graph: &mut SortedGraph,
    triples: &[Triple],
    operations: &[Op],
) -> Result<Vec<u8>, Refusal> {
    graph.add_within(alloc, triples, 2_400)?;
    update(graph, alloc, operations)?;
    let bytes = graph.lines_from(alloc, 0, graph.len())?;
    Ok(bytes)
}

/// Whether the other search leaves these lines.
fn leaves(
    alloc: Global,
    triples: &[Triple],
    patterns: &[Pattern],
    wanted: &[u8],
) -> Result<bool, Refusal> {
    let left = left_by(alloc, triples, patterns)?;
    Ok(left.as_slice() == wanted)
}

/// Whether triples go, where both leave the same of a graph.
fn loses(
    alloc: Global,
    graph: &mut SortedGraph,
    triples: &[Triple],
    operations: &[Op],
) -> Result<Option<bool>, Refusal> {
    let wanted = left_slowly(alloc, graph, triples, operations)?;
    let is_same = leaves(alloc, triples, patterns_of(operations), wanted.as_slice());
    drop(wanted);
    let goes = graph.len() < triples.len();
    Ok(if is_same? { Some(goes) } else { None })
}

/// The triples of the next graph that is drawn.
fn draw_graph(alloc: Global, draws: &mut Draws, words: &Words) -> Result<Vec<Triple>, Refusal> {
    let mut text = String::new(alloc);
    push_graph(draws, words, &mut text)?;
    triples(alloc, text.as_str())
}

/// The next patterns that are drawn.
fn draw_patterns(alloc: Global, draws: &mut Draws, words: &Words) -> Result<Vec<Pattern>, Refusal> {
    let mut text = String::new(alloc);
    push_patterns(draws, words, &mut text)?;
    patterns(alloc, text.as_str())
}

/// The same with a graph of its own.
fn loses_by(
    alloc: Global,
    triples: &[Triple],
    patterns: Vec<Pattern>,
) -> Result<Option<bool>, Refusal> {
    let operations = removal(alloc, patterns)?;
    let mut graph = SortedGraph::new(alloc);
    let answer = loses(alloc, &mut graph, triples, operations.as_slice());
    drop(graph);
    drop(operations);
    answer
}

/// The same of the next graph that is drawn.
fn next_loses(alloc: Global, draws: &mut Draws, words: &Words) -> Result<Option<bool>, Refusal> {
    let triples = draw_graph(alloc, draws, words)?;
    let answer = match draw_patterns(alloc, draws, words) {
        Ok(patterns) => loses_by(alloc, triples.as_slice(), patterns),
        Err(refusal) => Err(refusal),
    };
    drop(triples);
    answer
}

/// How many of so many graphs lose triples; 0 where both do not leave the same of one of them.
fn count_alike(alloc: Global, words: &Words, many: usize) -> Result<usize, Refusal> {
    let mut draws = Draws::new(5);
    let mut some = 0usize;
    for _ in 0..many {
        match next_loses(alloc, &mut draws, words)? {
            Some(true) => some = some.saturating_add(1),
            Some(false) => {}
            None => return Ok(0),
        }
    }
    Ok(some)
}

/// How many of so many graphs lose triples, where no more than so few do.
fn too_few(
    alloc: Global,
    words: &Words,
    many: usize,
    few: usize,
) -> Result<Option<usize>, Refusal> {
    let some = count_alike(alloc, words, many)?;
    Ok(if some > few { None } else { Some(some) })
}

#[test]
fn both_searches_leave_the_same_of_small_graphs(rt: HostRuntime) -> Result<(), Fail> {
    none_wrong(too_few(rt.alloc(), &FEW, 500, 100))
}

#[test]
fn both_searches_leave_the_same_of_large_graphs(rt: HostRuntime) -> Result<(), Fail> {
    none_wrong(too_few(rt.alloc(), &MANY, 6, 2))
}
