//! The instances of patterns in a graph, found by trying each triple for each pattern.
ghost use Rattle.std.specs.Prelude.{◌≡◌, ◌<◌, ◌≤◌, [], length, IfOk, OnOk, option_map};
ghost use Rattle.std.specs.List.{All};
ghost use Rattle.std.specs.List.Sorted.{IsStrictlySortedBy};
ghost use Rattle.gs_model.specs.Triples.{triple_cmp};
ghost use Rattle.gs_event.specs.Solutions.{ListsInstances, term_for as term_for_of};
ghost use Rattle.gs_graphs.specs.Solving.{bindings_of, found_in, bound_by, marked_by, AreMarked, CopiesMarked, IsPlace, AdvancesSearch, StepsOn, GoesBack, Chooses, Binds, BindsTriple};

use crate::graphs::SortedGraph;
use gs_term::{Part, Pattern, TermText, Triple, VariableName};
use std::alloc::{AllocError, Global};

/// A variable and the term that it is bound to.
#[derive(Clone, Copy, Debug)]
struct Binding<'a> {
    name: &'a VariableName,
    term: &'a TermText,
}

/// How far a search is.
#[derive(Debug, Drop)]
struct Place<'a> {
    /// The number of the triple that is chosen for each of the first patterns. Some pattern is left.
    choices: Vec<usize>,
    /// The terms of these patterns' variables.
    bound: Vec<Binding<'a>>,
    /// The number of the triple that is tried next for the pattern after them.
    next: usize,
}

/// The triples of a graph that are instances of the patterns under a solution of all of them, in
/// the graph's order and each once. For p patterns in a graph of n triples it takes up to
/// n + n² + .. + nᵖ tries, and beside its result a byte a triple and some words a pattern.
pub fn instances(
    alloc: Global,
    graph: &SortedGraph,
    patterns: &[Pattern],
) -> Result<Vec<Triple>, AllocError>
    ensures found { IfOk result (λ found. ListsInstances graph.now patterns.now found.items) }
    ensures once { IfOk result (λ found. IsStrictlySortedBy triple_cmp found.items) }
{
    let triples = graph.as_slice();
    let marks = marks_of(alloc, triples, patterns)?;
    marked(alloc, triples, marks.as_slice())
}

/// A mark for each triple that is an instance.
fn marks_of(
    alloc: Global,
    triples: &[Triple],
    patterns: &[Pattern],
) -> Result<Vec<bool>, AllocError>
    requires { IsStrictlySortedBy triple_cmp triples.now }
    ensures { IfOk result (λ marks. AreMarked triples.now marks.items (found_in triples.now patterns.now)) }
{
    let mut marks = vec![in alloc; false; triples.len()]?;
    if patterns.is_empty() {
        return Ok(marks);
    }
    let mut place = Place {
        choices: Vec::new(alloc),
        bound: Vec::new(alloc),
        next: 0,
    };
    'steps: loop {
        if !advance(&mut place, marks.as_mut_slice(), triples, patterns)? {
            return Ok(marks);
        }
    }
}

/// Goes one step on, where there is one.
fn advance<'a>(
    place: &mut Place<'a>,
    marks: &mut [bool],
    triples: &'a [Triple],
    patterns: &'a [Pattern],
) -> Result<bool, AllocError>
    requires sorted { IsStrictlySortedBy triple_cmp triples.now }
    requires place { IsPlace triples.now patterns.now place.old }
    requires marks { length marks.old ≡ length triples.now }
    ensures { IfOk result (AdvancesSearch triples.now patterns.now place.old place.new marks.old marks.new) }
{
    if place.next < triples.len() {
        try_next(place, marks, triples, patterns)?;
        return Ok(true);
    }
    go_back(place, triples, patterns)
}

/// Tries the next triple for the first pattern that is left. Where no other is left, and it is an
/// instance, the triples chosen and this one are marked.
fn try_next<'a>(
    place: &mut Place<'a>,
    marks: &mut [bool],
    triples: &'a [Triple],
    patterns: &'a [Pattern],
) -> Result<(), AllocError>
    requires sorted { IsStrictlySortedBy triple_cmp triples.now }
    requires place { IsPlace triples.now patterns.now place.old }
    requires marks { length marks.old ≡ length triples.now }
    requires next { place.old.next < length triples.now }
    ensures { OnOk result (StepsOn triples.now patterns.now place.old place.new marks.old marks.new) }
{
    let chosen = place.next;
    let depth = place.choices.len();
    let before = place.bound.len();
    if !choose(&mut place.bound, &patterns[depth], &triples[chosen])? {
        place.next = chosen + 1;
        return Ok(());
    }
    if depth + 1 < patterns.len() {
        place.choices.push(chosen)?;
        place.next = 0;
        return Ok(());
    }
    mark(marks, place.choices.as_slice());
    marks[chosen] = true;
    place.bound.truncate(before);
    place.next = chosen + 1;
    Ok(())
}

/// Gives up the last choice, where there is one, for the triple after it.
fn go_back<'a>(
    place: &mut Place<'a>,
    triples: &'a [Triple],
    patterns: &'a [Pattern],
) -> Result<bool, AllocError>
    requires place { IsPlace triples.now patterns.now place.old }
    requires tried { length triples.now ≤ place.old.next }
    ensures { IfOk result (GoesBack triples.now patterns.now place.old place.new) }
{
    let Some(last) = place.choices.pop() else {
        return Ok(false);
    };
    place.bound.clear();
    bind_all(
        &mut place.bound,
        place.choices.as_slice(),
        triples,
        patterns,
    )?;
    place.next = last + 1;
    Ok(true)
}

/// Binds the variables of the first patterns anew, by the triples chosen for them.
fn bind_all<'a>(
    bound: &mut Vec<Binding<'a>>,
    choices: &[usize],
    triples: &'a [Triple],
    patterns: &'a [Pattern],
) -> Result<(), AllocError>
    requires empty { bound.old.items ≡ [] }
    requires few { length choices.now ≤ length patterns.now }
    requires chosen { All (λ i. i < length triples.now) choices.now }
    ensures { OnOk result (bindings_of bound.new.items ≡ bound_by triples.now patterns.now [] choices.now) }
{
    for (i, choice) in choices.iter().enumerate() {
        choose(bound, &patterns[i], &triples[*choice])?;
    }
    Ok(())
}

/// Marks these triples.
fn mark(marks: &mut [bool], choices: &[usize])
    requires { All (λ i. i < length marks.old) choices.now }
    ensures { marks.new ≡ marked_by choices.now marks.old }
{
    for choice in choices {
        marks[*choice] = true;
    }
}

/// Copies of the triples that are marked.
fn marked(alloc: Global, triples: &[Triple], marks: &[bool]) -> Result<Vec<Triple>, AllocError>
    requires { length marks.now ≡ length triples.now }
    ensures { CopiesMarked triples.now marks.now result }
{
    let mut found = Vec::new(alloc);
    for (i, triple) in triples.iter().enumerate() {
        if marks[i] {
            found.push(triple.clone()?)?;
        }
    }
    Ok(found)
}

/// Whether the triple is the pattern's instance under what is bound, and what is bound now besides:
/// nothing where it is not.
fn choose<'a>(
    bound: &mut Vec<Binding<'a>>,
    pattern: &'a Pattern,
    triple: &'a Triple,
) -> Result<bool, AllocError>
    ensures { IfOk result (Chooses bound.old.items bound.new.items pattern.now triple.now) }
{
    let before = bound.len();
    let stands = bind_triple(bound, pattern, triple)?;
    if !stands {
        bound.truncate(before);
    }
    Ok(stands)
}

/// Whether the triple is the pattern's instance under what is bound and what is bound now besides.
fn bind_triple<'a>(
    bound: &mut Vec<Binding<'a>>,
    pattern: &'a Pattern,
    triple: &'a Triple,
) -> Result<bool, AllocError>
    ensures { BindsTriple bound.old.items bound.new.items pattern.now triple.now result }
{
    if !bind(bound, &pattern.subject, triple.subject())? {
        return Ok(false);
    }
    if !bind(bound, &pattern.predicate, triple.predicate())? {
        return Ok(false);
    }
    bind(bound, &pattern.object, triple.object())
}

/// Whether the part stands for the term: it is the term, or a variable that is bound to it, be it
/// only now.
fn bind<'a>(
    bound: &mut Vec<Binding<'a>>,
    part: &'a Part,
    term: &'a TermText,
) -> Result<bool, AllocError>
    ensures { Binds bound.old.items bound.new.items part.now term.now result }
{
    match part {
        Part::Term(own) => Ok(own == term),
        Part::Variable(name) => match term_for(bound.as_slice(), name) {
            Some(other) => Ok(other == term),
            None => {
                bound.push(Binding { name, term })?;
                Ok(true)
            }
        },
    }
}

/// The term that the variable is bound to.
fn term_for<'a>(bound: &[Binding<'a>], name: &VariableName) -> Option<&'a TermText>
    ensures { option_map (λ t. t.now) result ≡ term_for_of (bindings_of bound.now) name.now }
{
    let mut found = None;
    for binding in bound {
        if binding.name.as_str() == name.as_str() {
            found = Some(binding.term);
        }
    }
    found
}
