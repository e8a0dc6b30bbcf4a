//! Graphs, patterns, and what a DELETE WHERE with these patterns leaves of them, worked by hand from
//! SPARQL 1.1 Query, section 18.3, and Update, section 3.1.3.3.
use crate::runs::print_both;
use gs_core::{Action, Event, Op, Refusal, UploadKind};
use gs_event::Scope;
use gs_term::Target;
use gs_test_events::{lines, patterns, triples};
use std::alloc::{AllocError, Global};
use std::test::Fail;

/// A row has a name, the triples of a graph, patterns, and the triples that are left, in their order.
const ROWS: &str = r#"
no triple has the predicate | <a> <p> <b> | ?s <q> ?o | <a> <p> <b>
every triple | <a> <p> <b> . _1 <q> "1" | ?s ?p ?o | -
an empty graph | - | ?s ?p ?o | -
no pattern | <a> <p> <b> | - | <a> <p> <b>
# patterns without variables
a triple that is there | <a> <p> <b> . <a> <p> <c> | <a> <p> <b> | <a> <p> <c>
a triple that is not there | <a> <p> <b> | <a> <p> <c> | <a> <p> <b>
two triples that are there | <a> <p> <b> . <a> <p> <c> . <a> <p> <d> | <a> <p> <b> . <a> <p> <d> | <a> <p> <c>
two triples of which one is not there | <a> <p> <b> | <a> <p> <b> . <a> <p> <c> | <a> <p> <b>
four triples that are there | <a> <p> <b> . <b> <p> <c> . <c> <p> <d> . <d> <p> <a> | <a> <p> <b> . <b> <p> <c> . <c> <p> <d> . <d> <p> <a> | -
a triple that is not there, and a variable | <a> <p> <b> . <c> <q> <d> | <a> <p> <c> . ?s <q> ?o | <a> <p> <b> . <c> <q> <d>
a triple that is there, and a variable | <a> <p> <b> . <c> <q> <d> . <e> <r> <f> | <a> <p> <b> . ?s <q> ?o | <e> <r> <f>
a literal is no IRI of its characters | <a> <p> "b" . <a> <p> <b> | <a> <p> "b" | <a> <p> <b>
a number is no string of its digits | <a> <p> "1" . <a> <p> 1 | ?s ?p 1 | <a> <p> "1"
three patterns, of which the one without a variable has no instance | <a> <p> <b> . <b> <q> <c> | ?x <p> ?y . <c> <r> <d> . ?y <q> ?z | <a> <p> <b> . <b> <q> <c>
# one pattern
any subject | <a> <p> <b> . <c> <p> <b> . <c> <p> <d> | ?s <p> <b> | <c> <p> <d>
any predicate | <a> <p> <b> . <a> <q> <b> . <a> <q> <c> | <a> ?p <b> | <a> <q> <c>
any object | <a> <p> "1" . <a> <p> <b> . <c> <p> <b> | <a> <p> ?o | <c> <p> <b>
any subject and predicate | <a> <p> <b> . <c> <q> <b> . <c> <q> <d> | ?s ?p <b> | <c> <q> <d>
any subject and object | <a> <p> <b> . <c> <p> <d> . <c> <q> <d> | ?s <p> ?o | <c> <q> <d>
any predicate and object | <a> <p> <b> . <a> <q> <c> . <b> <q> <c> | <a> ?p ?o | <b> <q> <c>
any subject of a literal | <a> <p> "1" . <b> <p> "1" . <b> <p> "2" | ?s <p> "1" | <b> <p> "2"
a variable as subject and object | <a> <p> <a> . <a> <p> <b> | ?x <p> ?x | <a> <p> <b>
a variable as subject and predicate | <a> <p> <b> . <p> <p> <b> | ?x ?x <b> | <a> <p> <b>
a variable as predicate and object | <a> <p> <b> . <a> <p> <p> | <a> ?x ?x | <a> <p> <b>
a variable at all three places | <p> <p> <a> . <p> <p> <p> | ?x ?x ?x | <p> <p> <a>
# two patterns that share a variable, at each pair of places
subject and subject | <a> <p> <b> . <a> <q> <c> . <d> <p> <b> | ?x <p> <b> . ?x <q> <c> | <d> <p> <b>
subject and predicate | <a> <p> <c> . <p> <k> <b> . <q> <k> <b> | ?x <k> <b> . <a> ?x <c> | <q> <k> <b>
subject and object | <a> <p> <b> . <c> <q> <a> . <d> <p> <b> | ?x <p> <b> . <c> <q> ?x | <d> <p> <b>
predicate and subject | <a> <p> <b> . <a> <r> <b> . <p> <q> <c> | <a> ?x <b> . ?x <q> <c> | <a> <r> <b>
predicate and predicate | <a> <p> <b> . <a> <q> <b> . <c> <p> <d> | <a> ?x <b> . <c> ?x <d> | <a> <q> <b>
predicate and object | <a> <p> <b> . <a> <r> <b> . <c> <q> <p> | <a> ?x <b> . <c> <q> ?x | <a> <r> <b>
object and subject | <a> <p> <b> . <a> <p> <d> . <b> <q> <c> | <a> <p> ?x . ?x <q> <c> | <a> <p> <d>
object and predicate | <a> <p> <q> . <a> <p> <r> . <c> <q> <d> | <a> <p> ?x . <c> ?x <d> | <a> <p> <r>
object and object | <a> <p> "1" . <a> <p> "2" . <c> <q> "1" | <a> <p> ?x . <c> <q> ?x | <a> <p> "2"
all three variables, which change places | <a> <p> <b> . <b> <p> <a> . <c> <p> <d> | ?x ?y ?z . ?z ?y ?x | <c> <p> <d>
three patterns that share a variable at three places | <a> <l> <p> . <a> <p> <c> . <a> <q> <c> . <p> <k> <b> . <q> <k> <b> | ?x <k> <b> . <a> ?x <c> . <a> <l> ?x | <a> <q> <c> . <q> <k> <b>
# variables that two patterns bind differently, and variables that are two
a variable of two subjects | <a> <p> <b> . <c> <q> <d> | ?x <p> <b> . ?x <q> <d> | <a> <p> <b> . <c> <q> <d>
a variable of a literal and an IRI | <a> <p> "b" . <b> <q> <c> | ?s <p> ?x . ?x <q> ?o | <a> <p> "b" . <b> <q> <c>
two variables that do not change places | <a> <p> <b> . <b> <p> <c> | ?x <p> ?y . ?y <p> ?x | <a> <p> <b> . <b> <p> <c>
two variables that change places | <a> <p> <b> . <b> <p> <a> . <b> <p> <c> | ?x <p> ?y . ?y <p> ?x | <b> <p> <c>
two names that differ in a capital letter | <a> <p> <b> . <c> <p> <c> | ?x <p> ?X | -
a name that goes on is another | <a> <p> <b> | ?x <p> ?xy | -
two variables may have one term | <a> <p> <a> | ?x <p> ?y | -
patterns that share no variable | <a> <p> <b> . <c> <q> <d> . <e> <q> <f> . <g> <r> <h> | ?x <p> ?y . ?z <q> ?w | <g> <r> <h>
such patterns, of which one has no instance | <a> <p> <b> . <c> <q> <d> | ?x <p> ?y . ?z <r> ?w | <a> <p> <b> . <c> <q> <d>
an instance of one pattern alone stays | <1> <p> <2> . <2> <q> "z" . <3> <p> <4> . <5> <q> "y" | ?s <p> ?o . ?o <q> ?z | <3> <p> <4> . <5> <q> "y"
# more patterns
a chain of four | <a> <p> <b> . <b> <p> <c> . <c> <p> <d> . <d> <p> <e> . <x> <p> <y> | ?a <p> ?b . ?b <p> ?c . ?c <p> ?d . ?d <p> ?e | <x> <p> <y>
a chain of four, written from its end | <a> <p> <b> . <b> <p> <c> . <c> <p> <d> . <d> <p> <e> . <x> <p> <y> | ?d <p> ?e . ?c <p> ?d . ?b <p> ?c . ?a <p> ?b | <x> <p> <y>
a chain that is too short | <a> <p> <b> . <b> <p> <c> . <c> <p> <d> | ?a <p> ?b . ?b <p> ?c . ?c <p> ?d . ?d <p> ?e | <a> <p> <b> . <b> <p> <c> . <c> <p> <d>
a chain round a circle | <a> <p> <b> . <a> <q> <b> . <b> <p> <a> | ?a <p> ?b . ?b <p> ?c . ?c <p> ?d . ?d <p> ?e | <a> <q> <b>
a chain of five removes its two chains of four | <a> <p> <b> . <b> <p> <c> . <c> <p> <d> . <d> <p> <e> . <e> <p> <f> | ?a <p> ?b . ?b <p> ?c . ?c <p> ?d . ?d <p> ?e | -
a star of four | <a> <p> <b> . <a> <q> <b> . <a> <r> <c> . <a> <s> "1" . <d> <p> <b> . <d> <q> <b> . <d> <r> <c> | ?x <p> ?a . ?x <q> ?b . ?x <r> ?c . ?x <s> ?d | <d> <p> <b> . <d> <q> <b> . <d> <r> <c>
a star of four that points to its middle | <a> <p> <m> . <a> <p> <n> . <b> <q> <m> . <c> <r> <m> . <d> <s> <m> | ?a <p> ?x . ?b <q> ?x . ?c <r> ?x . ?d <s> ?x | <a> <p> <n>
a triangle | <a> <p> <b> . <b> <p> <c> . <b> <p> <d> . <c> <p> <a> | ?x <p> ?y . ?y <p> ?z . ?z <p> ?x | <b> <p> <d>
four patterns that share the verb | <a> <p> <b> . <a> <q> <b> . <b> <p> <c> . <c> <p> <d> . <d> <p> "x" | <a> ?v <b> . <b> ?v <c> . <c> ?v <d> . <d> ?v "x" | <a> <q> <b>
four patterns that share no variable | <a> <p> "1" . <a> <q> "1" . <a> <r> "1" . <a> <s> "1" . <b> <t> "1" | ?a <p> ?b . ?c <q> ?d . ?e <r> ?f . ?g <s> ?h | <b> <t> "1"
four such patterns, of which the last has no instance | <a> <p> "1" . <a> <q> "1" . <a> <r> "1" | ?a <p> ?b . ?c <q> ?d . ?e <r> ?f . ?g <s> ?h | <a> <p> "1" . <a> <q> "1" . <a> <r> "1"
a star of four whose last point is another's | <a> <p> "1" . <a> <q> "1" . <a> <r> "1" . <b> <s> "1" | ?x <p> ?a . ?x <q> ?b . ?x <r> ?c . ?x <s> ?d | <a> <p> "1" . <a> <q> "1" . <a> <r> "1" . <b> <s> "1"
a loop is a chain of any length | <a> <p> <a> . <b> <p> <c> | ?a <p> ?b . ?b <p> ?c . ?c <p> ?d . ?d <p> ?e | <b> <p> <c>
one pattern twice | <a> <p> <b> . <a> <q> <b> | ?x <p> ?y . ?x <p> ?y | <a> <q> <b>
# blank nodes
a blank node as subject | <a> <p> <b> . _1 <p> <b> | ?x <p> <b> | -
a blank node as object | <a> <p> _1 . <a> <q> _1 | <a> <p> ?x | <a> <q> _1
a blank node of two patterns | _1 <p> _2 . _1 <p> _3 . _2 <q> <c> | ?x <p> ?y . ?y <q> ?z | _1 <p> _3
two blank nodes are two terms | _1 <p> _1 . _1 <p> _2 | ?x <p> ?x | _1 <p> _2
a blank node as object and subject | <a> <p> _1 . <b> <p> _2 . _1 <q> "1" . _3 <q> "2" | ?x <p> ?n . ?n <q> ?y | <b> <p> _2 . _3 <q> "2"
a star with a blank node in its middle | _1 <p> "1" . _1 <q> "1" . _2 <p> "1" | ?n <p> ?a . ?n <q> ?b | _2 <p> "1"
a blank node is no IRI | <a> <p> <b> . _1 <p> <b> | <a> <p> ?x | _1 <p> <b>
# several solutions
an instance of two solutions | <a> <p> <b> . <b> <q> "1" . <b> <q> "2" . <c> <p> <d> | ?x <p> ?y . ?y <q> ?z | <c> <p> <d>
an instance of two patterns | <a> <p> <b> . <c> <q> <d> | ?x <p> ?y . ?z <p> ?w | <c> <q> <d>
an instance of a pattern with variables and of one without | <a> <p> <b> . <a> <q> <c> | <a> <p> <b> . ?x <p> ?y | <a> <q> <c>
an instance of two patterns under two solutions | <a> <p> <b> . <b> <p> <c> . <c> <p> <d> | ?x <p> ?y . ?y <p> ?z | -
all solutions count, and not the first alone | <a> <p> <b> . <a> <q> "1" . <c> <p> <b> . <c> <q> "2" . <d> <p> <b> | ?x <p> <b> . ?x <q> ?z | <d> <p> <b>
"#;

/// The operation that takes out the instances of patterns, in a list.
fn operations(alloc: Global, removed: &str) -> Result<Vec<Op>, Refusal> {
    let patterns = patterns(alloc, removed)?;
    let mut operations = Vec::new(alloc);
    operations.push(Op::DeleteWhere(patterns))?;
    Ok(operations)
}

/// Adds an event of the first seat.
fn add(events: &mut Vec<Event>, action: Action) -> Result<(), Refusal> {
    events.push(Event::Seat(0, action))?;
    Ok(())
}

/// Adds the events by which a graph is put, patched and read.
fn add_all(
    alloc: Global,
    graph: &str,
    removed: &str,
    events: &mut Vec<Event>,
) -> Result<(), Refusal> {
    add(events, Action::Open(UploadKind::Put(Target::Default), None))?;
    add(events, Action::Stage(triples(alloc, graph)?))?;
    add(events, Action::Commit)?;
    add(events, Action::OpenPatch(Target::Default, None))?;
    add(events, Action::CommitPatch(operations(alloc, removed)?))?;
    add(events, Action::Pin(Scope::One(Target::Default)))?;
    add(events, Action::Piece(99))
}

/// A graph is put, patched and read.
fn events(alloc: Global, graph: &str, removed: &str) -> Result<Vec<Event>, Refusal> {
    let mut events = Vec::new(alloc);
    add_all(alloc, graph, removed, &mut events)?;
    Ok(events)
}

/// What these events print, where these lines are left.
fn wanted(alloc: Global, left: &str) -> Result<String, AllocError> {
    let lines = lines(alloc, left)?;
    let lines = lines.as_str();
    format!(in alloc; "opened 1\nstaged\n204\nopened 2\n204\n200\n{lines}end\n")
}

/// Whether a patch with these patterns leaves exactly these triples of a graph, over each of two
/// stores.
pub fn leaves(alloc: Global, graph: &str, removed: &str, left: &str) -> Result<bool, Refusal> {
    let want = wanted(alloc, left)?;
    let events = events(alloc, graph, removed)?;
    let answer = print_both(alloc, "", events.as_slice(), want.as_str(), want.as_str());
    drop(events);
    answer
}

/// The next column of a row; `-` stands for nothing.
fn column(text: Option<&str>) -> &str {
    let text = text.unwrap_or_default().trim();
    if text == "-" { "" } else { text }
}

/// Whether a row is right.
fn is_so(alloc: Global, row: &str) -> Result<bool, Refusal> {
    let mut columns = row.split('|');
    let _name = columns.next();
    let graph = column(columns.next());
    let removed = column(columns.next());
    let left = column(columns.next());
    leaves(alloc, graph, removed, left)
}

/// The first row that is wrong.
fn wrong_removal(alloc: Global) -> Result<Option<&'static str>, Refusal> {
    for row in ROWS.lines() {
        if row.contains('|') && !is_so(alloc, row)? {
            return Ok(Some(row));
        }
    }
    Ok(None)
}

#[test]
fn a_run_removes_the_instances_under_all_solutions(rt: HostRuntime) -> Result<(), Fail> {
    assert_eq!(rt; wrong_removal(rt.alloc())?, None);
    Ok(())
}

/// How many rows there are.
fn count_of_rows() -> usize {
    let mut count = 0usize;
    for row in ROWS.lines() {
        if row.contains('|') {
            count = count.saturating_add(1);
        }
    }
    count
}

#[test]
fn the_rows_are_read(rt: HostRuntime) {
    assert_eq!(rt; count_of_rows(), 72);
}
