//! Graphs, patterns, and what is left of each graph, worked by hand from SPARQL 1.1 Query, section
//! 18.3, and Update, section 3.1.3.3.
use crate::notation::{patterns, triples};
use crate::outcome::none_wrong;
use crate::trees::left_by;
use gs_model::Refusal;
use gs_ntwrite::line;
use gs_term::Triple;
use std::alloc::Global;
use std::test::Fail;

/// A row has a name, the triples of a graph, patterns, and the triples that are left.
const ROWS: &str = r#"
an instance of one pattern alone stays | 1 p 2, 2 q z, 3 p 4, 5 q y | ?s p ?o, ?o q ?z | 3 p 4, 5 q y
an empty graph | | ?s ?p ?o | 
no pattern | a p b | | a p b
every triple | a p b, _1 q "1 | ?s ?p ?o | 
a pattern without a variable | a p b, a p c | a p b | a p c
a pattern without a variable that is not there | a p b, b p a | a p a, ?s p b | a p b, b p a
a term that no triple has | a p b | ?s p c | a p b
a verb that no triple has, after a pattern that has instances | a p b, b p c | ?x p ?y, ?y r ?z | a p b, b p c
a range by its subject | a p b, a q c, b p c, c p d | b ?p ?o | a p b, a q c, c p d
a range by its subject and predicate | a p b, a q b, a q c, a r b, b q b | a q ?o | a p b, a r b, b q b
a range at the front of the graph | a p b, a p c, b p c | a p ?o | b p c
a range at the end of the graph | a p b, b p c, b p d | b p ?o | a p b
a range by a variable that is bound | a p b, a p c, b q d, b q e, c r d | a p ?x, ?x q ?y | a p c, c r d
a range of one key by variables that are bound | a p b, b p a, b p c | ?x p ?y, ?y p ?x | b p c
a subject that differs in its last byte is another | long1 p b, long2 p b, long3 p b | long2 ?p ?o | long1 p b, long3 p b
a predicate that differs in its last byte is another | a long1 b, a long2 b, a long3 b | ?s long2 ?o | a long1 b, a long3 b
an object that differs in its last byte is another | a p long1, a p long2, a p long3 | ?s ?p long2 | a p long1, a p long3
a bound term that differs in its last byte is another | a p long1, long1 q b, long2 q b | ?x p ?y, ?y q ?z | long2 q b
a subject that goes on is another | a p b, aa p b, ab p b | a ?p ?o | aa p b, ab p b
a variable as subject and object | a p a, a p b, b p b | ?x p ?x | a p b
a variable as subject and predicate | a p b, p p b | ?x ?x b | a p b
a variable as predicate and object | a p b, a p p | a ?x ?x | a p b
a variable at all three places | p p a, p p p | ?x ?x ?x | p p a
a variable of two patterns is bound once | a p b, c q d | ?x p b, ?x q d | a p b, c q d
blank nodes are matched | a p b, _1 p b, _1 q _2, _2 q b | ?x p b, ?x q ?y | a p b, _2 q b
a blank node is one term | _1 p _1, _1 p _2 | ?x p ?x | _1 p _2
a literal is no IRI of its characters | a p "b, a p b | a p "b | a p b
an instance of two solutions comes once | a p b, b q c, b q d, c p d | ?x p ?y, ?y q ?z | c p d
an instance of two patterns comes once | a p b, c q d | ?x p ?y, ?z p ?w | c q d
patterns that share no variable | a p b, c q d, g r h | ?x p ?y, ?z q ?w | g r h
a chain of four | a p b, b p c, c p d, d p e, x p y | ?a p ?b, ?b p ?c, ?c p ?d, ?d p ?e | x p y
a chain of four, from its end | a p b, b p c, c p d, d p e, x p y | ?d p ?e, ?c p ?d, ?b p ?c, ?a p ?b | x p y
a chain that is too short | a p b, b p c, c p d | ?a p ?b, ?b p ?c, ?c p ?d, ?d p ?e | a p b, b p c, c p d
a triangle | a p b, b p c, c p a, c p d, d p e | ?x p ?y, ?y p ?z, ?z p ?x | c p d, d p e
no triangle, though each pattern has partners for each triple | a p b, b p c, c p d, d p a | ?x p ?y, ?y p ?z, ?z p ?x | a p b, b p c, c p d, d p a
a part without a solution empties the others | a p b, a q b, b p c, c p d, d p a | ?x p ?y, ?y p ?z, ?z p ?x, ?v q ?w | a p b, a q b, b p c, c p d, d p a
an object that is shared | a p c, b p c, c q d, e p g | ?a p ?x, ?x q ?z, ?b p ?x | e p g
a subject that a later pattern knows | a p b, a p c, b q d, c q d, e q d | ?x q ?z, a p ?x | e q d
a star of four | a p b, a q b, a r c, a s d, d p b, d q b, d r c | ?x p ?a, ?x q ?b, ?x r ?c, ?x s ?d | d p b, d q b, d r c
"#;

/// Adds the lines of triples.
fn push_lines(triples: &[Triple], bytes: &mut Vec<u8>) -> Result<(), Refusal> {
    for triple in triples {
        line(triple, bytes)?;
    }
    Ok(())
}

/// The lines of triples.
fn lines(alloc: Global, text: &str) -> Result<Vec<u8>, Refusal> {
    let mut bytes = Vec::new(alloc);
    let triples = triples(alloc, text)?;
    let pushed = push_lines(triples.as_slice(), &mut bytes);
    drop(triples);
    pushed?;
    Ok(bytes)
}

/// The lines that are left of a graph without the instances of patterns.
fn left(alloc: Global, graph: &[Triple], removed: &str) -> Result<Vec<u8>, Refusal> {
    let removed = patterns(alloc, removed)?;
    let left = left_by(alloc, graph, removed.as_slice());
    drop(removed);
    left
}

/// Whether exactly these triples of a graph are left without the instances of patterns.
pub fn leaves(alloc: Global, graph: &str, removed: &str, wanted: &str) -> Result<bool, Refusal> {
    let wanted = lines(alloc, wanted)?;
    let graph = triples(alloc, graph)?;
    let left = left(alloc, graph.as_slice(), removed);
    drop(graph);
    Ok(left?.as_slice() == wanted.as_slice())
}

/// Whether a row is right.
fn is_so(alloc: Global, row: &str) -> Result<bool, Refusal> {
    let mut columns = row.split('|');
    let _name = columns.next();
    leaves(
        alloc,
        columns.next().unwrap_or_default(),
        columns.next().unwrap_or_default(),
        columns.next().unwrap_or_default(),
    )
}

/// The first row that is wrong, or `rows` where they are not 39.
fn wrong_row(alloc: Global) -> Result<Option<&'static str>, Refusal> {
    let mut right = 0usize;
    for row in ROWS.trim().lines() {
        if !is_so(alloc, row)? {
            return Ok(Some(row));
        }
        right = right.saturating_add(1);
    }
    Ok(if right == 39 { None } else { Some("rows") })
}

#[test]
fn the_instances_under_all_solutions_go(rt: HostRuntime) -> Result<(), Fail> {
    none_wrong(wrong_row(rt.alloc()))
}

/// Whether a row is right, and right again where a request for memory was refused.
fn is_right_again(alloc: Global) -> Result<bool, Refusal> {
    let row =
        "| a p b, a q b, b p c, b q c, c p d, c q d, d r a | ?x p ?y, ?x q ?y, ?y p ?z | c q d, d r a";
    match is_so(alloc, row) {
        Err(Refusal::NoMemory) => is_so(alloc, row),
        other => other,
    }
}

#[test]
fn a_refused_search_is_reported(rt: HostRuntime) -> Result<(), Fail> {
    assert!(rt; is_right_again(rt.alloc())?);
    Ok(())
}
