//! Graphs, updates, and what is left of each graph, worked by hand from SPARQL 1.1 Update, sections
//! 3.1.1, 3.1.2 and 3.1.3.3.
use crate::notation::triples;
use crate::update_trees::is_left;
use crate::updates::operations;
use gs_event::Op;
use gs_model::Refusal;
use gs_triple_lists::TripleList;
use std::alloc::Global;
use std::test::Fail;

/// A row has a name, the triples of a graph, an update, the triples that are left, and how many came
/// and how many went on the way.
const ROWS: &str = r#"
no operation | a p b | | a p b | 0 | 0
a triple comes | a p b | + a p c | a p b, a p c | 1 | 0
a triple that is there does not come again | a p b | + a p b, b p a | a p b, b p a | 1 | 0
a triple that is listed twice comes once | | + a p b, a p b | a p b | 1 | 0
a triple goes | a p b, a p c | - a p b | a p c | 0 | 1
a triple that is listed twice goes once | a p b, a p c | - a p b, a p b | a p c | 0 | 1
a triple that is not there does not go | a p b, b q a | - b p a, a q b | a p b, b q a | 0 | 0
a triple with an unknown term does not go | a a a | - a a x, a x a, x a a | a a a | 0 | 0
a known triple goes beside unknown ones | a a a, b a a | - x y z, a a a, a y z | b a a | 0 | 1
the last triple goes | a p b | - a p b | | 0 | 1
instances go | a p b, b p c, c q d | * ?x p ?y | c q d | 0 | 2
no instance goes | a p b | * ?x q ?y | a p b | 0 | 0
instances of new triples go | a p b | + b p c ; * ?x p ?y, ?y p ?z | | 1 | 2
a triple that comes goes again | | + a p b ; - a p b | | 1 | 1
a triple that goes comes again | a p b | - a p b ; + a p b | a p b | 1 | 1
a term that is new is known to the next operation | a p b | + x y z ; - x y z, a p z | a p b | 1 | 1
a term that is new to the next operation is unknown to this one | a p b | - x y z ; + x y z | a p b, x y z | 1 | 0
each operation sees what the one before it left | a p b | - a p b ; + b p c ; * a p ?x ; + b p d | b p c, b p d | 2 | 1
operations without a triple or a pattern | a p b | + ; - ; * | a p b | 0 | 0
blank nodes and literals | _1 p "a | + _1 p "b, _2 p "a ; - _1 p "a ; * _2 ?p ?o | _1 p "b | 2 | 2
many | a p b, a p c, b p a, b p c, c p a, c p b | + d p a, d p b, a p d, b p d ; - a p b, b p a, d p d ; * ?x p a, ?x p b | a p c, a p d, b p c, b p d | 4 | 6
"#;

/// The number that a column has.
fn number(column: Option<&str>) -> u128 {
    column
        .unwrap_or_default()
        .trim()
        .parse::<u128>()
        .unwrap_or_default()
}

/// Whether an update leaves exactly the triples wanted, and says so many.
fn leaves(
    alloc: Global,
    graph: &TripleList,
    update: &[Op],
    wanted: &str,
    added: u128,
    removed: u128,
) -> Result<bool, Refusal> {
    let wanted = triples(alloc, wanted)?;
    let answer = is_left(alloc, graph, update, wanted.as_slice(), added, removed);
    drop(wanted);
    answer
}

/// Whether a row is right, without its graph, which is lent.
fn is_so_of(
    alloc: Global,
    graph: &TripleList,
    update: &str,
    wanted: &str,
    added: u128,
    removed: u128,
) -> Result<bool, Refusal> {
    let update = operations(alloc, update)?;
    let answer = leaves(alloc, graph, update.as_slice(), wanted, added, removed);
    drop(update);
    answer
}

/// Whether a row is right.
fn is_so(alloc: Global, row: &str) -> Result<bool, Refusal> {
    let mut columns = row.split('|');
    let _name = columns.next();
    let graph = columns.next().unwrap_or_default();
    let update = columns.next().unwrap_or_default();
    let wanted = columns.next().unwrap_or_default();
    let added = number(columns.next());
    let removed = number(columns.next());
    let graph = TripleList::of(alloc, triples(alloc, graph)?)?;
    let answer = is_so_of(alloc, &graph, update, wanted, added, removed);
    drop(graph);
    answer
}

/// The first row that is wrong, and else how many there are.
fn count_right(alloc: Global) -> Result<Result<usize, &'static str>, Refusal> {
    let mut right = 0usize;
    for row in ROWS.lines() {
        if row.contains('|') {
            if !is_so(alloc, row)? {
                return Ok(Err(row));
            }
            right = right.saturating_add(1);
        }
    }
    Ok(Ok(right))
}

#[test]
fn updates_leave_what_they_should(rt: HostRuntime) -> Result<(), Fail> {
    assert_eq!(rt; count_right(rt.alloc())?, Ok(21));
    Ok(())
}

/// Whether a row is right, and right again where a request for memory was refused.
fn is_right_again(alloc: Global) -> Result<bool, Refusal> {
    let row =
        "| a p b, b p c, c p d | + d p e, x y z ; - a p b, u v w ; * ?x p ?y, ?y p ?z | x y z | 2 | 4";
    match is_so(alloc, row) {
        Err(Refusal::NoMemory) => is_so(alloc, row),
        other => other,
    }
}

#[test]
fn a_refused_update_is_reported(rt: HostRuntime) -> Result<(), Fail> {
    assert!(rt; is_right_again(rt.alloc())?);
    Ok(())
}
