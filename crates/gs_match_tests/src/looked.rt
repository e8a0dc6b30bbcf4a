//! How many keys a search looks at: some for each key of a list where its patterns join as a tree, and as
//! many as a node has neighbours where four join in a circle.
use crate::families::triples_of;
use crate::notation::{patterns, triples};
use crate::outcome::none_wrong;
use crate::trees::looked_by;
use gs_model::Refusal;
use std::alloc::Global;
use std::test::Fail;

/// A row has a name, the families of a graph, patterns, how many keys their lists have, and how many may
/// be looked at for each of these.
const ROWS: &str = "
a chain of 3,000 | 3000 n@*1 p n@*1+1 | ?x p ?y, ?y p ?z, ?z p ?w | 9000 | 24;
a star of four on 1,000 subjects
    | 1000 s@*1 p o@*1, 1000 s@*1 q o, 1000 s@*1 r o@%7, 1000 s@*1 t o@*2
    | ?x p ?a, ?x q ?b, ?x r ?c, ?x t ?d | 4000 | 24;
all on one object | 1000 a@*1 p x, 1 x q z | ?a p ?x, ?x q ?z, ?b p ?x | 2001 | 24;
a term as subject that is written last | 1500 n@*1 q z@*1, 3 a p n@*7+5 | ?x q ?z, a p ?x | 6 | 24;
no circle of four over a ring of five layers of twelve nodes
    | 144 n@/12 p n@%12+12, 144 n@/12+12 p n@%12+24, 144 n@/12+24 p n@%12+36,
      144 n@/12+36 p n@%12+48, 144 n@/12+48 p n@%12
    | ?a p ?b, ?b p ?c, ?c p ?d, ?d p ?a | 2880 | 48";

/// How many keys are looked at, in the graph of families, for the instances of patterns.
fn looked(alloc: Global, families: &str, removed: &str) -> Result<u64, Refusal> {
    let text = triples_of(alloc, families)?;
    let removed = patterns(alloc, removed)?;
    let looked = match triples(alloc, text.as_str()) {
        Ok(graph) => looked_by(alloc, graph.as_slice(), removed.as_slice()),
        Err(refusal) => Err(refusal),
    };
    drop(removed);
    looked
}

/// The number of a column.
fn number(column: Option<&str>) -> u64 {
    let text = column.unwrap_or_default().trim();
    text.parse::<u64>().unwrap_or_default()
}

/// Whether no more keys are looked at than a row's lists allow, and some.
fn is_so(alloc: Global, row: &str) -> Result<bool, Refusal> {
    let mut columns = row.split('|');
    let _name = columns.next();
    let families = columns.next().unwrap_or_default();
    let removed = columns.next().unwrap_or_default();
    let listed = number(columns.next());
    let each = number(columns.next());
    let looked = looked(alloc, families, removed)?;
    Ok(listed <= looked && looked <= listed.saturating_mul(each))
}

/// The first row that is wrong.
fn wrong_row(alloc: Global) -> Result<Option<&'static str>, Refusal> {
    for row in ROWS.split(';') {
        if !is_so(alloc, row)? {
            return Ok(Some(row));
        }
    }
    Ok(None)
}

#[test]
fn a_search_looks_at_few_keys(rt: HostRuntime) -> Result<(), Fail> {
    none_wrong(wrong_row(rt.alloc()))
}
