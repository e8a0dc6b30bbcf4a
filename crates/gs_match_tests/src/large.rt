//! Graphs of more keys than are read at once, patterns, and what is left of each graph, worked by hand
//! from SPARQL 1.1 Query, section 18.3, and Update, section 3.1.3.3.
use crate::families::triples_of;
use crate::outcome::none_wrong;
use crate::rows::leaves;
use gs_model::Refusal;
use std::alloc::Global;
use std::test::Fail;

/// A row has a name, the families of a graph, patterns, and the families of the triples that are left.
/// A list of up to 1,024 keys is looked up number by number, and as many are read at once.
const LISTS: &str = "
1,024 keys | 1023 n@*1 p m@*1, 1 z q z | ?x p ?y | 1 z q z;
1,025 keys | 1024 n@*1 p m@*1, 1 z q z | ?x p ?y | 1 z q z;
1,025 keys, of which the first stays | 1 a q a, 1024 n@*1 p m@*1 | ?x p ?y | 1 a q a;
2,048 keys | 2047 n@*1 p m@*1, 1 z q z | ?x p ?y | 1 z q z;
2,049 keys | 2048 n@*1 p m@*1, 1 z q z | ?x p ?y | 1 z q z;
a list of 1,024 keys | 1024 n@*1 p m@*1, 600 m@*2 q z | ?x p ?y, ?y q ?z
    | 512 n@*2+1 p m@*2+1, 88 m@*2+1024 q z;
a list of 1,025 keys | 1025 n@*1 p m@*1, 600 m@*2 q z | ?x p ?y, ?y q ?z
    | 512 n@*2+1 p m@*2+1, 87 m@*2+1026 q z;
a term as subject that is written last | 1500 n@*1 q z@*1, 3 a p n@*7+5 | ?x q ?z, a p ?x
    | 5 n@*1 q z@*1, 6 n@*1+6 q z@*1+6, 6 n@*1+13 q z@*1+13, 1480 n@*1+20 q z@*1+20;
a way from a term that is written last | 2000 n@*1 q n@*1+1, 1 a p n5 | ?z q ?w, ?y q ?z, ?x q ?y, a p ?x
    | 5 n@*1 q n@*1+1, 1992 n@*1+8 q n@*1+9";

const CHAINS: &str = "
a chain of 3,000 | 3000 n@*1 p n@*1+1, 1 a p b | ?x p ?y, ?y p ?z, ?z p ?w | 1 a p b;
a chain of 3,000, whose every other node has a mark | 3000 n@*1 p n@*1+1, 1500 n@*2 q z | ?x p ?y, ?y q ?z
    | 1500 n@*2 p n@*2+1, 1 n2999 p n3000, 1 n0 q z;
a star of four | 1200 s@*1 p o@*1, 1200 s@*1 q o, 600 s@*2 r o, 400 s@*3 t o
    | ?x p ?a, ?x q ?b, ?x r ?c, ?x t ?d
    | 200 s@*6+1 p o@*6+1, 200 s@*6+2 p o@*6+2, 200 s@*6+3 p o@*6+3, 200 s@*6+4 p o@*6+4,
      200 s@*6+5 p o@*6+5, 200 s@*6+1 q o, 200 s@*6+2 q o, 200 s@*6+3 q o, 200 s@*6+4 q o,
      200 s@*6+5 q o, 200 s@*6+2 r o, 200 s@*6+4 r o, 200 s@*6+3 t o";

const JOINS: &str = "
a join on an object | 1200 a@*1 p m@*1, 1200 b@*1 q m@*2 | ?a p ?x, ?b q ?x
    | 600 a@*2+1 p m@*2+1, 600 b@*1+600 q m@*2+1200;
all on one object | 1200 a@*1 p x, 1 x q y, 600 c@*1 p z | ?a p ?x, ?x q ?z, ?b p ?x | 600 c@*1 p z;
patterns that share no variable | 1100 a@*1 p x, 500 b@*1 q y, 300 c@*1 r z | ?x p ?y, ?z q ?w
    | 300 c@*1 r z;
patterns that share no variable, one without an instance | 1100 a@*1 p x, 500 b@*1 q y, 300 c@*1 r z
    | ?x p ?y, ?z q ?w, ?u r ?u | 1100 a@*1 p x, 500 b@*1 q y, 300 c@*1 r z;
four patterns of three variables each | 1100 a@*1 p x@%7
    | ?a ?b ?c, ?d ?e ?f, ?g ?h ?i, ?j ?k ?l | ";

/// Layers of eight nodes each, all of one joined to all of the next, and of the last to all of the
/// first.
const RINGS: &str = "
a circle of four over a ring of four layers
    | 64 n@/8 p n@%8+8, 64 n@/8+8 p n@%8+16, 64 n@/8+16 p n@%8+24, 64 n@/8+24 p n@%8, 800 a@*1 q b@*1
    | ?a p ?b, ?b p ?c, ?c p ?d, ?d p ?a | 800 a@*1 q b@*1;
no circle of four over a ring of five layers
    | 64 n@/8 p n@%8+8, 64 n@/8+8 p n@%8+16, 64 n@/8+16 p n@%8+24, 64 n@/8+24 p n@%8+32,
      64 n@/8+32 p n@%8, 800 a@*1 q b@*1
    | ?a p ?b, ?b p ?c, ?c p ?d, ?d p ?a
    | 64 n@/8 p n@%8+8, 64 n@/8+8 p n@%8+16, 64 n@/8+16 p n@%8+24, 64 n@/8+24 p n@%8+32,
      64 n@/8+32 p n@%8, 800 a@*1 q b@*1";

/// Layers of twelve nodes each, all of one joined to all of the next.
const LAYERS: &str = "
no circle of four over nine layers
    | 144 n@/12 p n@%12+12, 144 n@/12+12 p n@%12+24, 144 n@/12+24 p n@%12+36,
      144 n@/12+36 p n@%12+48, 144 n@/12+48 p n@%12+60, 144 n@/12+60 p n@%12+72,
      144 n@/12+72 p n@%12+84, 144 n@/12+84 p n@%12+96
    | ?a p ?b, ?b p ?c, ?c p ?d, ?d p ?a
    | 144 n@/12 p n@%12+12, 144 n@/12+12 p n@%12+24, 144 n@/12+24 p n@%12+36,
      144 n@/12+36 p n@%12+48, 144 n@/12+48 p n@%12+60, 144 n@/12+60 p n@%12+72,
      144 n@/12+72 p n@%12+84, 144 n@/12+84 p n@%12+96;
circles of four over nine layers, all by one triple that goes back
    | 144 n@/12 p n@%12+12, 144 n@/12+12 p n@%12+24, 144 n@/12+24 p n@%12+36,
      144 n@/12+36 p n@%12+48, 144 n@/12+48 p n@%12+60, 144 n@/12+60 p n@%12+72,
      144 n@/12+72 p n@%12+84, 144 n@/12+84 p n@%12+96, 1 n36 p n0
    | ?a p ?b, ?b p ?c, ?c p ?d, ?d p ?a
    | 132 n@/12+1 p n@%12+12, 132 n@/11+24 p n@%11+37,
      144 n@/12+36 p n@%12+48, 144 n@/12+48 p n@%12+60, 144 n@/12+60 p n@%12+72,
      144 n@/12+72 p n@%12+84, 144 n@/12+84 p n@%12+96";

/// Whether a row is right.
fn is_so(alloc: Global, row: &str) -> Result<bool, Refusal> {
    let mut columns = row.split('|');
    let _name = columns.next();
    let graph = triples_of(alloc, columns.next().unwrap_or_default())?;
    let removed = columns.next().unwrap_or_default();
    let wanted = triples_of(alloc, columns.next().unwrap_or_default())?;
    leaves(alloc, graph.as_str(), removed, wanted.as_str())
}

/// The first row of a table that is wrong.
fn wrong_row(alloc: Global, table: &'static str) -> Result<Option<&'static str>, Refusal> {
    for row in table.split(';') {
        if !is_so(alloc, row)? {
            return Ok(Some(row));
        }
    }
    Ok(None)
}

#[test]
fn keys_that_are_read_some_at_a_time_leave_none_out(rt: HostRuntime) -> Result<(), Fail> {
    none_wrong(wrong_row(rt.alloc(), LISTS))
}

#[test]
fn long_chains_and_stars_are_searched(rt: HostRuntime) -> Result<(), Fail> {
    none_wrong(wrong_row(rt.alloc(), CHAINS))
}

#[test]
fn long_lists_that_join_on_an_object_or_not_at_all_are_searched(
    rt: HostRuntime,
) -> Result<(), Fail> {
    none_wrong(wrong_row(rt.alloc(), JOINS))
}

#[test]
fn circles_of_four_over_full_layers_are_found(rt: HostRuntime) -> Result<(), Fail> {
    none_wrong(wrong_row(rt.alloc(), RINGS))
}

#[test]
fn long_lists_whose_circles_go_through_one_key_are_searched(rt: HostRuntime) -> Result<(), Fail> {
    none_wrong(wrong_row(rt.alloc(), LAYERS))
}
