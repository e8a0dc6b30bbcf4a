//! Lists of a few triples, with how many terms each keeps, counted by hand.
use crate::lists::{terms_of, triples};
use crate::outcome::none_wrong;
use gs_model::Refusal;
use std::alloc::Global;
use std::test::Fail;

/// A row has a name, triples in their order, and how many terms are kept of them.
const ROWS: &str = r#"
no triple | | 0
one triple | a p b | 3
one term at all places | a a a | 1
a triple twice | a p b, a p b | 3
the same subject again | a p b, a q c, a r d | 7
the same subject after another | a p b, c q d, a r e | 8
a predicate again | a p b, c p d | 5
a predicate after another | a p b, c q d, e p f | 8
an object again | a p b, c q b | 5
an object after another | a p b, c q d, e r b | 8
a subject that was an object | a p b, b q c | 5
an object that was a subject | a p b, c q a | 5
a predicate that was a subject | a p b, c a d | 5
a literal is no IRI of its characters | a p b, a p "b | 4
a literal again | a p "b, c q "b | 5
a term that goes on is another | a p b, aa p b, ab p bb | 6
"#;

/// Whether a row is right.
fn is_so(alloc: Global, row: &str) -> Result<bool, Refusal> {
    let mut columns = row.split('|');
    let _name = columns.next();
    let triples = triples(alloc, columns.next().unwrap_or_default())?;
    let count = columns.next().unwrap_or_default().trim();
    let kept = terms_of(alloc, triples.as_slice());
    drop(triples);
    Ok(kept? == Some(count.parse::<usize>().unwrap_or(usize::MAX)))
}

/// The first row that is wrong, or `rows` where they are not 16.
fn wrong_row(alloc: Global) -> Result<Option<&'static str>, Refusal> {
    let mut right = 0usize;
    for row in ROWS.trim().lines() {
        if !is_so(alloc, row)? {
            return Ok(Some(row));
        }
        right = right.saturating_add(1);
    }
    Ok(if right == 16 { None } else { Some("rows") })
}

#[test]
fn a_term_that_comes_again_is_kept_once(rt: HostRuntime) -> Result<(), Fail> {
    none_wrong(wrong_row(rt.alloc()))
}
