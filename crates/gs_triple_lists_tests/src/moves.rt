//! Lists that take the triples of another one, with how many terms they have then, counted by hand.
use crate::lists::{has_both, has_just, push_each, triples};
use crate::outcome::none_wrong;
use gs_model::Refusal;
use gs_term::Triple;
use gs_triple_lists::TripleList;
use std::alloc::Global;
use std::test::Fail;

/// A row has a name, the triples of a list, those of the other one, and how many terms the list has in the
/// end. A word alone stands for six triples with 18 terms: the first 16 terms of a list are not looked for.
const ROWS: &str = r#"
nothing onto nothing | | | 0
nothing onto a triple | a p b | | 3
triples onto nothing | | a p b, a q c | 5
few onto few | a p b | c q d | 6
the subject of few is kept again | a p b | a q c | 6
other terms of few are kept again | a p b | c p b | 6
few onto many: each term is found | f, a p b | a p b, c p a | 22
few onto many: no term is found | f | a p b | 21
many onto few | a p b | f, a q c | 24
many onto many, of other terms | f | g | 36
many onto many: a term that both have is kept once | f, a p b, c q d | g, a p b, c q e | 43
many onto themselves: the first 16 are kept again | f, a p b | f, a p b | 37
a term that the other list has twice is kept once | f | g, g | 36
"#;

/// Whether a list takes the triples of another one after its own, and has so many terms then.
fn takes(
    list: &mut TripleList,
    other: &mut TripleList,
    own: &[Triple],
    given: &[Triple],
    wanted: usize,
) -> Result<bool, Refusal> {
    push_each(list, own)?;
    push_each(other, given)?;
    list.take_from(other)?;
    Ok(has_both(list, own, given) && list.parts().0.len() == wanted)
}

/// Whether a list that was emptied has no triple and no term, and then keeps triples as a new one does.
fn is_as_new(
    list: &mut TripleList,
    new: &mut TripleList,
    triples: &[Triple],
) -> Result<bool, Refusal> {
    let is_clear = has_just(list, &[]) && list.parts().0.is_empty();
    push_each(list, triples)?;
    push_each(new, triples)?;
    Ok(is_clear && has_just(list, triples) && list.parts().0.len() == new.parts().0.len())
}

/// Whether new lists are right.
fn are_so(alloc: Global, own: &[Triple], given: &[Triple], wanted: usize) -> Result<bool, Refusal> {
    let mut list = TripleList::new(alloc);
    let mut other = TripleList::new(alloc);
    let mut new = TripleList::new(alloc);
    let is_taken = takes(&mut list, &mut other, own, given, wanted);
    let is_new = is_as_new(&mut other, &mut new, given);
    drop(new);
    drop(other);
    drop(list);
    Ok(is_taken? && is_new?)
}

/// Whether a row is right.
fn is_so(alloc: Global, row: &str) -> Result<bool, Refusal> {
    let mut columns = row.split('|');
    let _name = columns.next();
    let own = triples(alloc, columns.next().unwrap_or_default())?;
    let given = triples(alloc, columns.next().unwrap_or_default())?;
    let count = columns.next().unwrap_or_default().trim();
    let wanted = count.parse::<usize>().unwrap_or(usize::MAX);
    let answer = are_so(alloc, own.as_slice(), given.as_slice(), wanted);
    drop(given);
    drop(own);
    answer
}

/// The first row that is wrong, or `rows` where they are not 13.
fn wrong_row(alloc: Global) -> Result<Option<&'static str>, Refusal> {
    let mut right = 0usize;
    for row in ROWS.trim().lines() {
        if !is_so(alloc, row)? {
            return Ok(Some(row));
        }
        right = right.saturating_add(1);
    }
    Ok(if right == 13 { None } else { Some("rows") })
}

#[test]
fn a_list_takes_the_triples_of_another(rt: HostRuntime) -> Result<(), Fail> {
    none_wrong(wrong_row(rt.alloc()))
}
