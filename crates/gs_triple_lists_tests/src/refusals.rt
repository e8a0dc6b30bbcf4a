//! Lists where a request for memory is refused. With memory these show the usual answers;
//! `rt try --test --fail-alloc N` refuses the request of that number.
use crate::lists::{has_just, push_texts, triple};
use crate::outcome::none_wrong;
use gs_model::Refusal;
use gs_term::Triple;
use gs_triple_lists::TripleList;
use std::alloc::{AllocError, Global};
use std::test::Fail;

/// How many triples there are. Each has three terms of its own, so that more than 64 come after the first 16,
/// and a list of all has to make more buckets on the way.
const COUNT: u64 = 28;

/// The triple of this number.
fn numbered(alloc: Global, number: u64) -> Result<Triple, Refusal> {
    let text = format!(in alloc; "s{number} p{number} o{number}")?;
    triple(alloc, text.as_str())
}

/// All triples.
fn triples(alloc: Global) -> Result<Vec<Triple>, Refusal> {
    let mut triples = Vec::new(alloc);
    for number in 0..COUNT {
        triples.push(numbered(alloc, number)?)?;
    }
    Ok(triples)
}

/// Copies of triples.
fn copies(alloc: Global, triples: &[Triple]) -> Result<Vec<Triple>, AllocError> {
    let mut copies = Vec::new(alloc);
    for triple in triples {
        copies.push(triple.clone()?)?;
    }
    Ok(copies)
}

/// Adds a copy of a triple, and another where memory is refused, which has to leave the list with just those
/// that it had.
fn adds(
    list: &mut TripleList,
    had: &[Triple],
    copy: Triple,
    triple: &Triple,
) -> Result<bool, AllocError> {
    if list.push(copy).is_ok() {
        return Ok(true);
    }
    let is_kept = has_just(list, had);
    list.push(triple.clone()?)?;
    Ok(is_kept)
}

/// Whether each triple is added so, of which there are copies, the first one last.
fn adds_each(
    list: &mut TripleList,
    copies: &mut Vec<Triple>,
    triples: &[Triple],
) -> Result<bool, AllocError> {
    for (place, triple) in triples.iter().enumerate() {
        let had = triples.get(..place).unwrap_or_default();
        let Some(copy) = copies.pop() else {
            return Ok(false);
        };
        if !adds(list, had, copy, triple)? {
            return Ok(false);
        }
    }
    Ok(has_just(list, triples))
}

/// The same of a new list.
fn adds_all(alloc: Global) -> Result<bool, Refusal> {
    let triples = triples(alloc)?;
    let mut copies = copies(alloc, triples.as_slice())?;
    copies.reverse();
    let mut list = TripleList::new(alloc);
    let answer = adds_each(&mut list, &mut copies, triples.as_slice());
    drop(list);
    drop(copies);
    drop(triples);
    Ok(answer?)
}

#[test]
fn a_refused_triple_is_not_in_the_list(rt: HostRuntime) -> Result<(), Fail> {
    assert!(rt; adds_all(rt.alloc())?);
    Ok(())
}

/// Adds a triple by its texts, and again where memory is refused, which has to leave the list with just those
/// that it had.
fn adds_texts(list: &mut TripleList, had: &[Triple], triple: &Triple) -> Result<bool, AllocError> {
    if push_texts(list, triple).is_ok() {
        return Ok(true);
    }
    let is_kept = has_just(list, had);
    push_texts(list, triple)?;
    Ok(is_kept)
}

/// Whether each triple is added so.
fn adds_each_by_texts(list: &mut TripleList, triples: &[Triple]) -> Result<bool, AllocError> {
    for (place, triple) in triples.iter().enumerate() {
        let had = triples.get(..place).unwrap_or_default();
        if !adds_texts(list, had, triple)? {
            return Ok(false);
        }
    }
    Ok(has_just(list, triples))
}

/// The same of a new list.
fn adds_all_by_texts(alloc: Global) -> Result<bool, Refusal> {
    let triples = triples(alloc)?;
    let mut list = TripleList::new(alloc);
    let answer = adds_each_by_texts(&mut list, triples.as_slice());
    drop(list);
    drop(triples);
    Ok(answer?)
}

#[test]
fn a_refused_triple_of_texts_is_not_in_the_list(rt: HostRuntime) -> Result<(), Fail> {
    assert!(rt; adds_all_by_texts(rt.alloc())?);
    Ok(())
}

/// Moves copies of triples to the end of a list, and says whether that was refused.
fn is_refused(alloc: Global, list: &mut TripleList, more: &[Triple]) -> Result<bool, AllocError> {
    let mut copies = copies(alloc, more)?;
    let appended = list.append(&mut copies);
    drop(copies);
    Ok(appended.is_err())
}

/// Appends triples, and again where memory is refused, which has to leave the list with just those that it had.
fn appends(
    alloc: Global,
    list: &mut TripleList,
    had: &[Triple],
    more: &[Triple],
) -> Result<bool, AllocError> {
    if !is_refused(alloc, list, more)? {
        return Ok(true);
    }
    let is_kept = has_just(list, had);
    Ok(is_kept && !is_refused(alloc, list, more)?)
}

/// Whether the triples of a list are these, copied from it and into a list of their own.
fn is_copied(alloc: Global, list: &TripleList, triples: &[Triple]) -> Result<bool, AllocError> {
    let copies = list.to_vec(alloc)?;
    let are_same = copies.as_slice() == triples;
    let other = TripleList::of(alloc, copies)?;
    let is_same = has_just(&other, triples);
    drop(other);
    Ok(are_same && is_same)
}

/// What is not as it must be of a new list, to which the first triple is added and then all others.
fn wrong_part(
    alloc: Global,
    list: &mut TripleList,
    triples: &[Triple],
) -> Result<Option<&'static str>, AllocError> {
    let Some((first, more)) = triples.split_first() else {
        return Ok(Some("the triples"));
    };
    let had = std::slice::from_ref(first);
    list.push(first.clone()?)?;
    if list.is_empty() || !appends(alloc, list, had, more)? || !has_just(list, triples) {
        return Ok(Some("what is appended"));
    }
    if !is_copied(alloc, list, triples)? {
        return Ok(Some("the copies"));
    }
    list.truncate(1);
    let is_cut = has_just(list, had);
    Ok(if is_cut { None } else { Some("what is left") })
}

/// The same of all triples.
fn wrong_in_new(alloc: Global) -> Result<Option<&'static str>, Refusal> {
    let triples = triples(alloc)?;
    let mut list = TripleList::new(alloc);
    let wrong = wrong_part(alloc, &mut list, triples.as_slice());
    drop(list);
    drop(triples);
    Ok(wrong?)
}

#[test]
fn refused_triples_are_not_in_the_list(rt: HostRuntime) -> Result<(), Fail> {
    none_wrong(wrong_in_new(rt.alloc()))
}
