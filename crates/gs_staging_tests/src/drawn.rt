//! Uploads of drawn lists, beside a plain list of their triples.
use crate::draws::Draws;
use crate::lists::triple;
use crate::uploads::Upload;
use gs_model::Refusal;
use gs_term::Triple;
use gs_triple_lists::TripleList;
use std::alloc::Global;
use std::test::Fail;

/// One of 336 triples.
fn draw(alloc: Global, draws: &mut Draws) -> Result<Triple, Refusal> {
    let subject = draws.next() % 12;
    let predicate = draws.next() % 4;
    let object = draws.next() % 7;
    let text = if object == 0 {
        format!(in alloc; "s{subject} p{predicate} \"{object}")?
    } else {
        format!(in alloc; "s{subject} p{predicate} s{object}")?
    };
    triple(alloc, text.as_str())
}

/// Up to 40 triples: as they are drawn, in order, or in falling order.
fn draw_list(alloc: Global, draws: &mut Draws) -> Result<Vec<Triple>, Refusal> {
    let mut list = Vec::new(alloc);
    for _ in 0..draws.next() % 41 {
        list.push(draw(alloc, draws)?)?;
    }
    let way = draws.next() % 3;
    if way > 0 {
        list.sort_unstable();
    }
    if way > 1 {
        list.reverse();
    }
    Ok(list)
}

/// Puts triples into a list that rises, and says how many it lacked.
fn put(all: &mut Vec<Triple>, more: &[Triple]) -> Result<usize, Refusal> {
    let before = all.len();
    for triple in more {
        all.push(triple.clone()?)?;
    }
    all.sort_unstable();
    all.dedup();
    Ok(all.len().saturating_sub(before))
}

/// Whether a list adds so many triples to an upload, and as many nodes, after which it has exactly all triples.
fn goes_in(
    alloc: Global,
    list: &TripleList,
    upload: &mut Upload,
    all: &[Triple],
    wanted: usize,
) -> Result<bool, Refusal> {
    let before = upload.nodes_in_use();
    let added = upload.add(alloc, list)?;
    let made = upload.nodes_in_use().saturating_sub(before);
    let same = upload.is_list(alloc, all)?;
    Ok(added == wanted && made == added as u64 && same)
}

/// Whether the next list that is drawn goes into an upload and into a list of all alike.
fn is_alike(
    alloc: Global,
    draws: &mut Draws,
    upload: &mut Upload,
    all: &mut Vec<Triple>,
) -> Result<bool, Refusal> {
    let drawn = draw_list(alloc, draws)?;
    let wanted = put(all, drawn.as_slice())?;
    let list = TripleList::of(alloc, drawn)?;
    let answer = goes_in(alloc, &list, upload, all.as_slice(), wanted);
    drop(list);
    answer
}

/// Whether the next five lists do.
fn are_alike(
    alloc: Global,
    draws: &mut Draws,
    upload: &mut Upload,
    all: &mut Vec<Triple>,
) -> Result<bool, Refusal> {
    for _ in 0..5 {
        if !is_alike(alloc, draws, upload, all)? {
            return Ok(false);
        }
    }
    Ok(true)
}

/// The first time that they do not, of so many, where the upload begins again each time.
fn first_unlike(
    alloc: Global,
    upload: &mut Upload,
    uploads: usize,
) -> Result<Option<usize>, Refusal> {
    let mut draws = Draws::new(7);
    for turn in 0..uploads {
        upload.begin();
        let mut all = Vec::new(alloc);
        let are_alike = are_alike(alloc, &mut draws, upload, &mut all);
        drop(all);
        if !are_alike? {
            return Ok(Some(turn));
        }
    }
    Ok(None)
}

/// The first upload that goes wrong, of so many with five lists each.
fn first_wrong(alloc: Global, uploads: usize) -> Result<Option<usize>, Refusal> {
    let mut upload = Upload::new(alloc, u32::MAX, u32::MAX)?;
    let first = first_unlike(alloc, &mut upload, uploads);
    drop(upload);
    first
}

#[test]
fn drawn_lists_go_in_as_into_a_plain_list(rt: HostRuntime) -> Result<(), Fail> {
    assert_eq!(rt; first_wrong(rt.alloc(), 20)?, None);
    Ok(())
}
