//! Uploads where memory, a term's number or a node's number is refused.
use crate::lists::{listed, triples};
use crate::uploads::Upload;
use gs_model::Refusal;
use gs_triple_lists::TripleList;
use std::alloc::Global;
use std::test::Fail;

/// Whether an upload has exactly these triples.
fn has_just(alloc: Global, upload: &Upload, text: &str) -> Result<bool, Refusal> {
    let list = triples(alloc, text)?;
    let answer = upload.is_list(alloc, list.as_slice());
    drop(list);
    answer
}

/// What adding a list comes to, or that the list cannot be made.
fn add(alloc: Global, upload: &mut Upload, text: &str) -> Result<Result<usize, Refusal>, Refusal> {
    let list = listed(alloc, text)?;
    let added = upload.add(alloc, &list);
    drop(list);
    Ok(added)
}

/// Whether a list is refused, and the upload has exactly the triples that it had.
fn is_refused(alloc: Global, upload: &mut Upload, list: &str, had: &str) -> Result<bool, Refusal> {
    let before = upload.nodes_in_use();
    let refused = add(alloc, upload, list)? == Err(Refusal::NoMemory);
    let same = has_just(alloc, upload, had)?;
    Ok(refused && same && upload.nodes_in_use() == before)
}

/// Whether a list adds so many, after which the upload has exactly these triples.
fn is_added(
    alloc: Global,
    upload: &mut Upload,
    list: &str,
    wanted: usize,
    has: &str,
) -> Result<bool, Refusal> {
    let added = add(alloc, upload, list)?? == wanted;
    Ok(has_just(alloc, upload, has)? && added)
}

/// Whether an upload whose terms have numbers up to 3 refuses what needs more.
fn is_full_of_terms(alloc: Global, upload: &mut Upload) -> Result<bool, Refusal> {
    Ok(
        is_added(alloc, upload, "a p b", 1, "a p b")?
            && is_refused(alloc, upload, "b p a, c p d", "a p b")?
            && upload.count_terms() == 4
            && is_refused(alloc, upload, "b p a, d p a", "a p b")?
            && is_added(alloc, upload, "b p a, c p a", 2, "a p b, b p a, c p a")?
            && is_refused(alloc, upload, "a d b", "a p b, b p a, c p a")?,
    )
}

/// What happens where the numbers of terms end at 3.
fn fills_the_dictionary(alloc: Global) -> Result<bool, Refusal> {
    let mut upload = Upload::new(alloc, 3, u32::MAX)?;
    let answer = is_full_of_terms(alloc, &mut upload);
    drop(upload);
    answer
}

/// Whether an upload whose nodes have numbers up to 2 refuses what needs more.
fn is_full_of_nodes(alloc: Global, upload: &mut Upload) -> Result<bool, Refusal> {
    Ok(
        is_refused(alloc, upload, "a p a, a p b, a p c, a p d", "")?
            && is_added(alloc, upload, "a p a, a p b", 2, "a p a, a p b")?
            && is_refused(alloc, upload, "b p a, c p a", "a p a, a p b")?
            && is_added(alloc, upload, "b p a", 1, "a p a, a p b, b p a")?,
    )
}

/// What happens where the numbers of nodes end at 2.
fn fills_the_pool(alloc: Global) -> Result<bool, Refusal> {
    let mut upload = Upload::new(alloc, u32::MAX, 2)?;
    let answer = is_full_of_nodes(alloc, &mut upload);
    drop(upload);
    answer
}

/// Adds a list, and again where it is refused, which has to leave the upload as it was.
fn add_at_last(
    alloc: Global,
    upload: &mut Upload,
    list: &TripleList,
    had: &str,
) -> Result<Option<usize>, Refusal> {
    let before = upload.nodes_in_use();
    if let Ok(added) = upload.add(alloc, list) {
        return Ok(Some(added));
    }
    if upload.nodes_in_use() != before || !has_just(alloc, upload, had)? {
        return Ok(None);
    }
    Ok(Some(upload.add(alloc, list)?))
}

/// Whether a list adds so many, whichever request for memory was refused on the way.
fn adds_whole(
    alloc: Global,
    upload: &mut Upload,
    text: &str,
    had: &str,
    wanted: usize,
) -> Result<bool, Refusal> {
    let list = listed(alloc, text)?;
    let added = add_at_last(alloc, upload, &list, had);
    drop(list);
    Ok(added? == Some(wanted))
}

/// Whether two lists are added, each whole, and no other triple is there then.
fn adds_both(alloc: Global, upload: &mut Upload) -> Result<bool, Refusal> {
    let first = "b p a, a p c, a p b, b p a";
    let second = "c q a, a p b, \
        d q a, d q b, d q c, d q d, e q a, e q b, e q c, f q a, f q b";
    let had = "a p b, a p c, b p a";
    let all = "a p b, a p c, b p a, c q a, \
        d q a, d q b, d q c, d q d, e q a, e q b, e q c, f q a, f q b";
    Ok(
        adds_whole(alloc, upload, first, "", 3)?
            && adds_whole(alloc, upload, second, had, 10)?
            && has_just(alloc, upload, all)?,
    )
}

/// What two lists add to a new upload.
fn adds_whole_lists(alloc: Global) -> Result<bool, Refusal> {
    let mut upload = Upload::new(alloc, u32::MAX, u32::MAX)?;
    let answer = adds_both(alloc, &mut upload);
    drop(upload);
    answer
}

#[test]
fn a_term_without_a_number_refuses_the_list(rt: HostRuntime) -> Result<(), Fail> {
    assert!(rt; fills_the_dictionary(rt.alloc())?);
    Ok(())
}

#[test]
fn a_node_without_a_number_refuses_the_list(rt: HostRuntime) -> Result<(), Fail> {
    assert!(rt; fills_the_pool(rt.alloc())?);
    Ok(())
}

/// `rt try --test --fail-alloc N` refuses the request of that number.
#[test]
fn a_refused_list_goes_in_whole_again(rt: HostRuntime) -> Result<(), Fail> {
    assert!(rt; adds_whole_lists(rt.alloc())?);
    Ok(())
}
