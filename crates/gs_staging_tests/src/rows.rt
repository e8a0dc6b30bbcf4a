//! Uploads of some lists, with what each list adds and what is there in the end, worked by hand.
use crate::lists::{listed, triples};
use crate::uploads::Upload;
use gs_model::Refusal;
use gs_triple_lists::TripleList;
use std::alloc::Global;
use std::test::Fail;

/// A row has a name, lists with how many triples of each are new, and the triples in their order.
const ROWS: &str = r#"
no list | |
an empty list | 0: |
an empty list after another | 1: a p b; 0: | a p b
one triple | 1: a p b | a p b
a triple twice in a list | 1: a p b, a p b | a p b
a triple in two lists | 1: a p b; 0: a p b | a p b
a triple in three lists | 1: a p b; 1: a p b, a p c; 0: a p c, a p b | a p b, a p c
a list that rises | 3: a p b, a p c, b p a | a p b, a p c, b p a
a list that falls | 4: b q a, b p a, a p c, a p b | a p b, a p c, b p a, b q a
subjects in turn | 4: a p b, b p b, a p c, b p c | a p b, a p c, b p b, b p c
a repeat that is far off | 3: c p a, a p a, b p a, c p a | a p a, b p a, c p a
repeats alone | 1: a p b, a p b, a p b, a p b, a p b | a p b
two lists that do not overlap | 2: c p a, d p a; 2: b p a, a p a | a p a, b p a, c p a, d p a
between two that are there | 2: a p a, c p a; 1: b p a | a p a, b p a, c p a
terms whose numbers fall as their texts rise | 2: z y x, y x w; 2: b a c, a b c | a b c, b a c, y x w, z y x
a literal comes before the IRIs | 3: a p b, a p "b, a p "a | a p "a, a p "b, a p b
an object that is a subject too | 3: b p c, a p b, c p a | a p b, b p c, c p a
one term at all places | 1: a a a; 0: a a a, a a a | a a a
"#;

/// Whether a list adds so many triples, and as many nodes.
fn adds(
    alloc: Global,
    upload: &mut Upload,
    list: &TripleList,
    wanted: usize,
) -> Result<bool, Refusal> {
    let before = upload.nodes_in_use();
    let added = upload.add(alloc, list)?;
    let made = upload.nodes_in_use().saturating_sub(before);
    Ok(added == wanted && made == added as u64)
}

/// Whether a list adds so many, written before a colon.
fn adds_right(alloc: Global, upload: &mut Upload, text: &str) -> Result<bool, Refusal> {
    let Some((count, list)) = text.split_once(':') else {
        return Ok(true);
    };
    let wanted = count.trim().parse::<usize>().unwrap_or(usize::MAX);
    let list = listed(alloc, list)?;
    let answer = adds(alloc, upload, &list, wanted);
    drop(list);
    answer
}

/// Whether the lists of a row add what they should to an upload, which has what is wanted then.
fn is_so_of(alloc: Global, upload: &mut Upload, row: &str) -> Result<bool, Refusal> {
    let mut columns = row.split('|');
    let _name = columns.next();
    for list in columns.next().unwrap_or_default().split(';') {
        if !adds_right(alloc, upload, list)? {
            return Ok(false);
        }
    }
    let wanted = triples(alloc, columns.next().unwrap_or_default())?;
    let answer = upload.is_list(alloc, wanted.as_slice());
    drop(wanted);
    answer
}

/// Whether a row is right.
fn is_so(alloc: Global, row: &str) -> Result<bool, Refusal> {
    let mut upload = Upload::new(alloc, u32::MAX, u32::MAX)?;
    let answer = is_so_of(alloc, &mut upload, row);
    drop(upload);
    answer
}

/// The first row that is wrong, and else how many there are.
fn count_right(alloc: Global) -> Result<Result<usize, &'static str>, Refusal> {
    let mut right = 0usize;
    for row in ROWS.lines() {
        if row.contains('|') {
            if !is_so(alloc, row)? {
                return Ok(Err(row));
            }
            right = right.saturating_add(1);
        }
    }
    Ok(Ok(right))
}

#[test]
fn lists_add_what_is_new(rt: HostRuntime) -> Result<(), Fail> {
    assert_eq!(rt; count_right(rt.alloc())?, Ok(18));
    Ok(())
}
