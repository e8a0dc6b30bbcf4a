//! As how many triples a page counts what it stores. A triple counts once, and once more for each 32 bytes
//! of its texts, and so does a pattern, eight times. An operation of a patch counts 16 besides.
use crate::stores::{Counted, cats, counted, lettered_triple};
use gs_audit::{Form, count_of};
use gs_chronicle::{KeptOps, Request};
use gs_core::{Action, Event, Op, Part, Pattern, UploadKind, VariableName};
use gs_model::Refusal;
use gs_term::TermText;
use gs_triple_lists::TripleList;
use std::alloc::Global;

/// What is left on a page: its number, how many entries it has, and as how many triples the last counts.
type Left = (u64, usize, Option<usize>);

/// A name, and PUTs: for each of them the letters of the literals of its triples, whose texts have 26 bytes
/// beside these.
type Upload = (&'static str, &'static [&'static [usize]], Left);

/// The first four have 31, 32, 63 and 64 bytes. 3,200 letters make 3,226 bytes, which are 100 times 32 and 26
/// more; 3,237 make 3,263, which are 101 times 32 and 31 more; and 3,238 make 102 times 32.
const UPLOADS: [Upload; 11] = [
    ("texts of 31 bytes", &[&[5]], (0, 1, Some(1))),
    ("texts of 32 bytes", &[&[6]], (0, 1, Some(2))),
    ("texts of 63 bytes", &[&[37]], (0, 1, Some(2))),
    ("texts of 64 bytes", &[&[38]], (0, 1, Some(3))),
    ("a literal of 3,200 bytes", &[&[3_200]], (0, 1, Some(101))),
    ("triples of one list", &[&[5, 6, 38, 5]], (0, 1, Some(7))),
    (
        "the longest triple that is stored",
        &[&[3_237]],
        (0, 1, Some(102)),
    ),
    (
        "one with a byte more turns the page",
        &[&[3_238]],
        (1, 0, None),
    ),
    (
        "two triples fill the page",
        &[&[3_200], &[5]],
        (0, 2, Some(1)),
    ),
    (
        "two triples with a byte more turn the page",
        &[&[3_200], &[6]],
        (1, 1, Some(2)),
    ),
    (
        "the second and the third long triple turn the page",
        &[&[3_200], &[3_200], &[3_200]],
        (2, 1, Some(101)),
    ),
];

/// A name, and the operations of a patch: the letters of the literals of the triples that are inserted, the
/// same of those that are deleted, and for each pattern the lengths of the names of its subject and its
/// object. Its predicate has 12 bytes.
type Patch = (
    &'static str,
    [&'static [usize]; 2],
    &'static [[usize; 2]],
    Left,
);

/// Three operations count 48, and each pattern eight times. 1,413 letters make 1,439 bytes, which are 44 times 32
/// and 31 more.
const PATCHES: [Patch; 8] = [
    ("nothing", [&[], &[]], &[], (0, 1, Some(48))),
    (
        "parts of 31 bytes",
        [&[], &[]],
        &[[10, 9]],
        (0, 1, Some(56)),
    ),
    (
        "parts of 32 bytes",
        [&[], &[]],
        &[[10, 10]],
        (0, 1, Some(64)),
    ),
    (
        "a name of 64 bytes",
        [&[], &[]],
        &[[64, 1]],
        (0, 1, Some(72)),
    ),
    (
        "two patterns",
        [&[], &[]],
        &[[10, 10], [1, 1]],
        (0, 1, Some(72)),
    ),
    (
        "triples and a pattern fill the page",
        [&[1_413], &[5]],
        &[[1, 1]],
        (0, 1, Some(102)),
    ),
    (
        "a letter more turns the page",
        [&[1_414], &[5]],
        &[[1, 1]],
        (1, 0, None),
    ),
    (
        "a name that is too long turns the page",
        [&[1_413], &[5]],
        &[[1, 19]],
        (1, 0, None),
    ),
];

/// Triples with literals of these letters.
fn listed(alloc: Global, letters: &[usize]) -> Result<TripleList, Refusal> {
    let mut list = Vec::new(alloc);
    for count in letters {
        list.push(lettered_triple(alloc, *count)?)?;
    }
    Ok(TripleList::of(alloc, list)?)
}

/// A variable with a name of so many letters.
fn variable(alloc: Global, letters: usize) -> Result<Part, Refusal> {
    let name = "v".repeat(alloc, letters)?;
    Ok(Part::Variable(VariableName::new(alloc, name.as_str())?))
}

/// The pattern whose names have these lengths.
fn pattern(alloc: Global, names: [usize; 2]) -> Result<Pattern, Refusal> {
    let [subject, object] = names;
    Ok(Pattern {
        subject: variable(alloc, subject)?,
        predicate: Part::Term(TermText::iri(alloc, "http://e/p")?),
        object: variable(alloc, object)?,
    })
}

/// The same of many.
fn patterns(alloc: Global, names: &[[usize; 2]]) -> Result<Vec<Pattern>, Refusal> {
    let mut list = Vec::new(alloc);
    for pair in names {
        list.push(pattern(alloc, *pair)?)?;
    }
    Ok(list)
}

/// The operations of a patch.
fn operations(alloc: Global, patch: &Patch) -> Result<Vec<Op>, Refusal> {
    let (_, [inserted, deleted], names, _) = patch;
    let mut list = Vec::new(alloc);
    list.push(Op::Insert(listed(alloc, inserted)?))?;
    list.push(Op::DeleteData(listed(alloc, deleted)?))?;
    list.push(Op::DeleteWhere(patterns(alloc, names)?))?;
    Ok(list)
}

/// What the page of a store is.
fn left(store: &Counted) -> Left {
    let page = store.page();
    let last = match page.entries().last() {
        Some(entry) => Some(entry.request().triples()),
        None => None,
    };
    (page.number(), page.entries().len(), last)
}

/// A PUT of triples with literals of these letters.
fn put(alloc: Global, store: &mut Counted, letters: &[usize]) -> Result<(), Refusal> {
    let list = listed(alloc, letters)?;
    let kind = UploadKind::Put(cats(alloc)?);
    drop(store.event(Event::Seat(0, Action::Open(kind, None))));
    drop(store.event(Event::Seat(0, Action::Stage(list))));
    drop(store.event(Event::Seat(0, Action::Commit)));
    Ok(())
}

/// What PUTs leave in a new store that is lent.
fn after_puts(alloc: Global, store: &mut Counted, puts: &[&[usize]]) -> Result<Left, Refusal> {
    for letters in puts {
        put(alloc, store, letters)?;
    }
    Ok(left(store))
}

/// Whether the last entry is a patch that is kept as it came.
fn is_as_it_came(store: &Counted) -> bool {
    match store.page().entries().last() {
        Some(entry) => match entry.request() {
            Request::Patch(patch) => matches!(patch.ops(), KeptOps::AsTheyCame(_)),
            _ => false,
        },
        None => false,
    }
}

/// How many triples the first two operations have, where an event still has three.
fn triples_of(event: &Event) -> Option<[usize; 2]> {
    match event {
        Event::Seat(_, Action::CommitPatch(ops)) => match ops.as_slice() {
            [Op::Insert(inserted), Op::DeleteData(deleted), _] => {
                Some([inserted.len(), deleted.len()])
            }
            _ => None,
        },
        _ => None,
    }
}

/// Whether a patch leaves in a new store that is lent what its row says. One without a form is kept as it came,
/// and of one that has a form the triples stay with the event.
fn leaves_right(
    alloc: Global,
    store: &mut Counted,
    row: &Patch,
    has_form: bool,
) -> Result<bool, Refusal> {
    let operations = operations(alloc, row)?;
    let opens = Action::OpenPatch(cats(alloc)?, None);
    drop(store.event(Event::Seat(0, opens)));
    let mut event = Event::Seat(0, Action::CommitPatch(operations));
    let form = if has_form {
        Form::of(alloc, &event)
    } else {
        None
    };
    let count = count_of(&event);
    drop(store.event_with(&mut event, form, count));
    let stayed = triples_of(&event);
    drop(event);
    let wanted = if has_form {
        Some([row.1[0].len(), row.1[1].len()])
    } else {
        None
    };
    let came = row.3.1 > 0 && !has_form;
    Ok(left(store) == row.3 && is_as_it_came(store) == came && stayed == wanted)
}

/// Whether PUTs leave what their row says.
fn is_right_upload(alloc: Global, row: &Upload) -> Result<bool, Refusal> {
    let mut store = counted(alloc)?;
    let found = after_puts(alloc, &mut store, row.1);
    drop(store);
    Ok(found? == row.2)
}

/// Whether a patch leaves what its row says, with its form or without.
fn is_right_patch(alloc: Global, row: &Patch, has_form: bool) -> Result<bool, Refusal> {
    let mut store = counted(alloc)?;
    let found = leaves_right(alloc, &mut store, row, has_form);
    drop(store);
    found
}

/// The name of the first row of PUTs that is wrong.
fn wrong_upload(alloc: Global) -> Result<Option<&'static str>, Refusal> {
    for row in &UPLOADS {
        if !is_right_upload(alloc, row)? {
            return Ok(Some(row.0));
        }
    }
    Ok(None)
}

/// The name of the first patch that is wrong.
fn wrong_patch(alloc: Global) -> Result<Option<&'static str>, Refusal> {
    for row in &PATCHES {
        if !is_right_patch(alloc, row, true)? || !is_right_patch(alloc, row, false)? {
            return Ok(Some(row.0));
        }
    }
    Ok(None)
}

#[test]
fn an_upload_with_long_texts_counts_as_more_triples(rt: HostRuntime) -> Result<(), Refusal> {
    assert_eq!(&rt; wrong_upload(rt.alloc())?, None);
    Ok(())
}

#[test]
fn a_patch_with_long_texts_counts_as_more_triples(rt: HostRuntime) -> Result<(), Refusal> {
    assert_eq!(&rt; wrong_patch(rt.alloc())?, None);
    Ok(())
}
