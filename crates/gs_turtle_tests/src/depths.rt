//! Brackets and collections within one another, up to the most that may be.
use gs_model::Refusal;
use gs_test_readings::SIZES;
use gs_test_readings::turtle::wrong_count;
use std::alloc::{AllocError, Global};
use std::test::Fail;

/// What is repeated around a text's core: its front, what opens, the core, what closes, and its
/// end; how often that may be; and the triples of so many.
struct Nested {
    front: &'static str,
    open: &'static str,
    core: &'static str,
    close: &'static str,
    end: &'static str,
    most: usize,
    triples: usize,
}

/// The text with so many repetitions.
fn text_of(alloc: Global, row: &Nested, depth: usize) -> Result<String, AllocError> {
    let mut text = String::from_str(alloc, row.front)?;
    for _ in 0..depth {
        text.push_str(row.open)?;
    }
    text.push_str(row.core)?;
    for _ in 0..depth {
        text.push_str(row.close)?;
    }
    text.push_str(row.end)?;
    Ok(text)
}

const ROWS: [Nested; 9] = [
    Nested {
        front: "<s> <p> ",
        open: "( ",
        core: "",
        close: ") ",
        end: ".",
        most: 64,
        triples: 127,
    },
    Nested {
        front: "",
        open: "(",
        core: "",
        close: ")",
        end: "<p> <o> .",
        most: 64,
        triples: 127,
    },
    Nested {
        front: "<s> ",
        open: "<p> [ ",
        core: "",
        close: "] ",
        end: ".",
        most: 64,
        triples: 64,
    },
    Nested {
        front: "<s> <p> <o> , <o> ; ",
        open: "<p> [",
        core: "",
        close: "]",
        end: " ; <p> <q> .",
        most: 64,
        triples: 67,
    },
    Nested {
        front: "",
        open: "[ <p> ",
        core: "<o> ",
        close: "] ",
        end: "<q> <r> .",
        most: 64,
        triples: 65,
    },
    Nested {
        front: "",
        open: "[ <p> ",
        core: "<o> ",
        close: "] ",
        end: ".",
        most: 64,
        triples: 64,
    },
    Nested {
        front: "<s> <p> ",
        open: "(<a>",
        core: "",
        close: "<b>)",
        end: ".",
        most: 64,
        triples: 383,
    },
    Nested {
        front: "<s> <p> [] , () , ( () [] ) , ",
        open: "( ",
        core: "",
        close: ") ",
        end: ".",
        most: 64,
        triples: 134,
    },
    Nested {
        front: "<s> <p> ",
        open: "[ <p> ( ",
        core: "",
        close: ") ] ",
        end: ".",
        most: 32,
        triples: 95,
    },
];

/// Whether the text with so many repetitions has so many triples, or its fault.
fn is_so(
    alloc: Global,
    row: &Nested,
    depth: usize,
    want: Result<usize, Refusal>,
) -> Result<bool, AllocError> {
    let text = text_of(alloc, row, depth)?;
    Ok(wrong_count(alloc, &SIZES, text.as_str(), want).is_none())
}

/// The number of the first row that does not have its triples at the most repetitions, or with one
/// more its fault.
fn wrong_row(alloc: Global) -> Result<Option<usize>, AllocError> {
    for (i, row) in ROWS.iter().enumerate() {
        let deeper = row.most.saturating_add(1);
        let has_triples = is_so(alloc, row, row.most, Ok(row.triples))?;
        if !has_triples || !is_so(alloc, row, deeper, Err(Refusal::Syntax(0)))? {
            return Ok(Some(i));
        }
    }
    Ok(None)
}

#[test]
fn sixty_four_may_stand_in_one_another_and_one_more_is_a_fault(
    rt: HostRuntime,
) -> Result<(), Fail> {
    assert_eq!(rt; wrong_row(rt.alloc())?, None);
    Ok(())
}
