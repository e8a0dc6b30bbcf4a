//! Long labels and long strings, in both languages.
use crate::bodies::{Language, lines_as_read};
use gs_model::Refusal;
use gs_test_readings::SIZES;
use std::alloc::{AllocError, Global};
use std::test::Fail;

/// So many letters.
fn letters(alloc: Global, count: usize) -> Result<String, AllocError> {
    let mut text = String::with_capacity(alloc, count)?;
    for _ in 0..count {
        text.push('x')?;
    }
    Ok(text)
}

/// Two triples between two nodes whose labels have 70,000 bytes and differ in their last byte.
fn long_labels(alloc: Global) -> Result<String, AllocError> {
    let label = letters(alloc, 69_999)?;
    format!(in alloc; "_:{label}a <a:b> _:{label}b .\n_:{label}b <a:b> _:{label}a .\n")
}

/// The first length of pieces in which a document of a language does not have these lines.
fn wrong_size(
    alloc: Global,
    language: Language,
    text: &str,
    want: &str,
) -> Result<Option<usize>, Refusal> {
    for size in &SIZES {
        let got = lines_as_read(alloc, language, text.as_bytes(), *size)?;
        if got.as_slice() != want.as_bytes() {
            return Ok(Some(*size));
        }
    }
    Ok(None)
}

/// A term has a number in the place of its label.
#[test]
fn a_label_may_be_longer_than_a_term(rt: HostRuntime) -> Result<(), Fail> {
    let alloc = rt.alloc();
    let text = long_labels(alloc)?;
    let want = "_:b1_1 <a:b> _:b1_2 .\n_:b1_2 <a:b> _:b1_1 .\n";
    assert_eq!(rt;
        wrong_size(alloc, Language::Turtle, text.as_str(), want)?,
        None
    );
    assert_eq!(rt;
        wrong_size(alloc, Language::NTriples, text.as_str(), want)?,
        None
    );
    Ok(())
}

/// What stands after the closing quote of a string. The last two begin neither a tag nor a
/// datatype: a short string makes them the first fault, and a long one is itself the first.
const ENDS: [&str; 5] = ["", "@en", "^^<a:d>", "@", "^"];

/// A triple whose object is a string of 70,000 letters with this after its closing quote.
fn long_string(alloc: Global, end: &str) -> Result<String, AllocError> {
    let string = letters(alloc, 70_000)?;
    format!(in alloc; "<a:a> <a:b> \"{string}\"{end} .")
}

/// Whether a text is refused for a term's length in both languages, in pieces of each length.
fn is_too_long(alloc: Global, text: &str) -> bool {
    for size in &SIZES {
        let turtle = lines_as_read(alloc, Language::Turtle, text.as_bytes(), *size);
        let ntriples = lines_as_read(alloc, Language::NTriples, text.as_bytes(), *size);
        let long = Some(Refusal::TermTooLong);
        if turtle.err() != long || ntriples.err() != long {
            return false;
        }
    }
    true
}

/// The first of these ends after which a long string is not the first fault.
fn wrong_end(alloc: Global) -> Result<Option<&'static str>, AllocError> {
    for end in &ENDS {
        let text = long_string(alloc, end)?;
        if !is_too_long(alloc, text.as_str()) {
            return Ok(Some(end));
        }
    }
    Ok(None)
}

#[test]
fn a_string_too_long_is_the_first_fault(rt: HostRuntime) -> Result<(), Fail> {
    assert_eq!(rt; wrong_end(rt.alloc())?, None);
    Ok(())
}
