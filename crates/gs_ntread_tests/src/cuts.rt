//! Statements in one piece, and cut in two at each of their bytes.
use crate::bodies::{fault_of, lines_of};
use gs_model::Refusal;
use std::alloc::Global;
use std::test::Fail;

/// A name, a text, and the lines of its triples in request 3.
type Row = (&'static str, &'static [u8], &'static [u8]);

/// Texts that are documents.
const DOCUMENTS: [Row; 15] = [
    ("IRIs", b"<a:s> <a:p> <a:o> .\n", b"<a:s> <a:p> <a:o> .\n"),
    ("no blanks", b"<a:s><a:p><a:o>.\n", b"<a:s> <a:p> <a:o> .\n"),
    (
        "no line feed at the end",
        b"<a:s> <a:p> <a:o> .\n<a:s> <a:p> <a:q> .",
        b"<a:s> <a:p> <a:o> .\n<a:s> <a:p> <a:q> .\n",
    ),
    (
        "labels before blanks",
        b"_:a <a:p> _:b .\n_:b <a:p> _:a .\n",
        b"_:b3_1 <a:p> _:b3_2 .\n_:b3_2 <a:p> _:b3_1 .\n",
    ),
    (
        "labels before tabs",
        b"_:a\t<a:p>\t_:b\t.\n",
        b"_:b3_1 <a:p> _:b3_2 .\n",
    ),
    (
        "a label before its dot",
        b"_:a <a:p> _:a.\n_:a <a:p> <a:o>.\n",
        b"_:b3_1 <a:p> _:b3_1 .\n_:b3_1 <a:p> <a:o> .\n",
    ),
    (
        "labels with dots inside",
        b"_:a.b <a:p> _:a..b .\n",
        b"_:b3_1 <a:p> _:b3_2 .\n",
    ),
    (
        "a label before an IRI",
        b"_:1<a:p>_:b-c:d .\n",
        b"_:b3_1 <a:p> _:b3_2 .\n",
    ),
    (
        "a datatype that is left out",
        b"<a:s> <a:p> \"x\"^^<http://www.w3.org/2001/XMLSchema#string> .\n",
        b"<a:s> <a:p> \"x\" .\n",
    ),
    (
        "datatypes and tags",
        b"_:a <a:p> \"x\"^^<a:d> .\n_:a <a:p> \"x\"@en .\n_:a <a:p> \"x\"@EN.\n",
        b"_:b3_1 <a:p> \"x\"^^<a:d> .\n_:b3_1 <a:p> \"x\"@en .\n_:b3_1 <a:p> \"x\"@en .\n",
    ),
    (
        "literals that do not stand there as they are kept",
        b"_:a <a:p> \"\\u0041\xC3\xA9\" .\n<a:s> <a:p> \"\\t\" .\n_:a <a:p> _:b .\n",
        b"_:b3_1 <a:p> \"A\xC3\xA9\" .\n<a:s> <a:p> \"\t\" .\n_:b3_1 <a:p> _:b3_2 .\n",
    ),
    (
        "line ends of two characters",
        b"_:a <a:p> <a:o> .\r\n<a:s> <a:p> _:a .\r\n",
        b"_:b3_1 <a:p> <a:o> .\n<a:s> <a:p> _:b3_1 .\n",
    ),
    (
        "comments after statements",
        b"<a:s> <a:p> <a:o> . # c .\n<a:s> <a:p> _:a .#\n",
        b"<a:s> <a:p> <a:o> .\n<a:s> <a:p> _:b3_1 .\n",
    ),
    (
        "blanks before statements and after their dots",
        b" <a:s> <a:p> <a:o> . \n\t_:a <a:p> <a:o> .\t\n",
        b"<a:s> <a:p> <a:o> .\n_:b3_1 <a:p> <a:o> .\n",
    ),
    (
        "empty lines between statements",
        b"\n<a:s> <a:p> <a:o> .\n\n<a:s> <a:p> <a:q> .\n",
        b"<a:s> <a:p> <a:o> .\n<a:s> <a:p> <a:q> .\n",
    ),
];

/// Whether a text has these lines, whole and cut in two at each of its bytes.
fn has_lines(alloc: Global, text: &[u8], wanted: &[u8]) -> Result<bool, Refusal> {
    for at in 0..text.len() {
        let (front, back) = text.split_at(at);
        if lines_of(alloc, &[front, back])?.as_slice() != wanted {
            return Ok(false);
        }
    }
    Ok(true)
}

/// The first document that has not its lines.
fn wrong_document(alloc: Global) -> Result<Option<&'static str>, Refusal> {
    for (name, text, wanted) in &DOCUMENTS {
        if !has_lines(alloc, text, wanted)? {
            return Ok(Some(name));
        }
    }
    Ok(None)
}

#[test]
fn a_cut_changes_no_triple(rt: HostRuntime) -> Result<(), Fail> {
    assert_eq!(rt; wrong_document(rt.alloc())?, None);
    Ok(())
}

/// A name, a text, and how many bytes it has up to the end of the last statement before its fault.
type Fault = (&'static str, &'static [u8], u64);

/// Texts with a fault after a statement.
const FAULTS: [Fault; 6] = [
    (
        "a literal as subject",
        b"_:a <a:p> _:b .\n\"x\" <a:p> <a:o> .\n",
        15,
    ),
    (
        "a label as predicate",
        b"_:a <a:p> _:b .\n_:a _:p <a:o> .\n",
        15,
    ),
    ("a relative IRI", b"_:a <a:p> _:b .\n_:a <a:p> <o> .\n", 15),
    (
        "a relative datatype",
        b"_:a <a:p> _:b .\n_:a <a:p> \"x\"^^<d> .\n",
        15,
    ),
    (
        "a statement more in a line",
        b"_:a <a:p> _:b .\n_:a <a:p> <a:o> . <a:s>",
        33,
    ),
    (
        "a dot more after a label",
        b"_:a <a:p> _:b .\n_:a <a:p> _:b..\n",
        30,
    ),
];

/// Whether the grammar is broken after so many bytes of a text, whole and cut in two at each of its bytes.
fn is_broken(alloc: Global, text: &[u8], end: u64) -> bool {
    for at in 0..text.len() {
        let (front, back) = text.split_at(at);
        if fault_of(alloc, &[front, back]) != Some(Refusal::Syntax(end)) {
            return false;
        }
    }
    true
}

/// The first text that has not its fault.
fn wrong_fault(alloc: Global) -> Option<&'static str> {
    for (name, text, end) in &FAULTS {
        if !is_broken(alloc, text, *end) {
            return Some(name);
        }
    }
    None
}

#[test]
fn a_cut_changes_no_fault(rt: HostRuntime) {
    assert_eq!(rt; wrong_fault(rt.alloc()), None);
}
