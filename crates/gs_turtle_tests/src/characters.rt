//! Documents and faults with characters that a table of lines cannot show, and texts that are not
//! UTF-8.
use gs_model::Refusal;
use gs_test_readings::SIZES;
use gs_test_readings::turtle::{fault_of, graph_of};
use std::alloc::{AllocError, Global};
use std::test::Fail;

/// Documents under the base `http://e/`, each with its lines without their line feeds, in the order
/// of their bytes.
const DOCUMENTS: [(&str, &[&str]); 8] = [
    (
        "# <a> <b> <c> .\r\n\t<s>#one\r<p>\r\n\r\n # two \"\n\t<o#1>\n#<o#2>\n.#three",
        &["<http://e/s> <http://e/p> <http://e/o#1> ."],
    ),
    (" \t\r\n\n", &[]),
    ("#\n  # one\r\n# <a> <b> <c> .\r\t#", &[]),
    (
        r#"<s> <p> "\t\b\n\r\f\"\'\\" , '\t\b\n\r\f\"\'\\' , """\t\b\n\r\f\"\'\\""" , '''\t\b\n\r\f\"\'\\''' ."#,
        &["<http://e/s> <http://e/p> \"\t\u{8}\\n\\r\u{C}\\\"'\\\\\" ."],
    ),
    (
        r#"<s> <p> "\u00e9\u00E9\U0001F409\u0022\u005C\u000a\u0000\U0010FFFF" ."#,
        &["<http://e/s> <http://e/p> \"\u{E9}\u{E9}\u{1F409}\\\"\\\\\\n\u{0}\u{10FFFF}\" ."],
    ),
    (
        "<s> <p> '''a\r\nb\rc\n\td''' , \"\"\"\n\"\"\" .",
        &[
            "<http://e/s> <http://e/p> \"\\n\" .",
            "<http://e/s> <http://e/p> \"a\\r\\nb\\rc\\n\td\" .",
        ],
    ),
    (
        "[] a <c> ; <p> [] . [\t\r\n] <p> <o> . [ # nothing\n] <p> <o> .",
        &[
            "_:b3_1 <http://e/p> _:b3_2 .",
            "_:b3_1 <http://www.w3.org/1999/02/22-rdf-syntax-ns#type> <http://e/c> .",
            "_:b3_3 <http://e/p> <http://e/o> .",
            "_:b3_4 <http://e/p> <http://e/o> .",
        ],
    ),
    (
        "() <p> ( ) , (\t\r\n) , ( # nothing\n) ; a <c> .",
        &[
            "<http://www.w3.org/1999/02/22-rdf-syntax-ns#nil> <http://e/p> <http://www.w3.org/1999/02/22-rdf-syntax-ns#nil> .",
            "<http://www.w3.org/1999/02/22-rdf-syntax-ns#nil> <http://www.w3.org/1999/02/22-rdf-syntax-ns#type> <http://e/c> .",
        ],
    ),
];

/// Lines, each with a line feed.
fn joined(alloc: Global, lines: &[&str]) -> Result<String, AllocError> {
    let mut text = String::new(alloc);
    for line in lines {
        text.push_str(line)?;
        text.push('\n')?;
    }
    Ok(text)
}

/// The first document that says something else in pieces of so many bytes.
fn wrong_document(alloc: Global, size: usize) -> Result<Option<&'static str>, Refusal> {
    for (text, lines) in &DOCUMENTS {
        let want = joined(alloc, lines)?;
        let got = graph_of(alloc, "http://e/", text.as_bytes(), size)?;
        if got.as_slice() != want.as_bytes() {
            return Ok(Some(text));
        }
    }
    Ok(None)
}

#[test]
fn documents_with_control_characters_have_their_triples(rt: HostRuntime) -> Result<(), Fail> {
    for size in &SIZES {
        assert_eq!(rt; wrong_document(rt.alloc(), *size)?, None);
    }
    Ok(())
}

/// Texts with control characters, and texts that are not UTF-8, each with the number of its bytes
/// up to the end of the last statement before its fault.
const FAULTS: [(&[u8], u64); 13] = [
    (b"<s \x01t> <p> <o> .", 0),
    (b"<\x01> <p> <o> .", 0),
    (b"<s\x1F> <p> <o> .", 0),
    (b"<\0> <p> <o> .", 0),
    (b"<s> <p> 'x\ry' .", 0),
    (b"<s> <p> \"\xFF\" .", 0),
    (b"<s> <p> <o> . # \x80", 13),
    (b"<s> <p> \"\xC3\" .", 0),
    (b"<s> <p> \"\xC0\x80\" .", 0),
    (b"<s> <p> \"\xED\xA0\x80\" .", 0),
    (b"<s> <p> \"\xF4\x90\x80\x80\" .", 0),
    (b"<s> <p> <o> . # \xE2\x82", 13),
    (b"BASE <http://f/> # \x80", 16),
];

/// The number of the first of them that does not have its fault in pieces of so many bytes.
fn wrong_fault(alloc: Global, size: usize) -> Option<usize> {
    for (i, (text, at)) in FAULTS.iter().enumerate() {
        if fault_of(alloc, "http://e/", text, size) != Some(Refusal::Syntax(*at)) {
            return Some(i);
        }
    }
    None
}

#[test]
fn control_characters_and_other_bytes_are_a_fault(rt: HostRuntime) {
    for size in &SIZES {
        assert_eq!(rt; wrong_fault(rt.alloc(), *size), None);
    }
}
