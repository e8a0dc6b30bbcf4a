//! Texts that are absolute IRIs, and texts that are not.
use gs_iri::is_absolute;
use std::test::Fail;

/// A text, and whether it is an absolute IRI.
const TEXTS: [(&str, bool); 17] = [
    ("http://a/b/c/d;p?q", true),
    ("http://a/b?q#f", true),
    ("urn:a:b", true),
    ("a:", true),
    ("Z9+-.:/", true),
    ("http://e/\u{e9}", true),
    ("http://e/%zz", true),
    ("", false),
    (":", false),
    ("a", false),
    ("/a/b", false),
    ("1a:b", false),
    ("a_b:c", false),
    ("\u{e9}:a", false),
    ("http://e/a b", false),
    ("http://e/<a>", false),
    ("http://e/a|b", false),
];

/// The first text of which that is otherwise.
fn wrong_row(rows: &[(&'static str, bool)]) -> Option<&'static str> {
    for (text, wanted) in rows {
        if is_absolute(text) != *wanted {
            return Some(text);
        }
    }
    None
}

#[test]
fn an_absolute_iri_has_a_scheme_and_iri_characters(rt: HostRuntime) -> Result<(), Fail> {
    assert_eq!(rt; wrong_row(&TEXTS), None);
    Ok(())
}
