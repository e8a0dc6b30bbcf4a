//! References resolved under a base: the examples of RFC 3986, and others.
use gs_iri::resolve;
use gs_model::Refusal;
use std::alloc::Global;
use std::test::Fail;

const BASE: &str = "http://a/b/c/d;p?q";

/// RFC 3986, section 5.4.1: normal examples.
const NORMAL: [(&str, &str); 23] = [
    ("g:h", "g:h"),
    ("g", "http://a/b/c/g"),
    ("./g", "http://a/b/c/g"),
    ("g/", "http://a/b/c/g/"),
    ("/g", "http://a/g"),
    ("//g", "http://g"),
    ("?y", "http://a/b/c/d;p?y"),
    ("g?y", "http://a/b/c/g?y"),
    ("#s", "http://a/b/c/d;p?q#s"),
    ("g#s", "http://a/b/c/g#s"),
    ("g?y#s", "http://a/b/c/g?y#s"),
    (";x", "http://a/b/c/;x"),
    ("g;x", "http://a/b/c/g;x"),
    ("g;x?y#s", "http://a/b/c/g;x?y#s"),
    ("", "http://a/b/c/d;p?q"),
    (".", "http://a/b/c/"),
    ("./", "http://a/b/c/"),
    ("..", "http://a/b/"),
    ("../", "http://a/b/"),
    ("../g", "http://a/b/g"),
    ("../..", "http://a/"),
    ("../../", "http://a/"),
    ("../../g", "http://a/g"),
];

/// RFC 3986, section 5.4.2: abnormal examples, the last as strict parsers read it.
const ABNORMAL: [(&str, &str); 19] = [
    ("../../../g", "http://a/g"),
    ("../../../../g", "http://a/g"),
    ("/./g", "http://a/g"),
    ("/../g", "http://a/g"),
    ("g.", "http://a/b/c/g."),
    (".g", "http://a/b/c/.g"),
    ("g..", "http://a/b/c/g.."),
    ("..g", "http://a/b/c/..g"),
    ("./../g", "http://a/b/g"),
    ("./g/.", "http://a/b/c/g/"),
    ("g/./h", "http://a/b/c/g/h"),
    ("g/../h", "http://a/b/c/h"),
    ("g;x=1/./y", "http://a/b/c/g;x=1/y"),
    ("g;x=1/../y", "http://a/b/c/y"),
    ("g?y/./x", "http://a/b/c/g?y/./x"),
    ("g?y/../x", "http://a/b/c/g?y/../x"),
    ("g#s/./x", "http://a/b/c/g#s/./x"),
    ("g#s/../x", "http://a/b/c/g#s/../x"),
    ("http:g", "http:g"),
];

/// Other bases, with a reference each: a fragment of the base, and joins by the letter.
const OTHERS: [(&str, &str, &str); 5] = [
    ("http://a/b?q#f", "", "http://a/b?q"),
    ("http://a", "g", "http://a/g"),
    ("urn:a:b", "c", "urn:c"),
    ("f:/a", ".//g", "f://g"),
    (
        "http://a/b/c/d;p?q",
        "\u{e9}/../\u{4e2d}",
        "http://a/b/c/\u{4e2d}",
    ),
];

/// Whether a reference means this under a base.
fn means(alloc: Global, base: &str, reference: &str, wanted: &str) -> Result<bool, Refusal> {
    let mut resolved = String::new(alloc);
    resolve(base, reference, &mut resolved)?;
    Ok(resolved.as_str() == wanted)
}

/// The first of these references that means something else.
fn wrong_row(
    alloc: Global,
    rows: &[(&'static str, &'static str)],
) -> Result<Option<&'static str>, Refusal> {
    for (reference, wanted) in rows {
        if !means(alloc, BASE, reference, wanted)? {
            return Ok(Some(reference));
        }
    }
    Ok(None)
}

#[test]
fn normal_examples(rt: HostRuntime) -> Result<(), Fail> {
    assert_eq!(rt; wrong_row(rt.alloc(), &NORMAL)?, None);
    Ok(())
}

#[test]
fn abnormal_examples(rt: HostRuntime) -> Result<(), Fail> {
    assert_eq!(rt; wrong_row(rt.alloc(), &ABNORMAL)?, None);
    Ok(())
}

/// The first of the references under other bases that means something else.
fn wrong_other(alloc: Global) -> Result<Option<&'static str>, Refusal> {
    for (base, reference, wanted) in &OTHERS {
        if !means(alloc, base, reference, wanted)? {
            return Ok(Some(reference));
        }
    }
    Ok(None)
}

#[test]
fn other_bases(rt: HostRuntime) -> Result<(), Fail> {
    assert_eq!(rt; wrong_other(rt.alloc())?, None);
    Ok(())
}

#[test]
fn a_resolved_text_stands_after_what_stood_there(rt: HostRuntime) -> Result<(), Fail> {
    let mut resolved = String::from_str(rt.alloc(), "<")?;
    resolve(BASE, "g", &mut resolved)?;
    assert_eq!(rt; resolved.as_str(), "<http://a/b/c/g");
    Ok(())
}
