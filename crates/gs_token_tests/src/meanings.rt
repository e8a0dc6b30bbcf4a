//! Rows of texts and what they mean.
use crate::readings::is_joined;
use crate::rows::{Of, wrong_row};
use gs_escape::{iri, local, parts, string};
use gs_model::Refusal;
use std::alloc::{AllocError, Global};

/// References between brackets (Turtle, sections 6.3 and 6.4).
const IRIS: &str = "\
    http://example.org/#green-goblin→<http://example.org/#green-goblin>¦\
    →<>¦\
    #a→<#a>¦\
    http://a.example/%66oo-bar→<http://a.example/%66oo-bar>¦\
    http://e/\u{e9}→<http://e/\\u00E9>¦\
    http://e/\u{e9}\u{4e2d}→<http://e/\\u00e9\\u4E2d>¦\
    http://e/\u{1f600}x→<http://e/\\U0001F600x>¦\
    ab→<\\u0061\\u0062>¦\
    \u{10ffff}→<\\U0010FFFF>¦\
    \u{d7ff}\u{e000}→<\\uD7FF\\uE000>¦\
    Syntax(0)→<\\U00110000>¦\
    Syntax(0)→<\\UFFFFFFFF>¦\
    Syntax(0)→<\\uD800>¦\
    Syntax(0)→<\\uDFFF>¦\
    Syntax(0)→<a\\u0020b>¦\
    Syntax(0)→<a\\u003Eb>¦\
    Syntax(0)→<a\\u005Cb>¦\
    Syntax(0)→<a\\nb>¦\
    Syntax(0)→<a\\u00Eg>¦\
    Syntax(0)→<a\\U0000E9>¦\
    Syntax(0)→<a b>¦\
    Syntax(0)→<a¦\
    Syntax(0)→<¦\
    Syntax(0)→\"a\"¦\
";

/// String literals (Turtle, sections 2.5.1 and 6.4).
const STRINGS: &str = "\
    That Seventies Show→\"That Seventies Show\"¦\
    That Seventies Show→'That Seventies Show'¦\
    →\"\"¦\
    →''¦\
    →\"\"\"\"\"\"¦\
    →''''''¦\
    \"→'\"'¦\
    it's→\"it's\"¦\
    \t\u{8}\n\r\u{c}\"'\\→\"\\t\\b\\n\\r\\f\\\"\\'\\\\\"¦\
    \t\u{8}\n\r\u{c}\"'\\→'\\t\\b\\n\\r\\f\\\"\\'\\\\'¦\
    a\"→\"\"\"a\\\"\"\"\"¦\
    \"a\"\"b→\"\"\"\"a\"\"b\"\"\"¦\
    \"\"a→\"\"\"\"\"a\"\"\"¦\
    many quotes (\"\"\"\"\")\nand two apostrophes ('').→'''many quotes (\"\"\"\"\")\nand two apostrophes ('').'''¦\
    \u{0}→\"\\u0000\"¦\
    \u{e9}\u{1f600}→\"\\u00E9\\U0001F600\"¦\
    \"→\"\\u0022\"¦\
    \u{e9}E9→\"\\u00E9E9\"¦\
    %66→\"%66\"¦\
    \u{e9}→\"\u{e9}\"¦\
    Syntax(0)→\"\\uD800\"¦\
    Syntax(0)→\"\\uDBFF\\uDC00\"¦\
    Syntax(0)→\"\\U00110000\"¦\
    Syntax(0)→\"\\a\"¦\
    Syntax(0)→\"\\u12\"¦\
    Syntax(0)→\"\\\"¦\
    Syntax(0)→\"a\"b\"¦\
    Syntax(0)→\"a\nb\"¦\
    Syntax(0)→'a\rb'¦\
    Syntax(0)→\"\"\"a\"\"\"\"¦\
    Syntax(0)→\"\"\"a\"\"\"b\"\"\"¦\
    Syntax(0)→\"\"\"¦\
    Syntax(0)→\"a'¦\
    Syntax(0)→\"¦\
    Syntax(0)→<a>¦\
";

/// Local parts of names (Turtle, sections 2.4 and 6.4).
const LOCALS: &str = "\
    →¦\
    video:height→video:height¦\
    lat-long→lat\\-long¦\
    %66oo-bar→%66oo-bar¦\
    _~.-!$&'()→\\_\\~\\.\\-\\!\\$\\&\\'\\(\\)¦\
    *+,;=/?#@%→\\*\\+\\,\\;\\=\\/\\?\\#\\@\\%¦\
    a%20→a\\%20¦\
    \u{e9}.→\u{e9}\\.¦\
    Syntax(0)→a\\n¦\
    Syntax(0)→\\u0061¦\
    Syntax(0)→a\\¦\
";

/// Names, parted at their first colon.
const PARTS: &str = "\
    foaf/name→foaf:name¦\
    /→:¦\
    ex/→ex:¦\
    og/video:height→og:video:height¦\
    none→a¦\
";

/// What a text is.
#[derive(Clone, Copy)]
pub enum Form {
    Iri,
    String,
    Local,
}

fn read(form: Form, text: &[u8], left: &mut String) -> Result<(), Refusal> {
    match form {
        Form::Iri => iri(text, left),
        Form::String => string(text, left),
        Form::Local => local(text, left),
    }
}

/// Writes a character and what a text means after it, or why it means nothing after what is left.
fn tell(form: Form, text: &[u8], left: &mut String) -> Result<(), AllocError> {
    left.push('\u{e9}')?;
    match read(form, text, left) {
        Ok(()) => Ok(()),
        Err(refusal) => write!(left, "{refusal:?}"),
    }
}

/// Whether a call leaves the meaning that is said after what stood there, and where there is none only
/// that.
pub fn is_meant(alloc: Global, form: Form, text: &[u8], said: &str) -> bool {
    let mut left = String::new(alloc);
    let told = tell(form, text, &mut left);
    let is = told.is_ok() && is_joined(left.as_str(), "\u{e9}", said);
    drop(left);
    is
}

/// Whether a name has these parts.
fn has_parts(text: &[u8], prefix: &str, rest: &str) -> bool {
    match parts(text) {
        Some((front, back)) => front == prefix.as_bytes() && back == rest.as_bytes(),
        None => false,
    }
}

/// Whether a name has the parts that are said.
pub fn is_parted(text: &[u8], said: &str) -> bool {
    match said.split_once('/') {
        Some((prefix, rest)) => has_parts(text, prefix, rest),
        None => parts(text).is_none(),
    }
}

/// Which of two texts that are no UTF-8 means something.
fn wrong_bytes(alloc: Global) -> Option<&'static str> {
    if !is_meant(alloc, Form::String, b"\"\xC3\"", "Syntax(0)") {
        return Some("the front of a character in a string");
    }
    if !is_meant(alloc, Form::Local, b"\xC3", "Syntax(0)") {
        return Some("the front of a character in a local part");
    }
    None
}

/// The first row that is wrong.
fn wrong_meaning(alloc: Global) -> Option<&'static str> {
    wrong_row(alloc, Of::Meaning(Form::Iri), IRIS, '¦', 24)
        .or(wrong_row(alloc, Of::Meaning(Form::String), STRINGS, '¦', 35))
        .or(wrong_row(alloc, Of::Meaning(Form::Local), LOCALS, '¦', 11))
        .or(wrong_row(alloc, Of::Parts, PARTS, '¦', 5))
        .or(wrong_bytes(alloc))
}

#[test]
fn texts_mean_what_is_said(rt: HostRuntime) {
    assert_eq!(rt; wrong_meaning(rt.alloc()), None);
}
