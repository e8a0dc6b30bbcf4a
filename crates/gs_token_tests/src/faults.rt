//! Texts of Turtle that have a fault, in pieces of any size.
use crate::readings::has_tokens;
use crate::rows::{Of, wrong_row};
use std::alloc::Global;

/// What a text has that is wrong, and the number of bytes up to the end of the last token before it.
const FAULTS: &str = "\
    a word that the grammar does not have§Syntax(1) →a b¦\
    such a word after words and dots§Syntax(9) →a.a.true.b.a ¦\
    a long string that does not end§Syntax(1) →a \"\"\"b\"\"¦\
    a line feed in a short string§Syntax(3) →<a> 'b\n'¦\
    an escape of strings in an IRI§Syntax(0) →<a\\n>¦\
    a space in an IRI§Syntax(0) →<b c>¦\
    half a percent escape§Syntax(3) →a:b%4¦\
    a brace, outside updates§Syntax(1) →a {¦\
    a variable, outside updates§Syntax(1) →a ?x¦\
";

/// Which of two texts that are no UTF-8 has not its fault.
fn wrong_bytes(alloc: Global) -> Option<&'static str> {
    if !has_tokens(alloc, false, b"a # \xff\n", "Syntax(1) ", "") {
        return Some("a comment that is no UTF-8");
    }
    if !has_tokens(alloc, false, b". \xc3", "Syntax(1) ", "") {
        return Some("the front of a character at the end");
    }
    None
}

/// The first text that has no fault, or one at another place.
fn wrong_fault(alloc: Global) -> Option<&'static str> {
    let turtle = Of::Tokens { updates: false };
    wrong_row(alloc, turtle, FAULTS, '¦', 9).or(wrong_bytes(alloc))
}

#[test]
fn a_fault_has_the_place_of_the_last_token_before_it(rt: HostRuntime) {
    assert_eq!(rt; wrong_fault(rt.alloc()), None);
}
