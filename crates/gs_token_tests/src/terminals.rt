//! Each terminal of Turtle and of updates, alone and with a dot after it, in pieces of any size.
use crate::rows::{Of, wrong_row};
use std::alloc::Global;

/// Each terminal of both languages in its forms: a token's kind, and its text. An escape is
/// well formed by its digits: which character it means, and whether a term may have that, is no
/// matter of tokens.
const TERMINALS: &str = r##"
IriRef →<http://e/a>
IriRef →<>
IriRef →<a\u00e9\U0001F600>
IriRef →<é>
IriRef →<a#b;c,d.e>
IriRef →<\uD800>
IriRef →<a\u0020>
PnameNs →:
PnameNs →ex:
PnameNs →e.x:
PnameNs →true:
PnameLn →ex:a
PnameLn →:a
PnameLn →a.b:c.d
PnameLn →ex:%41
PnameLn →ex:\~\.
PnameLn →ex:a:b
PnameLn →ex:1
PnameLn →é:ü
PnameLn →a:b.%20
BlankNodeLabel →_:a
BlankNodeLabel →_:1
BlankNodeLabel →_:a.b
BlankNodeLabel →_:a-b
BlankNodeLabel →_:é
LangTag →@en
LangTag →@en-GB-1
LangTag →@prefix
Integer →1
Integer →+1
Integer →-01
Decimal →1.5
Decimal →.5
Decimal →-.5
Decimal →+1.0
Double →1e0
Double →1.e0
Double →1.5E-3
Double →.5e+1
Double →-1e1
StringLiteralQuote →""
StringLiteralQuote →"a"
StringLiteralQuote →"\t\u00e9"
StringLiteralQuote →"\U00110000"
StringLiteralQuote →"'"
StringLiteralQuote →".#"
StringLiteralSingleQuote →''
StringLiteralSingleQuote →'a'
StringLiteralSingleQuote →'\''
StringLiteralSingleQuote →'"'
StringLiteralLongQuote →""""""
StringLiteralLongQuote →"""a"b""c"""
StringLiteralLongQuote →"""\""""
StringLiteralLongSingleQuote →''''''
StringLiteralLongSingleQuote →'''a'b''c'''
Dot →.
Semicolon →;
Comma →,
OpenBracket →[
CloseBracket →]
OpenParenthesis →(
CloseParenthesis →)
Carets →^^
A →a
True →true
False →false
Prefix →PREFIX
Prefix →prefix
Base →BASE
Base →bAsE
"##;

/// Those that stand in updates alone.
const OF_UPDATES: &str = r##"
Var →?x
Var →$x
Var →?1
Var →?é
OpenBrace →{
CloseBrace →}
Insert →INSERT
Delete →DELETE
Data →DATA
Where →WHERE
Graph →GRAPH
Load →LOAD
Clear →CLEAR
Drop →DROP
Create →CREATE
Add →ADD
Move →MOVE
Copy →COPY
With →WITH
"##;

/// The first row that is wrong. The common rows are texts of Turtle and of updates.
fn wrong_terminal(alloc: Global, turtle: Of, updates: Of) -> Option<&'static str> {
    wrong_row(alloc, turtle, TERMINALS, '\n', 70)
        .or(wrong_row(alloc, updates, TERMINALS, '\n', 70))
        .or(wrong_row(alloc, updates, OF_UPDATES, '\n', 19))
}

#[test]
fn each_terminal_ends_at_the_end_of_the_text(rt: HostRuntime) {
    let turtle = Of::Tokens { updates: false };
    let updates = Of::Tokens { updates: true };
    assert_eq!(rt; wrong_terminal(rt.alloc(), turtle, updates), None);
}

#[test]
fn each_terminal_ends_before_a_dot(rt: HostRuntime) {
    let turtle = Of::Dotted { updates: false };
    let updates = Of::Dotted { updates: true };
    assert_eq!(rt; wrong_terminal(rt.alloc(), turtle, updates), None);
}
