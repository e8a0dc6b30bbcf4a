//! What a lexer gives of a text that has not ended, and what stands in a token.
use crate::rows::{Of, wrong_row};
use gs_lex::{Lexer, Token, TokenKind};
use gs_model::Refusal;
use std::alloc::Global;

/// How many tokens of a text of Turtle no more text can change.
const OF_TURTLE: &str = r##"
1 →<a>
1 →'a'
0 →''
1 →''''''
7 →;,[]()^^
2 →a:b 1 .
1 →. #
"##;

/// How many of one of updates.
const OF_UPDATES: &str = r##"
2 →{}
"##;

/// The first text of which another number of tokens is given.
fn wrong_settled(alloc: Global) -> Option<&'static str> {
    let turtle = Of::Settled { updates: false };
    let updates = Of::Settled { updates: true };
    wrong_row(alloc, turtle, OF_TURTLE, '\n', 7).or(wrong_row(alloc, updates, OF_UPDATES, '\n', 1))
}

#[test]
fn a_token_is_given_once_it_is_settled(rt: HostRuntime) {
    assert_eq!(rt; wrong_settled(rt.alloc()), None);
}

/// What is done with a new lexer of Turtle.
#[derive(Clone, Copy)]
enum Case {
    /// It reads a text whose second token is cut.
    Cut,
    /// It reads a text with a fault, another piece, and the end.
    Fault,
    /// It reads three texts, the last of which has a fault.
    Texts,
}

/// What is wrong with the tokens of the text whose second token is cut.
fn wrong_token(tokens: &[Token]) -> Option<&'static str> {
    let [first, second] = tokens else {
        return Some("how many tokens a cut text has");
    };
    if first.kind != TokenKind::A || first.text.len() != 0 || first.end != 1 {
        return Some("the first token of a cut text");
    }
    if second.kind != TokenKind::IriRef || second.text.as_slice() != b"<bc>".as_slice() {
        return Some("the second token of a cut text");
    }
    let is_placed = second.start == 2 && second.end == 6;
    if is_placed {
        None
    } else {
        Some("the place of the second token of a cut text")
    }
}

/// Whether a piece is read.
fn is_fed(lexer: &mut Lexer, piece: &[u8], tokens: &mut Vec<Token>) -> bool {
    lexer.feed(piece, tokens).is_ok()
}

/// Whether a piece is read that ends a text.
fn is_last(lexer: &mut Lexer, piece: &[u8], tokens: &mut Vec<Token>) -> bool {
    is_fed(lexer, piece, tokens) && lexer.finish(tokens).is_ok()
}

/// Whether a piece is refused so.
fn is_refused(lexer: &mut Lexer, piece: &[u8], tokens: &mut Vec<Token>, by: Refusal) -> bool {
    lexer.feed(piece, tokens) == Err(by)
}

/// Tokens carry their bytes and their place.
fn wrong_cut(lexer: &mut Lexer, tokens: &mut Vec<Token>) -> Option<&'static str> {
    if is_fed(lexer, b"a <b", tokens) && is_last(lexer, b"c> ", tokens) {
        wrong_token(tokens.as_slice())
    } else {
        Some("a cut text is refused")
    }
}

/// After a fault each call is refused.
fn wrong_fault(lexer: &mut Lexer, tokens: &mut Vec<Token>) -> Option<&'static str> {
    if !is_refused(lexer, b"<b c>", tokens, Refusal::Syntax(0)) {
        return Some("the fault of a text");
    }
    if !is_refused(lexer, b"", tokens, Refusal::Closed) {
        return Some("a piece after a fault");
    }
    if lexer.finish(tokens) == Err(Refusal::Closed) {
        None
    } else {
        Some("the end after a fault")
    }
}

/// A finished lexer reads another text from its first byte on.
fn wrong_text(lexer: &mut Lexer, tokens: &mut Vec<Token>) -> Option<&'static str> {
    if !is_last(lexer, b"a .", tokens) || !is_last(lexer, b"<b>", tokens) {
        return Some("one of two texts is refused");
    }
    if tokens.len() != 3 || tokens[2].start != 0 {
        return Some("the second text");
    }
    if is_refused(lexer, b"<b c>", tokens, Refusal::Syntax(0)) {
        None
    } else {
        Some("the third text")
    }
}

/// What is wrong in a case.
fn wrong_in(alloc: Global, case: Case) -> Option<&'static str> {
    let mut lexer = Lexer::new(alloc, false);
    let mut tokens = Vec::new(alloc);
    let wrong = match case {
        Case::Cut => wrong_cut(&mut lexer, &mut tokens),
        Case::Fault => wrong_fault(&mut lexer, &mut tokens),
        Case::Texts => wrong_text(&mut lexer, &mut tokens),
    };
    drop(tokens);
    drop(lexer);
    wrong
}

#[test]
fn tokens_carry_their_bytes_and_their_place(rt: HostRuntime) {
    assert_eq!(rt; wrong_in(rt.alloc(), Case::Cut), None);
}

#[test]
fn after_a_fault_each_call_is_refused(rt: HostRuntime) {
    assert_eq!(rt; wrong_in(rt.alloc(), Case::Fault), None);
}

#[test]
fn a_finished_lexer_reads_another_text(rt: HostRuntime) {
    assert_eq!(rt; wrong_in(rt.alloc(), Case::Texts), None);
}
