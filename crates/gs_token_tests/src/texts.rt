//! Texts and their tokens, in pieces of any size.
use crate::rows::{Of, wrong_row};
use std::alloc::Global;

/// A dot belongs to the longest token: tokens with dots in them, and dots beside tokens.
const DOTS: &str = "\
    PnameLn Comma →ex:a.b,¦\
    PnameLn Dot →ex:a. ¦\
    Integer Dot →1.¦\
    Double →1.e0¦\
    Decimal Decimal Integer →-.5 +1.5 2¦\
    True Dot →true.¦\
    PnameLn →true.a:b¦\
    True Decimal →true.5¦\
    BlankNodeLabel Dot Dot →_:a..¦\
    A Dot A Dot A →a.a.a ¦\
";

/// Words after a word that is no prefix are words: words and dots that may become a prefix, and do not.
const WORDS: &str = "\
    A Dot A Dot Dot A Dot PnameNs →a.a..a.:¦\
    A Dot A Dot A Semicolon PnameLn →a.a.a;a.a.a:a.a ¦\
    True Dot A Semicolon PnameLn →true.a;a.b:c ¦\
";

/// Strings end as the grammar says: strings of each kind.
const STRINGS: &str = "\
    StringLiteralQuote →\"\"¦\
    StringLiteralSingleQuote →'a\\'\\u00e9'¦\
    StringLiteralLongQuote →\"\"\"a\"b\"\"c\n\"\"\"¦\
    StringLiteralLongSingleQuote Dot →''''''.¦\
    StringLiteralSingleQuote LangTag Carets →'x'@en-GB^^¦\
    StringLiteralLongQuote →\"\"\"\n\"\"\"¦\
    StringLiteralLongSingleQuote →'''\n'''¦\
    StringLiteralLongSingleQuote →''''''¦\
";

/// White space and comments part tokens; and tokens with none between them.
const SPACES: &str = "\
    IriRef Semicolon → <a#b>#c . d\r\n; # end¦\
    PnameLn OpenBracket CloseBracket OpenParenthesis CloseParenthesis →é:ü[]()¦\
    LangTag PnameNs Base Prefix →@prefix : BASE pReFiX¦\
";

/// Updates have words, braces and variables: tokens that stand in updates alone.
const UPDATES: &str = "\
    Insert Data OpenBrace Var Var PnameLn CloseBrace →insert DATA{?x $y1 a:b}¦\
    Delete Where Graph Load Clear Drop Create Add Move Copy With →delete where graph load clear drop create add move copy with¦\
";

/// The first row that is wrong.
fn wrong_text(alloc: Global) -> Option<&'static str> {
    let turtle = Of::Tokens { updates: false };
    wrong_row(alloc, turtle, DOTS, '¦', 10)
        .or(wrong_row(alloc, turtle, WORDS, '¦', 3))
        .or(wrong_row(alloc, turtle, STRINGS, '¦', 8))
        .or(wrong_row(alloc, turtle, SPACES, '¦', 3))
        .or(wrong_row(alloc, Of::Tokens { updates: true }, UPDATES, '¦', 2))
}

#[test]
fn texts_have_their_tokens(rt: HostRuntime) {
    assert_eq!(rt; wrong_text(rt.alloc()), None);
}
