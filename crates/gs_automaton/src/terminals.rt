//! The terminals of the grammars.

/// What the characters alone say of a token: its production, a word, or three quotes that open a
/// string.
#[derive(Clone, Copy, Debug, PartialEq, Eq)]
pub enum Terminal {
    IriRef,
    PnameNs,
    PnameLn,
    BlankNodeLabel,
    LangTag,
    Integer,
    Decimal,
    Double,
    StringLiteralQuote,
    StringLiteralSingleQuote,
    StringLiteralLongQuote,
    StringLiteralLongSingleQuote,
    Var,
    Word,
    Opening,
    Dot,
    Semicolon,
    Comma,
    OpenBracket,
    CloseBracket,
    OpenParenthesis,
    CloseParenthesis,
    Carets,
    OpenBrace,
    CloseBrace,
}
