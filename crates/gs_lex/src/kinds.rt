//! The kinds of tokens, by the names of the grammars.

/// What a token is (Turtle, section 6.5; SPARQL 1.1 Query, section 19.8).
#[derive(Clone, Copy, Debug, PartialEq, Eq)]
pub enum TokenKind {
    IriRef,
    PnameNs,
    PnameLn,
    BlankNodeLabel,
    /// An at-word: a language tag, or the word of a directive.
    LangTag,
    Integer,
    Decimal,
    Double,
    StringLiteralQuote,
    StringLiteralSingleQuote,
    StringLiteralLongQuote,
    StringLiteralLongSingleQuote,
    /// `?x` or `$x`, in updates alone.
    Var,
    Dot,
    Semicolon,
    Comma,
    OpenBracket,
    CloseBracket,
    OpenParenthesis,
    CloseParenthesis,
    /// `^^`
    Carets,
    /// `{`, in updates alone.
    OpenBrace,
    /// `}`, in updates alone.
    CloseBrace,
    /// The word `a`.
    A,
    True,
    False,
    /// `PREFIX`, in any case; so are the words below, which stand in updates alone but for `BASE`.
    Prefix,
    Base,
    Insert,
    Delete,
    Data,
    Where,
    Graph,
    Load,
    Clear,
    Drop,
    Create,
    Add,
    Move,
    Copy,
    With,
}
