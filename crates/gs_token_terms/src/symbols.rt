//! What the grammar sees of a token.
ghost use Rattle.std.specs.Prelude.{◌≡◌, MatchResult};
ghost use Rattle.std.specs.Char.{is_ascii};
ghost use Rattle.std.specs.List.{list_all};
ghost use Rattle.std.specs.Str.{IsUtf8};
ghost use Rattle.gs_lex.specs.Lexemes.{lexeme_of, lexeme_of_borrowed};
ghost use Rattle.gs_triples.specs.Symbols.{symbol as kind_symbol, symbol_of, after_mark};
ghost use Rattle.gs_token_terms.specs.Views.{symbol_at};

use crate::vocabulary::Datatype;
use gs_lex::{BorrowedToken, Token, TokenKind};
use std::str::{Utf8Error, from_utf8_unchecked};

/// A token that is a term by itself, or a variable, by the names of the grammar.
#[derive(Clone, Copy)]
pub enum TermToken<'a> {
    /// With the number of bytes up to its end, since it may end a directive.
    Reference(&'a str, u64),
    Namespace(&'a str),
    Name(&'a str),
    Label(&'a str),
    /// A number or a boolean, with its datatype.
    Plain(&'a str, Datatype),
    /// The name after the mark, in updates alone.
    Variable(&'a [u8]),
}

/// A terminal, with what it leaves open.
#[derive(Clone, Copy)]
pub enum Symbol<'a> {
    Term(TermToken<'a>),
    Text(&'a str),
    /// A language tag, `@prefix` or `@base`.
    At(&'a str),
    Carets,
    /// The word `a`.
    A,
    Open,
    Close,
    OpenList,
    CloseList,
    Semicolon,
    Comma,
    /// A dot, with the number of bytes up to its end.
    Dot(u64),
    Prefix,
    Base,
    /// What stands in updates alone, or is no text, with the number of bytes up to its end.
    Foreign(TokenKind, u64),
}

/// The text after its first byte.
fn after_mark(text: &[u8]) -> &[u8]
    ensures { result.now ≡ after_mark text.now }
{
    match text {
        [] => text,
        [_, rest @ ..] => rest,
    }
}

/// Whether all are ASCII. It looks at all of them, so that a compiler may test several at once.
fn are_ascii(bytes: &[u8]) -> bool
    ensures { result ≡ list_all is_ascii bytes.now }
{
    let mut are = true;
    for b in bytes {
        are &= b.is_ascii();
    }
    are
}

/// The text of bytes: ASCII, as most tokens are, is not decoded.
#[inline(always)]
#[tactic(auto, using(crate::proofs::SymbolLemmas::ascii_is_text))]
fn text_of(bytes: &[u8]) -> Result<&str, Utf8Error>
    ensures cases { MatchResult result (λ s. (s.now ≡ bytes.now) × IsUtf8 bytes.now)
        (λ e. ¬ (IsUtf8 bytes.now)) }
{
    if are_ascii(bytes) {
        return Ok(unsafe { from_utf8_unchecked(bytes) });
    }
    str::from_utf8(bytes)
}

#[inline(always)]
fn symbol_of_kind(kind: TokenKind, text: &str, end: u64) -> Symbol<'_>
    ensures { symbol_at result ≡ kind_symbol kind text.now end }
{
    match kind {
        TokenKind::IriRef => Symbol::Term(TermToken::Reference(text, end)),
        TokenKind::PnameNs => Symbol::Term(TermToken::Namespace(text)),
        TokenKind::PnameLn => Symbol::Term(TermToken::Name(text)),
        TokenKind::BlankNodeLabel => Symbol::Term(TermToken::Label(text)),
        TokenKind::Integer => Symbol::Term(TermToken::Plain(text, Datatype::Integer)),
        TokenKind::Decimal => Symbol::Term(TermToken::Plain(text, Datatype::Decimal)),
        TokenKind::Double => Symbol::Term(TermToken::Plain(text, Datatype::Double)),
        TokenKind::True => Symbol::Term(TermToken::Plain("true", Datatype::Boolean)),
        TokenKind::False => Symbol::Term(TermToken::Plain("false", Datatype::Boolean)),
        TokenKind::StringLiteralQuote
        | TokenKind::StringLiteralSingleQuote
        | TokenKind::StringLiteralLongQuote
        | TokenKind::StringLiteralLongSingleQuote => Symbol::Text(text),
        TokenKind::LangTag => Symbol::At(text),
        TokenKind::Carets => Symbol::Carets,
        TokenKind::A => Symbol::A,
        TokenKind::OpenBracket => Symbol::Open,
        TokenKind::CloseBracket => Symbol::Close,
        TokenKind::OpenParenthesis => Symbol::OpenList,
        TokenKind::CloseParenthesis => Symbol::CloseList,
        TokenKind::Semicolon => Symbol::Semicolon,
        TokenKind::Comma => Symbol::Comma,
        TokenKind::Dot => Symbol::Dot(end),
        TokenKind::Var => Symbol::Term(TermToken::Variable(after_mark(text.as_bytes()))),
        TokenKind::Prefix => Symbol::Prefix,
        TokenKind::Base => Symbol::Base,
        _ => Symbol::Foreign(kind, end),
    }
}

/// The symbol of a token.
pub fn symbol_of_token(token: &Token) -> Symbol<'_>
    ensures { symbol_at result ≡ symbol_of (lexeme_of token.now) }
{
    symbol_of_borrowed(token.as_borrowed())
}

/// The symbol of a token that borrows its text.
#[inline(always)]
pub fn symbol_of_borrowed(token: BorrowedToken<'_>) -> Symbol<'_>
    ensures { symbol_at result ≡ symbol_of (lexeme_of_borrowed token.entry) }
{
    match text_of(token.text) {
        Ok(text) => symbol_of_kind(token.kind, text, token.end),
        Err(_) => Symbol::Foreign(token.kind, token.end),
    }
}
