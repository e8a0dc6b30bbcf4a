//! The kind of a token, by its terminal and its bytes.
ghost use Rattle.std.specs.Prelude.{◌≡◌, bytes_eq};
ghost use Rattle.gs_lex.specs.Tokens as spec;

use crate::kinds::TokenKind;
use gs_automaton::Terminal;

fn is_text(text: &[u8], word: &[u8]) -> bool
    ensures { result ≡ bytes_eq text.now word.now }
{
    text == word
}

/// Whether it is the word, in any case.
fn is_word(text: &[u8], word: &[u8]) -> bool
    ensures { result ≡ spec.is_word text.now word.now }
{
    text.eq_ignore_ascii_case(word)
}

fn directive(text: &[u8]) -> Option<TokenKind>
    ensures { result ≡ spec.directive text.now }
{
    if is_word(text, b"prefix") {
        Some(TokenKind::Prefix)
    } else if is_word(text, b"base") {
        Some(TokenKind::Base)
    } else {
        None
    }
}

fn update_word(text: &[u8]) -> Option<TokenKind>
    ensures { result ≡ spec.update_word text.now }
{
    if is_word(text, b"insert") {
        Some(TokenKind::Insert)
    } else if is_word(text, b"delete") {
        Some(TokenKind::Delete)
    } else if is_word(text, b"data") {
        Some(TokenKind::Data)
    } else if is_word(text, b"where") {
        Some(TokenKind::Where)
    } else if is_word(text, b"graph") {
        Some(TokenKind::Graph)
    } else if is_word(text, b"load") {
        Some(TokenKind::Load)
    } else if is_word(text, b"clear") {
        Some(TokenKind::Clear)
    } else if is_word(text, b"drop") {
        Some(TokenKind::Drop)
    } else if is_word(text, b"create") {
        Some(TokenKind::Create)
    } else if is_word(text, b"add") {
        Some(TokenKind::Add)
    } else if is_word(text, b"move") {
        Some(TokenKind::Move)
    } else if is_word(text, b"copy") {
        Some(TokenKind::Copy)
    } else if is_word(text, b"with") {
        Some(TokenKind::With)
    } else {
        directive(text)
    }
}

fn word(updates: bool, text: &[u8]) -> Option<TokenKind>
    ensures { result ≡ spec.word updates text.now }
{
    if is_text(text, b"a") {
        Some(TokenKind::A)
    } else if is_text(text, b"true") {
        Some(TokenKind::True)
    } else if is_text(text, b"false") {
        Some(TokenKind::False)
    } else if updates {
        update_word(text)
    } else {
        directive(text)
    }
}

/// The kind of a token of these bytes. A word that is none of the grammar's has none, nor have
/// three quotes whose string does not end.
#[inline(always)]
pub fn token_kind(updates: bool, terminal: Terminal, text: &[u8]) -> Option<TokenKind>
    ensures { result ≡ spec.token_kind updates terminal text.now }
{
    match terminal {
        Terminal::IriRef => Some(TokenKind::IriRef),
        Terminal::PnameNs => Some(TokenKind::PnameNs),
        Terminal::PnameLn => Some(TokenKind::PnameLn),
        Terminal::BlankNodeLabel => Some(TokenKind::BlankNodeLabel),
        Terminal::LangTag => Some(TokenKind::LangTag),
        Terminal::Integer => Some(TokenKind::Integer),
        Terminal::Decimal => Some(TokenKind::Decimal),
        Terminal::Double => Some(TokenKind::Double),
        Terminal::StringLiteralQuote => Some(TokenKind::StringLiteralQuote),
        Terminal::StringLiteralSingleQuote => Some(TokenKind::StringLiteralSingleQuote),
        Terminal::StringLiteralLongQuote => Some(TokenKind::StringLiteralLongQuote),
        Terminal::StringLiteralLongSingleQuote => Some(TokenKind::StringLiteralLongSingleQuote),
        Terminal::Var => Some(TokenKind::Var),
        Terminal::Word => word(updates, text),
        Terminal::Opening => None,
        Terminal::Dot => Some(TokenKind::Dot),
        Terminal::Semicolon => Some(TokenKind::Semicolon),
        Terminal::Comma => Some(TokenKind::Comma),
        Terminal::OpenBracket => Some(TokenKind::OpenBracket),
        Terminal::CloseBracket => Some(TokenKind::CloseBracket),
        Terminal::OpenParenthesis => Some(TokenKind::OpenParenthesis),
        Terminal::CloseParenthesis => Some(TokenKind::CloseParenthesis),
        Terminal::Carets => Some(TokenKind::Carets),
        Terminal::OpenBrace => Some(TokenKind::OpenBrace),
        Terminal::CloseBrace => Some(TokenKind::CloseBrace),
    }
}

/// Whether the kind leaves the token's text open.
pub fn has_text(kind: TokenKind) -> bool
    ensures { result ≡ spec.has_text kind }
{
    match kind {
        TokenKind::IriRef
        | TokenKind::PnameNs
        | TokenKind::PnameLn
        | TokenKind::BlankNodeLabel
        | TokenKind::LangTag
        | TokenKind::Integer
        | TokenKind::Decimal
        | TokenKind::Double
        | TokenKind::StringLiteralQuote
        | TokenKind::StringLiteralSingleQuote
        | TokenKind::StringLiteralLongQuote
        | TokenKind::StringLiteralLongSingleQuote
        | TokenKind::Var => true,
        _ => false,
    }
}
