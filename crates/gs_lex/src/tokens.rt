//! Tokens of a text, with bytes of their own or borrowed.
ghost use Rattle.std.specs.Prelude.{◌≡◌, IfOk, length};
ghost use Rattle.gs_lex.specs.Tokens.{lexeme_at, place_after};
ghost use Rattle.gs_lex.specs.Lexemes.{lexeme_of, lexeme_of_borrowed};

use crate::kinds::TokenKind;
use crate::words::has_text;
use std::alloc::{AllocError, Global};

/// A token, with its place in the whole text. A place is a number of bytes that stops at the
/// greatest `u64`.
#[derive(Debug, Drop)]
pub struct Token {
    pub kind: TokenKind,
    /// Its bytes with all delimiters and escapes, where the kind leaves them open; else nothing.
    pub text: Vec<u8>,
    /// The number of bytes before it.
    pub start: u64,
    /// The number of bytes up to its end.
    pub end: u64,
}

/// A token that borrows its bytes, with its place in the whole text. A place is a number of bytes
/// that stops at the greatest `u64`.
#[derive(Clone, Copy, Debug)]
pub struct BorrowedToken<'a> {
    pub kind: TokenKind,
    /// Its bytes with all delimiters and escapes, where the kind leaves them open; else nothing.
    pub text: &'a [u8],
    /// The number of bytes before it.
    pub start: u64,
    /// The number of bytes up to its end.
    pub end: u64,
}

impl Token {
    /// The same token, borrowed.
    #[inline]
    pub fn as_borrowed(&self) -> BorrowedToken<'_>
        ensures { lexeme_of_borrowed result ≡ lexeme_of self.now }
    {
        BorrowedToken {
            kind: self.kind,
            text: self.text.as_slice(),
            start: self.start,
            end: self.end,
        }
    }
}

/// The place after so many bytes more.
#[inline]
pub fn later_place(place: u64, count: usize) -> u64
    ensures { result ≡ place_after place count }
{
    place.saturating_add(count as u64)
}

/// The token of these bytes at a place. Punctuation and words take no memory.
pub fn token_at(
    alloc: Global,
    kind: TokenKind,
    start: u64,
    bytes: &[u8],
) -> Result<Token, AllocError>
    ensures { IfOk result (λ t. lexeme_of t ≡ lexeme_at kind start bytes.now) }
{
    let end = later_place(start, bytes.len());
    let text = if has_text(kind) {
        Vec::from_slice(alloc, bytes)?
    } else {
        Vec::new(alloc)
    };
    Ok(Token {
        kind,
        text,
        start,
        end,
    })
}

/// The token of these bytes at a place, borrowed.
#[inline]
pub fn borrowed_at(kind: TokenKind, start: u64, bytes: &[u8]) -> BorrowedToken<'_>
    ensures { lexeme_of_borrowed result ≡ lexeme_at kind start bytes.now }
{
    BorrowedToken {
        kind,
        text: if has_text(kind) { bytes } else { &[] },
        start,
        end: later_place(start, bytes.len()),
    }
}
