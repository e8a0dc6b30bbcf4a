//! The lexer of a text that comes in pieces, token by token.
ghost use Rattle.std.specs.Prelude.{◌≡◌, ◌<◌, ◌^◌, false, [], OnOk};
ghost use Rattle.gs_lex.specs.Lexemes.{lexeme_of_borrowed};
ghost use Rattle.gs_lex.specs.Readings.{IsWithin};
ghost use Rattle.gs_lex.specs.Tokens.{place_after};
ghost use Rattle.gs_lex.specs.Standing.{IsSpanWithin, CutsAhead, TakesSome, lexeme_in};

use crate::kinds::TokenKind;
use crate::lexers::{drop_front, first_reading, without_cut};
use crate::plains::{Plain, plain_ahead};
use crate::readings::{found, passed, step_at};
use crate::steps::{Reading, Step};
use crate::tokens::{BorrowedToken, borrowed_at, later_place};
use std::alloc::{AllocError, Global};

/// What stands next in a text that comes in pieces.
#[derive(Clone, Copy, Debug, PartialEq, Eq)]
pub enum Advance {
    /// A token, which was cut.
    Token,
    /// No token that no more text can change.
    Wait,
    /// The end of the whole text.
    End,
    /// Something that is no token; the number of bytes up to the end of the last token, 0 where
    /// there is none.
    Fault(u64),
}

/// Where a token stands in the bytes at hand, and in the whole text.
#[derive(Clone, Copy, Debug)]
pub struct Span {
    pub kind: TokenKind,
    /// The number of bytes before it in the whole text.
    pub start: u64,
    /// The number of bytes at hand before it.
    pub from: usize,
    /// Its number of bytes.
    pub count: usize,
}

impl Span {
    /// Of no bytes.
    fn empty() -> Span
        ensures from { result.from ≡ 0 }
        ensures count { result.count ≡ 0 }
    {
        Span {
            kind: TokenKind::Dot,
            start: 0,
            from: 0,
            count: 0,
        }
    }
}

/// The places where a token begins and ends, after white space that begins at a place.
#[inline(always)]
fn places(place: u64, plain: Plain) -> (u64, u64)
    ensures fits { place < 2 ^ 64 }
    ensures start { result.0 ≡ place_after place plain.space }
    ensures end { result.1 ≡ place_after (place_after place plain.space) plain.count }
{
    let start = later_place(place, plain.space);
    (start, later_place(start, plain.count))
}

/// The token of a span.
#[inline(always)]
fn token_in(text: &[u8], span: Span) -> BorrowedToken<'_>
    requires { IsSpanWithin span text.now }
    ensures { lexeme_of_borrowed result ≡ lexeme_in text.now span }
{
    let rest = &text[span.from..];
    borrowed_at(span.kind, span.start, &rest[..span.count])
}

/// Over white space and comments, and over the token that comes next. Where none does, the span
/// stays.
#[inline(never)]
fn advance_in(text: &[u8], from: Reading, last: Span, is_end: bool) -> (Reading, Span, Advance)
    requires within { IsWithin from text.now }
    requires span { IsSpanWithin last text.now }
    ensures within { IsWithin result.0 text.now }
    ensures span { IsSpanWithin result.1 text.now }
    ensures cut { CutsAhead is_end text.now from result.0 result.1 result.2 }
    ensures on { TakesSome text.now from result.0 result.2 }
{
    let mut at = from;
    'steps: loop {
        match step_at(text, at, is_end) {
            Step::Passed(count, in_comment) => {
                at = passed(at, count, in_comment);
            }
            Step::Found(kind, count, barren) => {
                let span = Span {
                    kind,
                    start: at.place,
                    from: at.cut,
                    count,
                };
                return (found(at, count, barren), span, Advance::Token);
            }
            Step::Fault => return (at, last, Advance::Fault(at.last)),
            Step::End => return (at, last, Advance::End),
            Step::Wait(scan) => {
                at.scan = scan;
                return (at, last, Advance::Wait);
            }
        }
    }
}

/// Cuts a text that comes in any pieces into tokens, one after the other. Of the text it holds the
/// prefix of one token, and the last piece; of its tokens none but the last.
#[derive(Drop)]
pub struct PieceLexer {
    held: Vec<u8>,
    at: Reading,
    last: Span,
    ghost within: { IsWithin at held.items },
    ghost span: { IsSpanWithin last held.items },
}

impl PieceLexer {
    ghost use Rattle.std.specs.Prelude.{◌++◌, Bool, IfSome, OnErr};
    ghost use Rattle.gs_lex.specs.Pieces.{LeadsPieces, Holds, AdvancesPieces, Shortens, ComesPlain, held_bytes, left_in, token_of};

    /// A lexer at the start of a text, of the tokens of Turtle, or of SPARQL Update too. It takes
    /// no memory.
    pub fn new(alloc: Global, updates: bool) -> PieceLexer
        ensures { LeadsPieces false updates result [] [] }
    {
        PieceLexer {
            held: Vec::new(alloc),
            at: first_reading(updates),
            last: Span::empty(),
        }
    }

    /// Takes the next piece. Of what came before it drops what is cut. Where memory is refused no byte
    /// of the piece is taken.
    pub fn hold(&mut self, piece: &[u8]) -> Result<(), AllocError>
        ensures taken { OnOk result (Holds self.old self.new piece.now) }
        ensures held { OnOk result (held_bytes self.new ≡ left_in self.old ++ piece.now) }
        ensures refused { OnErr result (Holds self.old self.new []) }
    {
        drop_front(&mut self.held, self.at.cut);
        self.at = without_cut(self.at);
        self.last = Span::empty();
        self.held.extend_from_slice(piece)?;
        Ok(())
    }

    /// Goes over the next token, or says what stands in its place; the whole text ends with what is
    /// held, or it goes on. After anything but a token each later call with the same `is_end` answers
    /// the same, until a piece is taken. Linear in the bytes up to the token's end, and in those after
    /// them that a longer token might have had: what was read is read again only where one of two first
    /// tries, each straight on, settled nothing.
    #[inline(always)]
    pub fn advance(&mut self, is_end: bool) -> Advance
        ensures next { AdvancesPieces is_end self.old self.new result }
        ensures on { Shortens self.old self.new result }
    {
        if let Some(plain) = self.plain() {
            self.pass(plain);
            return Advance::Token;
        }
        self.advance_far(is_end)
    }

    /// The token that comes next, where it has not begun to be read, and is known at once.
    #[inline(always)]
    fn plain(&self) -> Option<Plain>
        ensures { IfSome result (ComesPlain self.now) }
    {
        if self.at.scan.len > 0 || self.at.in_comment {
            return None;
        }
        plain_ahead(&self.held[self.at.cut..], self.at.updates)
    }

    /// Over that token.
    #[inline(always)]
    fn pass(&mut self, plain: Plain)
        requires { ComesPlain self.old plain }
        ensures next { (is_end : Bool) → AdvancesPieces is_end self.old self.new Advance.Token }
        ensures on { Shortens self.old self.new Advance.Token }
    {
        let from = self.at.cut + plain.space;
        let (start, end) = places(self.at.place, plain);
        self.last = Span {
            kind: plain.kind,
            start,
            from,
            count: plain.count,
        };
        self.at.cut = from + plain.count;
        self.at.place = end;
        self.at.last = end;
        self.at.barren = 0;
    }

    /// Over the token that comes next, whichever it is.
    #[inline(always)]
    fn advance_far(&mut self, is_end: bool) -> Advance
        ensures next { AdvancesPieces is_end self.old self.new result }
        ensures on { Shortens self.old self.new result }
    {
        let (at, last, next) = advance_in(&self.held, self.at, self.last, is_end);
        self.at = at;
        self.last = last;
        next
    }

    /// The token that was cut last. It has no bytes before the first one, and after `hold`.
    #[inline(always)]
    pub fn token(&self) -> BorrowedToken<'_>
        ensures { lexeme_of_borrowed result ≡ token_of self.now }
    {
        token_in(&self.held, self.last)
    }
}
