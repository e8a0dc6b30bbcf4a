//! The lexer of a text that is at hand whole.
ghost use Rattle.std.specs.Prelude.{◌≡◌, []};
ghost use Rattle.gs_lex.specs.Readings.{IsWithin};
ghost use Rattle.gs_lex.specs.Cutting.{CutsNext, TakesSome};

use crate::lexers::first_reading;
use crate::readings::{found, passed, step_at};
use crate::steps::{Reading, Step};
use crate::tokens::{BorrowedToken, borrowed_at};

/// The next token of a whole text, or why there is none.
#[derive(Clone, Copy, Debug)]
pub enum Next<'a> {
    Token(BorrowedToken<'a>),
    /// Something that is no token stands there; the number of bytes up to the end of the last token,
    /// 0 where there is none.
    Fault(u64),
    /// The end of the text.
    End,
}

/// Over white space and comments, and over the token that comes next.
#[inline(always)]
fn next_from(text: &[u8], from: Reading) -> (Reading, Next<'_>)
    requires { IsWithin from text.now }
    ensures within { IsWithin result.0 text.now }
    ensures cut { CutsNext text.now from result.0 result.1 }
    ensures on { TakesSome text.now from result.0 result.1 }
{
    let mut at = from;
    'steps: loop {
        match step_at(text, at, true) {
            Step::Passed(count, in_comment) => {
                at = passed(at, count, in_comment);
            }
            Step::Found(kind, count, barren) => {
                let rest = &text[at.cut..];
                let token = borrowed_at(kind, at.place, &rest[..count]);
                return (found(at, count, barren), Next::Token(token));
            }
            Step::Fault => return (at, Next::Fault(at.last)),
            Step::End => return (at, Next::End),
            // Never, as the proof shows: of a text that is at hand whole nothing is waited for.
            Step::Wait(_) => return (at, Next::End),
        }
    }
}

/// Cuts a text that is at hand whole into tokens, one after the other. It takes no memory: its
/// tokens borrow from the text.
#[derive(Debug, Drop)]
pub struct TextLexer<'a> {
    text: &'a [u8],
    at: Reading,
    ghost within: { IsWithin at text.now },
}

impl<'a> TextLexer<'a> {
    ghost use Rattle.gs_lex.specs.Texts.{lexed_text, Continues, HasGivenTokens};

    /// A lexer at the start of a text, of the tokens of Turtle, or of SPARQL Update too.
    pub fn new(text: &'a [u8], updates: bool) -> TextLexer<'a>
        ensures text { lexed_text result ≡ text.entry }
        ensures given { HasGivenTokens updates result [] }
    {
        TextLexer {
            text,
            at: first_reading(updates),
        }
    }

    /// The next token, or what stands in its place; after a fault or the end each later call answers
    /// the same. Linear in the bytes up to the token's end, and in those after them that a longer
    /// token might have had: but for a first try, straight on, what was read in vain is not read again.
    #[inline(always)]
    pub fn next_token(&mut self) -> Next<'a>
        ensures text { lexed_text self.new ≡ lexed_text self.old }
        ensures next { Continues self.old self.new result }
    {
        let (at, next) = next_from(self.text, self.at);
        self.at = at;
        next
    }
}
