//! The reader.
ghost use Rattle.std.specs.Prelude.{◌≡◌, ◌≢◌, [], false, true, OnOk, OnErr, IfOk, IfErr, List, ℕ};
ghost use Rattle.gs_model.specs.Iris.{is_absolute};

use crate::portions::{Stop, break_off, conclude, go_on, take_tokens};
use gs_body::BodyReader;
use gs_lex::PieceLexer;
use gs_model::Refusal;
use gs_parse::Parser;
use gs_triple_lists::TripleList;
use std::alloc::{AllocError, Global};

/// The most bytes of a piece that a lexer takes at once, so that what it holds does not grow with
/// the piece.
const PORTION: usize = 4096;

/// Reads a body of Turtle (25 February 2014) that comes in any pieces.
#[derive(Drop)]
pub struct TurtleReader {
    request: u64,
    base: String,
    lexer: PieceLexer,
    parser: Parser,
    is_closed: bool,
}

impl TurtleReader {
    ghost use Rattle.gs_machine.specs.Machines.{Begins};
    ghost use Rattle.gs_body.specs.Feeding.{Finishes};
    ghost use Rattle.gs_turtle.specs.Documents.{meaning_by};
    ghost use Rattle.gs_turtle.specs.Readers.{IsLedBy, meaning_for, KeepsReader, Reads, IsRefused, IsRefusedAtEnd};

    /// A reader at the start of the body of the request of this number, under an absolute base. Its labels are
    /// hashed under the seed 0, which everybody knows; `seeded` takes another.
    pub fn new(alloc: Global, request: u64, base: &str) -> Result<TurtleReader, AllocError>
        requires { is_absolute base.now ≡ true }
        ensures fresh { IfOk result (λ r. ⟦<TurtleReader as BodyReader>⟧.Leads r [] []) }
        ensures unread { IfOk result (λ r. ⟦<TurtleReader as BodyReader>⟧.is_closed r ≡ false) }
        ensures meaning_of { IfOk result (λ r. (x : List ℕ)
            → ⟦<TurtleReader as BodyReader>⟧.meaning_of r x ≡ meaning_by base.now request x) }
    {
        TurtleReader::seeded(alloc, request, base, 0)
    }

    /// The same, by a seed that spreads the labels of its blank nodes (`gs_blank::Numbering::new`).
    pub fn seeded(
        alloc: Global,
        request: u64,
        base: &str,
        seed: u64,
    ) -> Result<TurtleReader, AllocError>
        requires { is_absolute base.now ≡ true }
        ensures fresh { IfOk result (λ r. ⟦<TurtleReader as BodyReader>⟧.Leads r [] []) }
        ensures unread { IfOk result (λ r. ⟦<TurtleReader as BodyReader>⟧.is_closed r ≡ false) }
        ensures meaning_of { IfOk result (λ r. (x : List ℕ)
            → ⟦<TurtleReader as BodyReader>⟧.meaning_of r x ≡ meaning_by base.now request x) }
    {
        Ok(TurtleReader {
            request,
            base: String::from_str(alloc, base)?,
            lexer: PieceLexer::new(alloc, false),
            parser: Parser::new(alloc, base, request, seed)?,
            is_closed: false,
        })
    }

    /// The next portion, and its fault.
    fn take_portion(&mut self, portion: &[u8], triples: &mut TripleList) -> Result<(), Refusal>
        ensures ok { OnOk result (Reads self.old self.new portion.now triples.old.items triples.new.items) }
        ensures err { OnErr result (Begins triples.new.items triples.old.items) }
        ensures fault { IfErr result (IsRefused self.old portion.now) }
        ensures reported { IfErr result (λ e. e ≢ Refusal.Closed) }
        ensures kept { KeepsReader self.old self.new }
    {
        self.lexer.hold(portion)?;
        match take_tokens(&mut self.lexer, &mut self.parser, false, triples)? {
            Stop::Read => go_on(&self.parser),
            Stop::Fault => Err(break_off(&self.parser)),
        }
    }

    /// The next piece, and its fault.
    fn take_piece(&mut self, piece: &[u8], triples: &mut TripleList) -> Result<(), Refusal>
        ensures ok { OnOk result (Reads self.old self.new piece.now triples.old.items triples.new.items) }
        ensures err { OnErr result (Begins triples.new.items triples.old.items) }
        ensures fault { IfErr result (IsRefused self.old piece.now) }
        ensures reported { IfErr result (λ e. e ≢ Refusal.Closed) }
        ensures kept { KeepsReader self.old self.new }
    {
        let mut rest = piece;
        while rest.len() > PORTION {
            let (portion, later) = rest.split_at(PORTION);
            self.take_portion(portion, triples)?;
            rest = later;
        }
        self.take_portion(rest, triples)
    }

    /// The text ends.
    fn take_end(&mut self, triples: &mut TripleList) -> Result<(), Refusal>
        ensures ok { OnOk result (Finishes meaning_for IsLedBy self.old triples.old.items triples.new.items) }
        ensures err { OnErr result (Begins triples.new.items triples.old.items) }
        ensures fault { IfErr result (IsRefusedAtEnd self.old) }
        ensures reported { IfErr result (λ e. e ≢ Refusal.Closed) }
    {
        match take_tokens(&mut self.lexer, &mut self.parser, true, triples)? {
            Stop::Read => conclude(&self.parser),
            Stop::Fault => Err(break_off(&self.parser)),
        }
    }
}

impl BodyReader for TurtleReader {
    ghost use Rattle.gs_turtle.specs.Readers.{IsLedBy, meaning_for};

    ghost meaning_of = { λ r x. meaning_for r x };

    ghost Leads = { λ r x ts. IsLedBy r x ts };

    ghost is_closed = { λ r. r.is_closed };

    fn feed(&mut self, piece: &[u8], triples: &mut TripleList) -> Result<(), Refusal> {
        if self.is_closed {
            return Err(Refusal::Closed);
        }
        let before = triples.len();
        match self.take_piece(piece, triples) {
            Ok(()) => Ok(()),
            Err(refusal) => {
                self.is_closed = true;
                triples.truncate(before);
                Err(refusal)
            }
        }
    }

    fn finish(&mut self, triples: &mut TripleList) -> Result<(), Refusal> {
        if self.is_closed {
            return Err(Refusal::Closed);
        }
        let before = triples.len();
        let ended = self.take_end(triples);
        self.is_closed = true;
        match ended {
            Ok(()) => Ok(()),
            Err(refusal) => {
                triples.truncate(before);
                Err(refusal)
            }
        }
    }
}
