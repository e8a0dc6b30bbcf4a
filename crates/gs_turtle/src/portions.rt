//! The tokens of a portion, and what a parser says after them.
ghost use Rattle.std.specs.Prelude.{◌≡◌, [], Err, OnOk, OnErr, IfOk, IfErr, IsOk, ℕ, List};
ghost use Rattle.gs_machine.specs.Machines.{Begins};
ghost use Rattle.gs_lex.specs.Tokens.{Lexeme};
ghost use Rattle.gs_lex.specs.Tokens as lexer;
ghost use Rattle.gs_body.specs.Bodies.{Whole};
ghost use Rattle.gs_turtle.specs.Documents.{ended_by};
ghost use Rattle.gs_turtle.specs.Portions.{TakesAll, ReportsAfter, refusal_of_fault, end_of};

use gs_lex::{Advance, PieceLexer};
use gs_model::{Fault, Refusal};
use gs_parse::Parser;
use gs_triple_lists::TripleList;
use std::alloc::AllocError;

/// Why no token comes next.
#[derive(Clone, Copy, Debug)]
pub enum Stop {
    /// All that is there was read: the rest comes with the next portion, or the text ends.
    Read,
    /// Something stands there that is no token.
    Fault,
}

/// Token by token: all that no more text can change, or, at the end of the text, all.
pub fn take_tokens(
    lexer: &mut PieceLexer,
    parser: &mut Parser,
    is_end: bool,
    triples: &mut TripleList,
) -> Result<Stop, AllocError>
    ensures ok { IfOk result (TakesAll is_end lexer.old lexer.new parser.old parser.new
        triples.old.items triples.new.items) }
    ensures err { OnErr result (Begins triples.new.items triples.old.items) }
{
    'tokens: loop {
        match lexer.advance(is_end) {
            Advance::Token => parser.step(lexer.token(), triples)?,
            Advance::Fault(_) => return Ok(Stop::Fault),
            Advance::Wait => return Ok(Stop::Read),
            Advance::End => return Ok(Stop::Read),
        }
    }
}

/// The refusal that reports a fault.
fn refusal(parser: &Parser, fault: Fault) -> Refusal
    ensures { result ≡ refusal_of_fault parser.now.last fault }
{
    match fault {
        Fault::Syntax => Refusal::Syntax(parser.last),
        Fault::TermTooLong => Refusal::TermTooLong,
    }
}

/// After tokens after which the text goes on.
pub fn go_on(parser: &Parser) -> Result<(), Refusal>
    ensures { IfErr result (λ e. (us : List Lexeme) → ReportsAfter parser.now.last e (end_of parser.now us)) }
{
    match parser.fault() {
        None => Ok(()),
        Some(fault) => Err(refusal(parser, fault)),
    }
}

/// What is reported of how a text ended.
fn outcome(parser: &Parser, end: Result<(), Fault>) -> Result<(), Refusal>
    ensures ok { OnOk end (IsOk result) }
    ensures fault { IfErr end (λ f. result ≡ Err (refusal_of_fault parser.now.last f)) }
{
    match end {
        Ok(()) => Ok(()),
        Err(fault) => Err(refusal(parser, fault)),
    }
}

/// After tokens after which the text ends.
pub fn conclude(parser: &Parser) -> Result<(), Refusal>
    ensures ok { OnOk result (end_of parser.now [] ≡ ([], Whole)) }
    ensures fault { IfErr result (λ e. ReportsAfter parser.now.last e (end_of parser.now [])) }
{
    let end = parser.end()?;
    outcome(parser, end)
}

/// After tokens after which stands something that is none: the first fault of all.
pub fn break_off(parser: &Parser) -> Refusal
    ensures { (n : ℕ) → ReportsAfter parser.now.last result
        (ended_by (lexer.AtFault n) (end_of parser.now [])) }
{
    match conclude(parser) {
        Ok(()) => Refusal::Syntax(parser.last),
        Err(refusal) => refusal,
    }
}
