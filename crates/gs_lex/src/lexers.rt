//! The lexer.
ghost use Rattle.std.specs.Prelude.{◌≡◌, ◌≤◌, [], drop, vec_len, IfOk, IfErr, OnOk, OnErr};
ghost use Rattle.gs_lex.specs.Readings.{GrowsByTokens, reading_at_start};

use crate::readings::{Halt, read};
use crate::steps::Reading;
use crate::tokens::Token;
use gs_automaton::Scan;
use gs_model::Refusal;
use std::alloc::{AllocError, Global};

/// Cuts a text that comes in any pieces into tokens. Of the text it holds what is not cut yet: the
/// prefix of one token. Its memory is that of the longest piece so far.
#[derive(Drop)]
pub struct Lexer {
    alloc: Global,
    held: Vec<u8>,
    at: Reading,
    is_closed: bool,
    ghost cut: { at.cut ≡ 0 },
    ghost scan: { at.scan.len ≤ vec_len held },
    ghost best: { at.scan.best_len ≤ at.scan.len },
}

/// At the start of a text.
pub fn first_reading(updates: bool) -> Reading
    ensures { result ≡ reading_at_start updates }
{
    Reading {
        updates,
        in_comment: false,
        cut: 0,
        place: 0,
        last: 0,
        barren: 0,
        scan: Scan::new(updates),
    }
}

/// The same place, with nothing held before it.
pub fn without_cut(at: Reading) -> Reading
    ensures { result ≡ record at { cut = 0 } }
{
    Reading {
        updates: at.updates,
        in_comment: at.in_comment,
        cut: 0,
        place: at.place,
        last: at.last,
        barren: at.barren,
        scan: at.scan,
    }
}

/// Drops so many bytes from the front. The memory stays, for the bytes that come next.
pub fn drop_front(held: &mut Vec<u8>, count: usize)
    requires { count ≤ vec_len held.old }
    ensures { held.new.items ≡ drop count held.old.items }
{
    if count == 0 {
        return;
    }
    let left = held.len() - count;
    held.copy_within(count.., 0);
    held.truncate(left);
}

impl Lexer {
    ghost use Rattle.gs_lex.specs.Lexers.{LeadsLexer, IsClosed, FeedReads, FeedFails, FinishReads, FinishFails, Leaves, CutsIfRead, IsUnchanged};

    /// A lexer at the start of a text, of the tokens of Turtle, or of SPARQL Update too. It takes
    /// no memory.
    pub fn new(alloc: Global, updates: bool) -> Lexer
        ensures { LeadsLexer updates result [] [] }
    {
        Lexer {
            alloc,
            held: Vec::new(alloc),
            at: first_reading(updates),
            is_closed: false,
        }
    }

    /// Cuts what is held.
    fn take(&mut self, tokens: &mut Vec<Token>) -> Result<Halt, AllocError>
        ensures ok { IfOk result (CutsIfRead self.old self.new tokens.old.items tokens.new.items) }
        ensures err { OnErr result (IsUnchanged self.old self.new) }
        ensures closed { self.new.is_closed ≡ self.old.is_closed }
        ensures kept { GrowsByTokens tokens.old.items tokens.new.items }
    {
        let (at, halt) = read(self.alloc, &self.held, self.at, false, tokens)?;
        drop_front(&mut self.held, at.cut);
        self.at = without_cut(at);
        Ok(halt)
    }

    /// Reads the next piece, and adds the tokens that no more text can change. Where the text has a
    /// fault, the tokens before it are added, and every later call answers `Closed`. Linear in the
    /// piece and in what was held before it, which is read again only where a token ends in it.
    pub fn feed(&mut self, piece: &[u8], tokens: &mut Vec<Token>) -> Result<(), Refusal>
        ensures ok { FeedReads self.old self.new piece.now tokens.old.items tokens.new.items result }
        ensures fault { FeedFails self.old piece.now tokens.old.items tokens.new.items result }
        ensures err { IfErr result (Leaves self.old self.new tokens.old.items tokens.new.items) }
        ensures closed { IsClosed self.old → result ≡ Err Refusal.Closed }
    {
        if self.is_closed {
            return Err(Refusal::Closed);
        }
        let had = self.held.len();
        let count = tokens.len();
        self.held.extend_from_slice(piece)?;
        match self.take(tokens) {
            Ok(halt) => {
                if halt == Halt::Fault {
                    self.is_closed = true;
                    return Err(Refusal::Syntax(self.at.last));
                }
                Ok(())
            }
            Err(_error) => {
                self.held.truncate(had);
                tokens.truncate(count);
                Err(Refusal::NoMemory)
            }
        }
    }

    /// Ends the text, and adds its last tokens. The lexer then stands at the start of another
    /// text.
    pub fn finish(&mut self, tokens: &mut Vec<Token>) -> Result<(), Refusal>
        ensures ok { FinishReads self.old self.new tokens.old.items tokens.new.items result }
        ensures fault { FinishFails self.old tokens.old.items tokens.new.items result }
        ensures err { IfErr result (Leaves self.old self.new tokens.old.items tokens.new.items) }
        ensures closed { IsClosed self.old → result ≡ Err Refusal.Closed }
    {
        if self.is_closed {
            return Err(Refusal::Closed);
        }
        let count = tokens.len();
        match read(self.alloc, &self.held, self.at, true, tokens) {
            Ok((at, halt)) => {
                if halt == Halt::Fault {
                    self.is_closed = true;
                    return Err(Refusal::Syntax(at.last));
                }
                let updates = self.at.updates;
                self.at = first_reading(updates);
                self.held.clear();
                Ok(())
            }
            Err(_error) => {
                tokens.truncate(count);
                Err(Refusal::NoMemory)
            }
        }
    }
}
