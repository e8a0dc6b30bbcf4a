//! One step of reading a text.
ghost use Rattle.std.specs.Prelude.{◌≡◌, ◌≤◌, length, true, false};
ghost use Rattle.gs_lex.specs.Readings.{BeginsToken, StepFits, StepFollows, StepMoves};
ghost use Rattle.gs_automaton.specs.Scans.{IsBarrenAfter};

use crate::kinds::TokenKind;
use crate::plains::plain_token;
use crate::runs::{comment_run, is_space, space_run};
use crate::words::token_kind;
use gs_automaton::{Scan, Symbol, Terminal, front_at, is_line_end, read_on};

/// Where the reading of a text stands.
#[derive(Clone, Copy, Debug)]
pub struct Reading {
    /// Whether the tokens of updates are read too.
    pub updates: bool,
    pub in_comment: bool,
    /// How many bytes of the text at hand are cut into tokens.
    pub cut: usize,
    /// The place of that cut in the whole text.
    pub place: u64,
    /// The place where the last token ends.
    pub last: u64,
    /// How many bytes after the cut were read in vain by the scan of a token that ends before it:
    /// no prefix ends there, nor does one go on from there.
    pub barren: usize,
    /// How far the next token is read.
    pub scan: Scan,
}

/// What stands next in a text.
pub enum Step {
    /// So many bytes that are no part of a token, and whether a comment goes on after them.
    Passed(usize, bool),
    /// A token of so many bytes, and how many bytes after it are barren.
    Found(TokenKind, usize, usize),
    Fault,
    /// Nothing, at the end of the whole text.
    End,
    /// A prefix of a token, or of a character.
    Wait(Scan),
}

/// A step in a comment.
fn comment_step(rest: &[u8], at: Reading, is_end: bool) -> Step
    requires { at.in_comment ≡ true }
    ensures moves { StepMoves at rest.now result }
    ensures fits { StepFits is_end at rest.now result }
{
    let plain = comment_run(rest, 0);
    if plain > 0 {
        return Step::Passed(plain, true);
    }
    match front_at(rest, 0) {
        Symbol::Character(c, size) => {
            if is_line_end(c) {
                Step::Passed(0, false)
            } else {
                Step::Passed(size, true)
            }
        }
        Symbol::Bad => Step::Fault,
        Symbol::Short => {
            if !is_end {
                Step::Wait(Scan::new(at.updates))
            } else if rest.len() == 0 {
                Step::Passed(0, false)
            } else {
                Step::Fault
            }
        }
    }
}

/// How many bytes are barren after the longest token that a scan has found, where so many were at
/// its start. After a word that is no prefix, so are all that were read.
#[inline(always)]
fn barren_after(barren: usize, scan: Scan, terminal: Terminal) -> usize
    requires { scan.best_len ≤ scan.len }
    ensures { IsBarrenAfter barren scan terminal result }
{
    match terminal {
        Terminal::Word => (scan.len - scan.best_len).max(barren.saturating_sub(scan.best_len)),
        _ => barren.saturating_sub(scan.best_len),
    }
}

/// A step to a token's end.
#[inline(always)]
fn token_step(rest: &[u8], at: Reading, is_end: bool) -> Step
    requires within { at.scan.len ≤ length rest.now }
    requires best_within { at.scan.best_len ≤ at.scan.len }
    requires between { at.in_comment ≡ false }
    requires begins { BeginsToken rest.now }
    ensures moves { StepMoves at rest.now result }
    ensures fits { StepFollows is_end at rest.now result }
{
    if at.scan.len == 0 {
        if let Some((kind, count)) = plain_token(rest, at.updates) {
            return Step::Found(kind, count, 0);
        }
    }
    token_far(rest, at, is_end)
}

/// A step to the end of a token, whichever it is.
#[inline(always)]
fn token_far(rest: &[u8], at: Reading, is_end: bool) -> Step
    requires within { at.scan.len ≤ length rest.now }
    requires best_within { at.scan.best_len ≤ at.scan.len }
    requires between { at.in_comment ≡ false }
    requires begins { BeginsToken rest.now }
    ensures moves { StepMoves at rest.now result }
    ensures fits { StepFollows is_end at rest.now result }
{
    let (scan, is_stuck) = read_on(rest, at.scan, at.barren);
    if !is_stuck && !is_end {
        return Step::Wait(scan);
    }
    if scan.best_len == 0 {
        return Step::Fault;
    }
    match scan.best {
        None => Step::Fault,
        Some(terminal) => match token_kind(at.updates, terminal, &rest[..scan.best_len]) {
            Some(kind) => {
                let barren = barren_after(at.barren, scan, terminal);
                Step::Found(kind, scan.best_len, barren)
            }
            None => Step::Fault,
        },
    }
}

/// What stands next.
#[inline(always)]
pub fn next_step(rest: &[u8], at: Reading, is_end: bool) -> Step
    requires within { at.scan.len ≤ length rest.now }
    requires best_within { at.scan.best_len ≤ at.scan.len }
    ensures moves { StepMoves at rest.now result }
    ensures fits { StepFollows is_end at rest.now result }
{
    if at.in_comment {
        return comment_step(rest, at, is_end);
    }
    if rest.len() == 0 {
        return if is_end {
            Step::End
        } else {
            Step::Wait(at.scan)
        };
    }
    let byte = rest[0];
    if is_space(byte) {
        Step::Passed(space_run(rest, 1), false)
    } else if byte == b'#' {
        Step::Passed(1, true)
    } else {
        token_step(rest, at, is_end)
    }
}
