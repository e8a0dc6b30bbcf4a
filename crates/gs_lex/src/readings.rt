//! The reading of a text, step by step.
ghost use Rattle.std.specs.Prelude.{◌≡◌, ◌≤◌, ◌<◌, ◌+◌, ◌^◌, length, drop, IfOk, OnOk};
ghost use Rattle.gs_lex.specs.Readings.{AddsToken, GrowsByTokens, IsWithin, ReadsTo, StepFollows, StepMoves, passed_of, found_of};

use crate::kinds::TokenKind;
use crate::steps::{Reading, Step, next_step};
use crate::tokens::{Token, later_place, token_at};
use gs_automaton::Scan;
use std::alloc::{AllocError, Global};

/// Why a reading stops.
#[derive(Clone, Copy, Debug, PartialEq, Eq)]
pub enum Halt {
    Fault,
    End,
    Wait,
}

/// After so many bytes that are no part of a token.
#[inline(always)]
pub fn passed(at: Reading, count: usize, in_comment: bool) -> Reading
    requires { at.cut + count < 2 ^ 64 }
    ensures { result ≡ passed_of at count in_comment }
{
    Reading {
        updates: at.updates,
        in_comment,
        cut: at.cut + count,
        place: later_place(at.place, count),
        last: at.last,
        barren: 0,
        scan: Scan::new(at.updates),
    }
}

/// After a token of so many bytes, where so many more are barren.
#[inline(always)]
pub fn found(at: Reading, count: usize, barren: usize) -> Reading
    requires { at.cut + count < 2 ^ 64 }
    ensures { result ≡ found_of at count barren }
{
    let end = later_place(at.place, count);
    Reading {
        updates: at.updates,
        in_comment: false,
        cut: at.cut + count,
        place: end,
        last: end,
        barren,
        scan: Scan::new(at.updates),
    }
}

/// The next step, from the cut on.
#[inline(always)]
pub fn step_at(text: &[u8], at: Reading, is_end: bool) -> Step
    requires { IsWithin at text.now }
    ensures moves { StepMoves at (drop at.cut text.now) result }
    ensures fits { StepFollows is_end at (drop at.cut text.now) result }
{
    next_step(&text[at.cut..], at, is_end)
}

/// Adds the token of so many bytes from the cut on.
fn add_token(
    alloc: Global,
    text: &[u8],
    at: Reading,
    kind: TokenKind,
    count: usize,
    tokens: &mut Vec<Token>,
) -> Result<(), AllocError>
    requires { at.cut + count ≤ length text.now }
    ensures ok { OnOk result (AddsToken text.now at kind count tokens.old.items tokens.new.items) }
    ensures kept { GrowsByTokens tokens.old.items tokens.new.items }
{
    let rest = &text[at.cut..];
    let token = token_at(alloc, kind, at.place, &rest[..count])?;
    tokens.push(token)?;
    Ok(())
}

/// Adds the tokens of a text from the cut on, as far as no more text can change them, or, at the
/// end of the text, all.
pub fn read(
    alloc: Global,
    text: &[u8],
    from: Reading,
    is_end: bool,
    tokens: &mut Vec<Token>,
) -> Result<(Reading, Halt), AllocError>
    requires { IsWithin from text.now }
    ensures ok { IfOk result (ReadsTo is_end text.now from tokens.old.items tokens.new.items) }
    ensures kept { GrowsByTokens tokens.old.items tokens.new.items }
{
    let mut at = from;
    'steps: loop {
        match step_at(text, at, is_end) {
            Step::Passed(count, in_comment) => {
                at = passed(at, count, in_comment);
            }
            Step::Found(kind, count, barren) => {
                add_token(alloc, text, at, kind, count, tokens)?;
                at = found(at, count, barren);
            }
            Step::Fault => return Ok((at, Halt::Fault)),
            Step::End => return Ok((at, Halt::End)),
            Step::Wait(scan) => {
                at.scan = scan;
                return Ok((at, Halt::Wait));
            }
        }
    }
}
