//! Prefixes of numbers.
ghost use Rattle.std.specs.Prelude.{◌≤◌};
ghost use Rattle.gs_automaton.specs.Fronts.{GoesOver, LeadsOn};
ghost use Rattle.gs_automaton.specs.declared.states.State.TheVariants as at;

use crate::runs::Digits;
use crate::scans::Scan;
use crate::states::State;
use crate::ways::{
    is_exponent_mark, is_numeral, open_ended_run, over_byte, over_byte_and_run, stops,
};

/// Over the sign of an exponent, and over its digits.
#[inline(always)]
fn exponent_sign(text: &[u8], from: Scan) -> (Scan, bool)
    requires leads { LeadsOn text.now from at.ExponentSign }
    requires best { from.best_len ≤ from.len }
    ensures { GoesOver text.now from result }
{
    let scan = over_byte(text, from, State::ExponentSign);
    if scan.len < text.len() && is_numeral(text[scan.len]) {
        return open_ended_run::<Digits>(text, scan, State::ExponentDigits);
    }
    (scan, false)
}

/// Over the letter of an exponent, and over its digits.
#[inline(always)]
fn exponent(text: &[u8], from: Scan) -> (Scan, bool)
    requires leads { LeadsOn text.now from at.Exponent }
    requires best { from.best_len ≤ from.len }
    ensures { GoesOver text.now from result }
{
    let scan = over_byte(text, from, State::Exponent);
    if scan.len < text.len() && is_numeral(text[scan.len]) {
        return open_ended_run::<Digits>(text, scan, State::ExponentDigits);
    }
    if scan.len < text.len() && text[scan.len] == b'-' {
        return exponent_sign(text, scan);
    }
    (scan, false)
}

/// Over the digits of a fraction, and over an exponent.
#[inline(always)]
fn decimal(text: &[u8], from: Scan) -> (Scan, bool)
    requires leads { LeadsOn text.now from at.IntegerFraction }
    requires best { from.best_len ≤ from.len }
    ensures { GoesOver text.now from result }
{
    let scan = over_byte_and_run::<Digits>(text, from, State::IntegerFraction);
    if scan.len < text.len() && is_exponent_mark(text[scan.len]) {
        return exponent(text, scan);
    }
    (scan, stops(text, scan))
}

/// Over a dot after an integer, and over the number after it.
#[inline(always)]
fn fraction(text: &[u8], from: Scan) -> (Scan, bool)
    requires leads { LeadsOn text.now from at.IntegerDot }
    requires best { from.best_len ≤ from.len }
    ensures { GoesOver text.now from result }
{
    let scan = over_byte(text, from, State::IntegerDot);
    if scan.len < text.len() && is_numeral(text[scan.len]) {
        return decimal(text, scan);
    }
    (scan, false)
}

/// Over the digits of an integer, and over a fraction.
#[inline(always)]
pub fn number(text: &[u8], from: Scan) -> (Scan, bool)
    requires leads { LeadsOn text.now from at.Integer }
    requires best { from.best_len ≤ from.len }
    ensures { GoesOver text.now from result }
{
    let scan = over_byte_and_run::<Digits>(text, from, State::Integer);
    if scan.len < text.len() && text[scan.len] == b'.' {
        return fraction(text, scan);
    }
    (scan, stops(text, scan))
}

/// Over a sign, and over the number after it.
#[inline(always)]
pub fn sign(text: &[u8], from: Scan) -> (Scan, bool)
    requires leads { LeadsOn text.now from at.Sign }
    requires best { from.best_len ≤ from.len }
    ensures { GoesOver text.now from result }
{
    let scan = over_byte(text, from, State::Sign);
    if scan.len < text.len() && is_numeral(text[scan.len]) {
        return number(text, scan);
    }
    (scan, false)
}
