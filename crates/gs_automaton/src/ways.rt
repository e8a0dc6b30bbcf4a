//! The steps of reading a token straight on, over a byte of ASCII at a time.
ghost use Rattle.std.specs.Prelude.{◌≡◌, ◌≤◌, true};
ghost use Rattle.gs_automaton.specs.Classes.{is_alpha, is_digit, is_exponent};
ghost use Rattle.gs_automaton.specs.Fronts as spec;
ghost use Rattle.gs_automaton.specs.Fronts.{EndsAtStop, ScanGoesOn, GoesOver, IsLastToken, LeadsOn};
ghost use Rattle.gs_automaton.specs.Runs.{Stays};
ghost use Rattle.gs_automaton.specs.declared.states.State.TheVariants as at;

use crate::runs::{Run, run_end};
use crate::scans::Scan;
use crate::states::State;
use crate::terminals::Terminal;

/// `A` to `Z`, or `a` to `z`.
#[inline(always)]
pub fn is_letter(byte: u8) -> bool
    ensures { result ≡ is_alpha byte }
{
    matches!(byte, b'A'..=b'Z' | b'a'..=b'z')
}

/// `0` to `9`.
#[inline(always)]
pub fn is_numeral(byte: u8) -> bool
    ensures { result ≡ is_digit byte }
{
    byte.is_ascii_digit()
}

/// A letter, a digit or an underscore.
#[inline(always)]
pub fn is_plain_start(byte: u8) -> bool
    ensures { result ≡ spec.is_plain_start byte }
{
    is_letter(byte) || is_numeral(byte) || byte == b'_'
}

/// `e` or `E`.
#[inline(always)]
pub fn is_exponent_mark(byte: u8) -> bool
    ensures { result ≡ is_exponent byte }
{
    byte == b'e' || byte == b'E'
}

/// White space, or the punctuation that stands after most names and numbers.
#[inline(always)]
fn is_stop(byte: u8) -> bool
    ensures { result ≡ spec.is_stop byte }
{
    matches!(
        byte,
        b' ' | b'\t' | b'\r' | b'\n' | b';' | b',' | b'(' | b')'
    )
}

/// Whether such a byte ends a token in that state.
#[inline(always)]
fn ends_at_stop(state: State) -> bool
    ensures { result ≡ true → EndsAtStop state }
{
    match state {
        State::Word => true,
        State::Namespace => true,
        State::Local => true,
        State::Label => true,
        State::Integer => true,
        State::IntegerFraction => true,
        State::ExponentDigits => true,
        State::Tag => true,
        State::Dot => true,
        _ => false,
    }
}

/// Whether a byte comes next by which no token goes on.
#[inline(always)]
pub fn stops(text: &[u8], scan: Scan) -> bool
    ensures { result ≡ true → IsLastToken text.now scan }
{
    if ends_at_stop(scan.state) {
        return scan.len < text.len() && is_stop(text[scan.len]);
    }
    false
}

/// Over a byte that leads to that state.
#[inline(always)]
pub fn over_byte(text: &[u8], from: Scan, state: State) -> Scan
    requires leads { LeadsOn text.now from state }
    requires best { from.best_len ≤ from.len }
    ensures went { ScanGoesOn text.now from result }
    ensures state { result.state ≡ state }
{
    from.onward(state, 1)
}

/// Over a byte that leads to that state, and over the plain characters after it.
#[inline(always)]
pub fn over_byte_and_run<R: Run>(text: &[u8], from: Scan, state: State) -> Scan
    requires leads { LeadsOn text.now from state }
    requires best { from.best_len ≤ from.len }
    requires stays { Stays R.plain state }
    ensures went { ScanGoesOn text.now from result }
    ensures state { result.state ≡ state }
{
    let scan = from.onward(state, 1);
    scan.stay(run_end::<R>(text, scan.len))
}

/// Over a byte that ends a token.
#[inline(always)]
pub fn ended(text: &[u8], from: Scan, terminal: Terminal) -> (Scan, bool)
    requires leads { LeadsOn text.now from (at.Ended terminal) }
    requires best { from.best_len ≤ from.len }
    ensures { GoesOver text.now from result }
{
    (over_byte(text, from, State::Ended(terminal)), true)
}

/// Over a byte after which a token may end.
#[inline(always)]
pub fn open_ended(text: &[u8], from: Scan, state: State) -> (Scan, bool)
    requires leads { LeadsOn text.now from state }
    requires best { from.best_len ≤ from.len }
    ensures { GoesOver text.now from result }
{
    let scan = over_byte(text, from, state);
    (scan, stops(text, scan))
}

/// Over a byte after which a token may end, and over the plain characters after it.
#[inline(always)]
pub fn open_ended_run<R: Run>(text: &[u8], from: Scan, state: State) -> (Scan, bool)
    requires leads { LeadsOn text.now from state }
    requires best { from.best_len ≤ from.len }
    requires stays { Stays R.plain state }
    ensures { GoesOver text.now from result }
{
    let scan = over_byte_and_run::<R>(text, from, state);
    (scan, stops(text, scan))
}
