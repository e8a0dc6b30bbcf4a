//! How far a token is read.
ghost use Rattle.std.specs.Prelude.{◌≡◌, false, ◌+◌, ◌≤◌, ◌<◌, ◌^◌, length, drop, MatchBool};
ghost use Rattle.gs_automaton.specs.Fronts.{ScanGoesOn};
ghost use Rattle.gs_automaton.specs.Runs.{Stays, stay_of};
ghost use Rattle.gs_automaton.specs.Symbols.{IsShort};
ghost use Rattle.gs_automaton.specs.Scans.{onward_of, fresh, StaysScanned, IsEnded, IsOpen, IsReadOn};

use crate::moves::state_after;
use crate::runs::{Digits, InIri, InName, InString, Letters, Run, run_end};
use crate::states::{State, Text, accepts, start_of};
use crate::symbols::{Symbol, front_at};
use crate::terminals::Terminal;

/// Where the automaton stands after so many bytes, and the longest token so far, by its bytes.
#[derive(Clone, Copy, Debug)]
pub struct Scan {
    pub state: State,
    pub len: usize,
    pub best: Option<Terminal>,
    pub best_len: usize,
}

impl Scan {
    /// At the start of a token.
    pub fn new(updates: bool) -> Self
        ensures { result ≡ fresh updates }
    {
        Scan {
            state: start_of(updates),
            len: 0,
            best: None,
            best_len: 0,
        }
    }

    /// After one character more, of so many bytes.
    #[inline(always)]
    pub fn onward(self, state: State, size: usize) -> Self
        requires { self.len + size < 2 ^ 64 }
        ensures { result ≡ onward_of self state size }
    {
        let len = self.len + size;
        match accepts(state) {
            Some(terminal) => Scan {
                state,
                len,
                best: Some(terminal),
                best_len: len,
            },
            None => Scan {
                state,
                len,
                best: self.best,
                best_len: self.best_len,
            },
        }
    }

    /// At a place after, in the same state.
    #[inline(always)]
    pub(crate) fn stay(self, len: usize) -> Self
        requires best { self.best_len ≤ self.len }
        requires onward { self.len ≤ len }
        ensures stayed { result ≡ stay_of self len }
        ensures len { result.len ≡ len }
        ensures best_within { result.best_len ≤ result.len }
    {
        if len == self.len {
            return self;
        }
        match accepts(self.state) {
            Some(terminal) => Scan {
                state: self.state,
                len,
                best: Some(terminal),
                best_len: len,
            },
            None => Scan {
                state: self.state,
                len,
                best: self.best,
                best_len: self.best_len,
            },
        }
    }
}

/// Over the plain characters of that class that come next, in a state that stays over them.
#[inline(always)]
fn over_run_of<R: Run>(text: &[u8], scan: Scan) -> Scan
    requires within { scan.len ≤ length text.now }
    requires best_within { scan.best_len ≤ scan.len }
    requires stays { Stays R.plain scan.state }
    ensures went { ScanGoesOn text.now scan result }
    ensures state { result.state ≡ scan.state }
{
    scan.stay(run_end::<R>(text, scan.len))
}

/// Over the plain characters that come next, where the state has such.
#[inline(always)]
fn over_run(text: &[u8], scan: Scan) -> Scan
    requires within { scan.len ≤ length text.now }
    requires best_within { scan.best_len ≤ scan.len }
    ensures { ScanGoesOn text.now scan result }
{
    match scan.state {
        State::Inside(Text::Iri) => over_run_of::<InIri>(text, scan),
        State::Inside(_) => over_run_of::<InString>(text, scan),
        State::Word | State::WordMore | State::Local | State::Label => {
            over_run_of::<InName>(text, scan)
        }
        State::Integer | State::IntegerFraction | State::ExponentDigits => {
            over_run_of::<Digits>(text, scan)
        }
        State::Tag => over_run_of::<Letters>(text, scan),
        _ => scan,
    }
}

/// Whether no character goes on with a token.
#[inline(always)]
fn is_ended(state: State) -> bool
    ensures { MatchBool result (IsEnded state) (IsOpen state) }
{
    match state {
        State::Ended(_) => true,
        _ => false,
    }
}

/// Reads on until it is known that no longer token comes (`true`), or until the text ends. After a
/// word's dots within the barren bytes it is known at once: an earlier scan went on from there in
/// vain.
#[inline(always)]
pub fn read_on(text: &[u8], from: Scan, barren: usize) -> (Scan, bool)
    requires within { from.len ≤ length text.now }
    requires best_within { from.best_len ≤ from.len }
    ensures within { result.0.len ≤ length text.now }
    ensures best_within { result.0.best_len ≤ result.0.len }
    ensures scanned { StaysScanned text.now from result.0 }
    ensures stuck { IsReadOn text.now from barren result }
    ensures open_ { result.1 ≡ false → IsShort (drop result.0.len text.now) × IsOpen result.0.state }
{
    let mut scan = from;
    while scan.len < text.len() {
        if scan.len <= barren && matches!(scan.state, State::WordDots) {
            return (scan, true);
        }
        match front_at(text, scan.len) {
            Symbol::Character(c, size) => match state_after(scan.state, c) {
                Some(state) => {
                    scan = over_run(text, scan.onward(state, size));
                }
                None => return (scan, true),
            },
            Symbol::Bad => return (scan, true),
            Symbol::Short => return (scan, is_ended(scan.state)),
        }
    }
    let is_done = is_ended(scan.state);
    (scan, is_done)
}
