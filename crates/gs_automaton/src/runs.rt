//! Runs of plain characters, over which the automaton stays where it is.
ghost use Rattle.std.specs.Prelude.{◌≡◌, ◌≤◌, ◌<◌, ℕ, Bool, false, get_or, length};
ghost use Rattle.gs_automaton.specs.Classes as class;
ghost use Rattle.gs_automaton.specs.Runs as spec;
ghost use Rattle.gs_automaton.specs.Runs.{AllFrom};

/// Of each byte the runs that it may stand in: 1 of a name, 2 of an IRI, 4 of a string.
const RUNS: [u8; 256] = [
    4, 4, 4, 4, 4, 4, 4, 4, 4, 4, 0, 4, 4, 0, 4, 4, 4, 4, 4, 4, 4, 4, 4, 4, 4, 4, 4, 4, 4, 4, 4, 4,
    4, 6, 0, 6, 6, 6, 6, 2, 6, 6, 6, 6, 6, 7, 6, 6, 7, 7, 7, 7, 7, 7, 7, 7, 7, 7, 6, 6, 4, 6, 4, 6,
    6, 7, 7, 7, 7, 7, 7, 7, 7, 7, 7, 7, 7, 7, 7, 7, 7, 7, 7, 7, 7, 7, 7, 7, 7, 7, 7, 6, 0, 6, 4, 7,
    4, 7, 7, 7, 7, 7, 7, 7, 7, 7, 7, 7, 7, 7, 7, 7, 7, 7, 7, 7, 7, 7, 7, 7, 7, 7, 7, 4, 4, 4, 6, 6,
    0, 0, 0, 0, 0, 0, 0, 0, 0, 0, 0, 0, 0, 0, 0, 0, 0, 0, 0, 0, 0, 0, 0, 0, 0, 0, 0, 0, 0, 0, 0, 0,
    0, 0, 0, 0, 0, 0, 0, 0, 0, 0, 0, 0, 0, 0, 0, 0, 0, 0, 0, 0, 0, 0, 0, 0, 0, 0, 0, 0, 0, 0, 0, 0,
    0, 0, 0, 0, 0, 0, 0, 0, 0, 0, 0, 0, 0, 0, 0, 0, 0, 0, 0, 0, 0, 0, 0, 0, 0, 0, 0, 0, 0, 0, 0, 0,
    0, 0, 0, 0, 0, 0, 0, 0, 0, 0, 0, 0, 0, 0, 0, 0, 0, 0, 0, 0, 0, 0, 0, 0, 0, 0, 0, 0, 0, 0, 0, 0,
];

#[inline(always)]
fn is_plain_name(byte: u8) -> bool
    ensures { result ≡ spec.plain_name byte }
{
    RUNS[usize::from(byte)] & 1 != 0
}

#[inline(always)]
fn is_plain_iri(byte: u8) -> bool
    ensures { result ≡ spec.plain_iri byte }
{
    RUNS[usize::from(byte)] & 2 != 0
}

#[inline(always)]
pub fn is_plain_string(byte: u8) -> bool
    ensures { result ≡ spec.plain_string byte }
{
    RUNS[usize::from(byte)] & 4 != 0
}

/// A class of plain characters: bytes of ASCII over which the automaton stays in some states.
pub trait Run {
    ghost plain: { ℕ → Bool };

    fn has(byte: u8) -> bool
        ensures { result ≡ plain byte };
}

/// Plain characters of an IRI.
pub struct InIri;

impl Run for InIri {
    ghost plain = { spec.plain_iri };

    #[inline(always)]
    fn has(byte: u8) -> bool {
        is_plain_iri(byte)
    }
}

/// Plain characters of a string.
pub struct InString;

impl Run for InString {
    ghost plain = { spec.plain_string };

    #[inline(always)]
    fn has(byte: u8) -> bool {
        is_plain_string(byte)
    }
}

/// Plain characters of a name.
pub struct InName;

impl Run for InName {
    ghost plain = { spec.plain_name };

    #[inline(always)]
    fn has(byte: u8) -> bool {
        is_plain_name(byte)
    }
}

/// Letters.
pub struct Letters;

impl Run for Letters {
    ghost plain = { class.is_alpha };

    #[inline(always)]
    fn has(byte: u8) -> bool {
        byte.is_ascii_alphabetic()
    }
}

/// Digits.
pub struct Digits;

impl Run for Digits {
    ghost plain = { class.is_digit };

    #[inline(always)]
    fn has(byte: u8) -> bool {
        byte.is_ascii_digit()
    }
}

/// Where a run of a class ends.
#[inline(always)]
pub fn run_end<R: Run>(text: &[u8], from: usize) -> usize
    requires { from ≤ length text.now }
    ensures after { from ≤ result }
    ensures within { result ≤ length text.now }
    ensures all { AllFrom R.plain text.now from result }
    ensures longest { result < length text.now → R.plain (get_or text.now result 0) ≡ false }
{
    for i in from..text.len() {
        if !R::has(text[i]) {
            return i;
        }
    }
    text.len()
}
