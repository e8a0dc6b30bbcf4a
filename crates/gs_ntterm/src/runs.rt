//! Classes of bytes that change nothing but a token's text, and how many of one stand at the front.
ghost use Rattle.std.specs.Prelude.{◌≡◌, ◌+◌, ◌≤◌, ℕ, Bool, true, length, take, drop, map, ◌<◌, false, get_or};
ghost use Rattle.std.specs.List.{list_all, prefix_len};
ghost use Rattle.std.specs.Simd.Lanes.{mask_l};
ghost use Rattle.gs_ntterm.specs.Runs.{runs_in_iri, runs_in_string, runs_in_label, runs_in_comment, outside};
ghost use Rattle.gs_ntterm.specs.Classes.{is_space as is_space_of};

use crate::classes::is_space;
use gs_chars::is_pn_chars;
use std::simd::prelude::*;

/// A class of bytes. The test of one stands in the loop of `run_end`.
pub trait Class {
    ghost class: { ℕ → Bool };

    fn has(b: u8) -> bool
        ensures { result ≡ class b };
}

/// A class whose bytes are tested sixteen at a time.
pub trait Wide: Class {
    /// Which bytes are not of the class, the first in the lowest bit.
    fn stops(v: u8x16) -> u64
        ensures { result ≡ mask_l (map (outside Self.class) v) };
}

/// Bytes of an IRI's text. Those above `z` end a run, so one upper bound tests them.
pub struct InIri;

impl Class for InIri {
    ghost class = { runs_in_iri };

    #[inline]
    fn has(b: u8) -> bool {
        b > 32 && b < 123 && !matches!(b, b'"' | b'<' | b'>' | b'\\' | b'^' | b'`')
    }
}

impl Wide for InIri {
    #[inline(always)]
    fn stops(v: u8x16) -> u64 {
        (v.simd_lt(u8x16::splat(33))
            | v.simd_ge(u8x16::splat(123))
            | v.simd_eq(u8x16::splat(b'"'))
            | v.simd_eq(u8x16::splat(b'<'))
            | v.simd_eq(u8x16::splat(b'>'))
            | v.simd_eq(u8x16::splat(b'\\'))
            | v.simd_eq(u8x16::splat(b'^'))
            | v.simd_eq(u8x16::splat(b'`'))).to_bitmask()
    }
}

/// Bytes of a string's text.
pub struct InString;

impl Class for InString {
    ghost class = { runs_in_string };

    #[inline]
    fn has(b: u8) -> bool {
        b < 128 && !matches!(b, b'"' | b'\\' | b'\n' | b'\r')
    }
}

impl Wide for InString {
    #[inline(always)]
    fn stops(v: u8x16) -> u64 {
        (v.simd_ge(u8x16::splat(128))
            | v.simd_eq(u8x16::splat(b'"'))
            | v.simd_eq(u8x16::splat(b'\\'))
            | v.simd_eq(u8x16::splat(b'\n'))
            | v.simd_eq(u8x16::splat(b'\r'))).to_bitmask()
    }
}

/// Bytes of a label, without the dot.
pub struct InLabel;

impl Class for InLabel {
    ghost class = { runs_in_label };

    #[inline]
    fn has(b: u8) -> bool {
        b < 128 && (is_pn_chars(char::from(b)) || b == b':')
    }
}

/// Bytes of a comment.
pub struct InComment;

impl Class for InComment {
    ghost class = { runs_in_comment };

    #[inline]
    fn has(b: u8) -> bool {
        b < 128 && !matches!(b, b'\n' | b'\r')
    }
}

impl Wide for InComment {
    #[inline(always)]
    fn stops(v: u8x16) -> u64 {
        (v.simd_ge(u8x16::splat(128))
            | v.simd_eq(u8x16::splat(b'\n'))
            | v.simd_eq(u8x16::splat(b'\r'))).to_bitmask()
    }
}

/// Blanks between two tokens.
pub struct Between;

impl Class for Between {
    ghost class = { is_space_of };

    #[inline]
    fn has(b: u8) -> bool {
        is_space(u32::from(b))
    }
}

/// The end of the run of a class from `from` on, byte by byte.
#[inline]
fn run_end<C: Class>(bytes: &[u8], from: usize) -> usize
    requires { from ≤ length bytes.now }
    ensures { result ≡ from + prefix_len C.class (drop from bytes.now) }
{
    let mut n = from;
    while n < bytes.len() && C::has(bytes[n]) {
        n += 1;
    }
    n
}

/// How many bytes of a class stand at the front: as many as there are. For runs of a few bytes.
#[inline]
pub fn short_run_len<C: Class>(bytes: &[u8]) -> usize
    ensures bound { result ≤ length bytes.now }
    ensures all { list_all C.class (take result bytes.now) ≡ true }
    ensures longest { result < length bytes.now → C.class (get_or bytes.now result 0) ≡ false }
{
    run_end::<C>(bytes, 0)
}

/// Which of sixteen bytes are not of a class, the first in the lowest bit.
#[inline(always)]
fn outside_bits<C: Wide>(v: u8x16) -> u64
    ensures { result ≡ mask_l (map (outside C.class) v) }
{
    C::stops(v)
}

/// The end of the run at the front, sixteen bytes at a time, and then the last bytes one by one.
#[inline]
fn wide_run_end<C: Wide>(bytes: &[u8]) -> usize
    ensures { result ≡ prefix_len C.class bytes.now }
{
    let mut n = 0;
    while bytes.len() - n >= 16 {
        let found = outside_bits::<C>(u8x16::from_slice(&bytes[n..]));
        if found != 0 {
            return n + found.trailing_zeros() as usize;
        }
        n += 16;
    }
    run_end::<C>(bytes, n)
}

/// How many bytes of a class stand at the front: as many as there are.
#[inline]
pub fn run_len<C: Wide>(bytes: &[u8]) -> usize
    ensures bound { result ≤ length bytes.now }
    ensures all { list_all C.class (take result bytes.now) ≡ true }
    ensures longest { result < length bytes.now → C.class (get_or bytes.now result 0) ≡ false }
{
    wide_run_end::<C>(bytes)
}
