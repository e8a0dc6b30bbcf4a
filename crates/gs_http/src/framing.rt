//! How the body of a request is framed.
ghost use Rattle.std.specs.Prelude.{◌≡◌, ◌∷◌, [], true, codes};
ghost use Rattle.std.specs.List.{list_all};
ghost use Rattle.std.specs.Char.{is_ascii_digit};
ghost use Rattle.std.specs.Str.Parse.{digits_value};
ghost use Rattle.gs_http.specs.Fields.{kept_under};
ghost use Rattle.gs_http.specs.Framing.{framing_of, announces, is_number, capped, sized_framing, coded};

use crate::trimming::is_same_word;
use crate::values::{Only, one_value};
use http_header::HeaderMap;

/// How a body is framed.
#[derive(Clone, Copy, Debug, PartialEq)]
pub enum Framing {
    /// No body is announced.
    Nothing,
    /// So many bytes; 2^64 - 1 also stands for more.
    Bytes(u64),
    /// In chunks.
    Chunked,
    /// A Content-Length that is no number or stands twice, or beside a Transfer-Encoding.
    Malformed,
    /// Another coding than `chunked` alone.
    Unknown,
}

impl Framing {
    /// Whether a body is announced: in chunks, or of one byte at least.
    pub fn announces(self) -> bool
        ensures { result ≡ announces self }
    {
        match self {
            Framing::Chunked => true,
            Framing::Bytes(n) => 0 < n,
            _ => false,
        }
    }
}

fn all_digits(value: &[u8]) -> bool
    ensures { result ≡ list_all is_ascii_digit value.now }
{
    value.iter().all(|c| c.is_ascii_digit())
}

/// Whether these are digits, and one at least.
pub(crate) fn is_number(value: &[u8]) -> bool
    ensures { result ≡ is_number value.now }
{
    all_digits(value) && !value.is_empty()
}

/// The number of these digits, or the last one that a `u64` has.
pub(crate) fn number(value: &[u8]) -> u64
    requires { is_number value.now ≡ true }
    ensures { result ≡ capped (digits_value 10 value.now) }
{
    let mut n: u64 = 0;
    for c in value {
        n = n.saturating_mul(10).saturating_add((*c - b'0') as u64);
    }
    n
}

/// How a body is framed where there is no Transfer-Encoding.
fn by_size(kept: &HeaderMap<&[u8]>) -> Framing
    ensures { result ≡ sized_framing (kept_under kept.now (codes "content-length")) }
{
    match one_value(kept, "content-length") {
        Only::Absent => Framing::Nothing,
        Only::One(size) => {
            if is_number(size) {
                Framing::Bytes(number(size))
            } else {
                Framing::Malformed
            }
        }
        Only::Several => Framing::Malformed,
    }
}

/// The coding, where it is one alone.
fn by_coding(coding: &[u8]) -> Framing
    ensures { result ≡ coded (coding.now ∷ []) }
{
    if is_same_word(coding, b"chunked") {
        Framing::Chunked
    } else {
        Framing::Unknown
    }
}

/// How the body is framed, by Transfer-Encoding and Content-Length.
pub fn body_framing(kept: &HeaderMap<&[u8]>) -> Framing
    ensures { result ≡ framing_of (kept_under kept.now) }
{
    match one_value(kept, "transfer-encoding") {
        Only::Absent => by_size(kept),
        Only::One(coding) => match one_value(kept, "content-length") {
            Only::Absent => by_coding(coding),
            _ => Framing::Malformed,
        },
        Only::Several => match one_value(kept, "content-length") {
            Only::Absent => Framing::Unknown,
            _ => Framing::Malformed,
        },
    }
}
