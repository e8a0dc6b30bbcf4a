//! The condition of a write, by the field If-Store-Commit.
ghost use Rattle.std.specs.Prelude.{◌≡◌, ◌∷◌, [], true, codes};
ghost use Rattle.std.specs.Str.Parse.{digits_value};
ghost use Rattle.gs_http.specs.Fields.{kept_under};
ghost use Rattle.gs_http.specs.Conditions.{is_commit_number, since_of};

use crate::framing::{is_number, number};
use crate::values::{Only, one_value};
use http_header::HeaderMap;

/// The most digits of the number of a commit.
const MAX_DIGITS: usize = 18;

/// The condition of a write.
#[derive(Clone, Copy, Debug, PartialEq)]
pub enum Since {
    /// There is none.
    Absent,
    /// The graph was not written after this commit.
    Commit(u64),
    /// A value that is not of 1 to 18 digits, or several.
    Malformed,
}

/// Whether these are 1 to 18 digits.
fn is_commit_number(value: &[u8]) -> bool
    ensures { result ≡ is_commit_number value.now }
{
    is_number(value) && value.len() <= MAX_DIGITS
}

/// The number of these digits, which a `u64` has.
fn commit_number(value: &[u8]) -> u64
    requires { is_commit_number value.now ≡ true }
    ensures { result ≡ digits_value 10 value.now }
{
    number(value)
}

/// The condition, where the field stands once.
fn by_value(value: &[u8]) -> Since
    ensures { result ≡ since_of (value.now ∷ []) }
{
    if is_commit_number(value) {
        Since::Commit(commit_number(value))
    } else {
        Since::Malformed
    }
}

/// The condition of a write.
pub fn read_since(kept: &HeaderMap<&[u8]>) -> Since
    ensures { result ≡ since_of (kept_under kept.now (codes "if-store-commit")) }
{
    match one_value(kept, "if-store-commit") {
        Only::Absent => Since::Absent,
        Only::One(value) => by_value(value),
        Only::Several => Since::Malformed,
    }
}
