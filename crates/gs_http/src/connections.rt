//! What the fields say of the host and of the connection.
ghost use Rattle.std.specs.Prelude.{◌≡◌};
ghost use Rattle.gs_http.specs.Fields.{kept_under};
ghost use Rattle.gs_http.specs.Connections.{has_element, closes, expects_continue, has_one_host};

use crate::trimming::{is_same_word, trim};
use crate::values::{Only, one_value};
use http_header::HeaderMap;

/// Whether there is exactly one Host. Its value is not tested.
pub fn has_one_host(kept: &HeaderMap<&[u8]>) -> bool
    ensures { result ≡ has_one_host (kept_under kept.now) }
{
    matches!(one_value(kept, "host"), Only::One(_))
}

/// Whether an element of a list is the word.
fn lists(value: &[u8], word: &[u8]) -> bool
    ensures { result ≡ has_element word.now value.now }
{
    value
        .split(|b| *b == b',')
        .any(|element| is_same_word(trim(element), word))
}

/// Whether a Connection field lists `close`.
pub fn closes(kept: &HeaderMap<&[u8]>) -> bool
    ensures { result ≡ closes (kept_under kept.now) }
{
    let mut values = kept.get_all("connection").iter();
    while let Some(value) = values.next() {
        if lists(value, b"close") {
            return true;
        }
    }
    false
}

/// Whether an Expect field is `100-continue`.
pub fn expects_continue(kept: &HeaderMap<&[u8]>) -> bool
    ensures { result ≡ expects_continue (kept_under kept.now) }
{
    let mut values = kept.get_all("expect").iter();
    while let Some(value) = values.next() {
        if is_same_word(value, b"100-continue") {
            return true;
        }
    }
    false
}
