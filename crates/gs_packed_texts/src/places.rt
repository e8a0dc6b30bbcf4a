//! How a text is packed after others.
ghost use Rattle.std.specs.Prelude.{◌≡◌, ◌≤◌, true, length, take, drop};
ghost use Rattle.gs_packed_texts.specs.Kept.{IsWindowIn, IsWindowPlace};

use crate::windows::{EARLIER, LAST, WHOLE, Window, bytes_at, is_text};

/// The most bytes that a text has of the anchor, so that its mark is below `WHOLE`.
const MAX_FRONT: usize = 252;

/// How a text is packed.
#[derive(Clone, Copy, Debug)]
pub struct Place {
    pub mark: u8,
    /// How many of its bytes are not its own.
    pub front: usize,
}

/// Whether both have the same eight bytes from a place on. They are compared at once.
fn is_same_group(a: &[u8], b: &[u8], at: usize) -> bool
    requires a { at ≤ length a.now }
    requires b { at ≤ length b.now }
    ensures { result ≡ true → take 8 (drop at a.now) ≡ take 8 (drop at b.now) }
{
    match (
        a[at..].split_first_chunk::<8>(),
        b[at..].split_first_chunk::<8>(),
    ) {
        (Some((x, _)), Some((y, _))) => x == y,
        _ => false,
    }
}

/// How many bytes both begin with, counted by whole groups of eight, at most this many.
fn same_groups(a: &[u8], b: &[u8], most: usize) -> usize
    requires a { most ≤ length a.now }
    requires b { most ≤ length b.now }
    ensures same { take result a.now ≡ take result b.now }
    ensures most { result ≤ most }
{
    for group in 0..most / 8 {
        if !is_same_group(a, b, 8 * group) {
            return 8 * group;
        }
    }
    most / 8 * 8
}

/// How many bytes both begin with, at most `MAX_FRONT`.
fn common_front(anchor: &[u8], text: &[u8]) -> usize
    ensures front { take result anchor.now ≡ take result text.now }
    ensures anchor { result ≤ length anchor.now }
    ensures text { result ≤ length text.now }
    ensures few { result ≤ 252 }
{
    let most = anchor.len().min(text.len()).min(MAX_FRONT);
    for count in same_groups(anchor, text, most)..most {
        if anchor[count] != text[count] {
            return count;
        }
    }
    most
}

/// How a text is packed after the texts of a window. An IRI that has less than three quarters of itself
/// from the anchor is the next anchor, unless it has as many bytes of that as any text may: IRIs of two
/// namespaces on one host share more than half, and would not part. A literal or a blank node never is, so
/// it does not part IRIs that begin alike.
pub fn placed(bytes: &[u8], window: Window, text: &[u8]) -> Place
    requires short { length text.now ≤ 65_535 }
    requires window { IsWindowIn (length bytes.now) window }
    ensures { IsWindowPlace bytes.now window text.now result }
{
    if is_text(bytes, window.last, text) {
        return Place {
            mark: LAST,
            front: text.len(),
        };
    }
    if is_text(bytes, window.earlier, text) {
        return Place {
            mark: EARLIER,
            front: text.len(),
        };
    }
    let front = common_front(bytes_at(bytes, window.anchor), text);
    if text.first() == Some(&b'<') && front < MAX_FRONT && 4 * front < 3 * text.len() {
        return Place {
            mark: WHOLE,
            front: 0,
        };
    }
    Place {
        mark: front as u8,
        front,
    }
}
