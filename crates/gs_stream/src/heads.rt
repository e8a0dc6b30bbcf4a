//! Where a head ends.
ghost use Rattle.std.specs.Prelude.{◌≡◌, ◌≤◌, nat_le, length, take, drop};
ghost use Rattle.gs_stream.specs.Limits.{max_head_bytes};
ghost use Rattle.gs_stream.specs.Heads.{stripped, empty_line as empty_line_at, through_empty_line, head_at};
ghost use Rattle.gs_stream.specs.Views.{part_size, head_cut_by, IsWithinBuffer};

use gs_transfer::first_line_feed;

/// The most bytes of a head, its empty line included.
const MAX_HEAD_BYTES: usize = 16_384;

/// Where the head at the front of a buffer ends.
#[derive(Clone, Copy, Debug, PartialEq)]
pub enum HeadEnd {
    /// It has not come yet.
    Open,
    /// Not within the bytes that a head may have.
    TooLong,
    /// After so many bytes.
    After(usize),
}

/// How many bytes an empty line has at the front of these: LF, or CR LF.
fn empty_line(rest: &[u8]) -> Option<usize>
    ensures { result ≡ part_size (empty_line_at rest.now) }
{
    match rest {
        [b'\n', ..] => Some(1),
        [b'\r', b'\n', ..] => Some(2),
        _ => None,
    }
}

/// How many bytes stand before a head, and are dropped: ends of lines, CR LF or LF (RFC 9112, section
/// 2.2). Linear in them.
pub fn leading(buffer: &[u8]) -> usize
    ensures dropped { drop result buffer.now ≡ stripped buffer.now }
    ensures within { result ≤ length buffer.now }
{
    let mut count = 0;
    while let Some(size) = empty_line(&buffer[count..]) {
        count += size;
    }
    count
}

/// Where the first empty line of these bytes ends: after an LF, LF or CR LF.
fn find_empty_line(front: &[u8]) -> Option<usize>
    ensures { result ≡ part_size (through_empty_line front.now) }
{
    let mut from = 0;
    while let Some(place) = first_line_feed(&front[from..]) {
        let after = from + place + 1;
        if let Some(size) = empty_line(&front[after..]) {
            return Some(after + size);
        }
        from = after;
    }
    None
}

/// The bytes that a head may have.
fn front(buffer: &[u8]) -> &[u8]
    ensures { result.now ≡ take max_head_bytes buffer.now }
{
    &buffer[..buffer.len().min(MAX_HEAD_BYTES)]
}

/// Whether a head that has no end in these bytes is too long.
fn is_full(buffer: &[u8]) -> bool
    ensures { result ≡ nat_le max_head_bytes (length buffer.now) }
{
    buffer.len() >= MAX_HEAD_BYTES
}

/// The end of the head at the front of a buffer, before which nothing is to be dropped. Linear in the
/// bytes of the head.
pub fn find_head(buffer: &[u8]) -> HeadEnd
    ensures cut { head_cut_by buffer.now result ≡ head_at buffer.now }
    ensures within { IsWithinBuffer (length buffer.now) result }
{
    match find_empty_line(front(buffer)) {
        Some(end) => HeadEnd::After(end),
        None => {
            if is_full(buffer) {
                HeadEnd::TooLong
            } else {
                HeadEnd::Open
            }
        }
    }
}
