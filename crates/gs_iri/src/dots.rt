//! A path appended to a string without its dot segments.
ghost use Rattle.std.specs.Prelude.{◌≡◌, ◌≤◌, OnOk, IfOk, MatchOption, false, length, take};
ghost use Rattle.std.specs.String.{string_bytes};
ghost use Rattle.std.specs.Str.{IsUtf8};
ghost use Rattle.gs_iri.specs.Dots.{is_dot as is_dot_of, is_dot_dot as is_dot_dot_of, is_dots as is_dots_of, segments_of, last_of};
ghost use Rattle.gs_iri.specs.Output.{has_slash, IsLastSlash, DropsLast, KeepsFront, PutsSegment, PutsAll, PutsPath};
ghost use Rattle.gs_iri.specs.Appending.{AppendsDots, KeepsAll};

use crate::references::{after, cut};
use std::alloc::AllocError;

/// Whether a segment stands for its own directory.
#[tactic(auto, unfolding(crate::specs::Dots::is_dot))]
fn is_dot(segment: &str) -> bool
    ensures { result ≡ is_dot_of segment.now }
{
    segment == "."
}

/// Whether a segment stands for the directory above.
#[tactic(auto, unfolding(crate::specs::Dots::is_dot_dot))]
fn is_dot_dot(segment: &str) -> bool
    ensures { result ≡ is_dot_dot_of segment.now }
{
    segment == ".."
}

/// Whether a segment is one of the two.
#[tactic(auto, unfolding(crate::specs::Dots::is_dots))]
fn is_dots(segment: &str) -> bool
    ensures { result ≡ is_dots_of segment.now }
{
    is_dot(segment) || is_dot_dot(segment)
}

/// Where the last '/' stands.
pub fn last_slash(bytes: &[u8]) -> Option<usize>
    ensures { MatchOption result (has_slash bytes.now ≡ false) (IsLastSlash bytes.now) }
{
    let mut i = bytes.len();
    while i > 0 {
        i -= 1;
        if bytes[i] == b'/' {
            return Some(i);
        }
    }
    None
}

/// Drops the last segment after `start`, with the '/' before it.
fn drop_last(start: usize, resolved: &mut String)
    requires within { start ≤ length (string_bytes resolved.old) }
    requires spelled { IsUtf8 (take start (string_bytes resolved.old)) }
    ensures within { start ≤ length (string_bytes resolved.new) }
    ensures front { KeepsFront start resolved.old resolved.new }
    ensures back { DropsLast start resolved.old resolved.new }
{
    match last_slash(&resolved.as_bytes()[start..]) {
        Some(i) => resolved.truncate(start + i),
        None => resolved.truncate(start),
    }
}

/// Puts one segment after what is put, if any is. The prefix up to `start` stays.
#[tactic(auto, unfolding(crate::specs::Output::put, crate::specs::Output::put_after))]
fn put_segment(
    segment: &str,
    begun: bool,
    start: usize,
    resolved: &mut String,
) -> Result<bool, AllocError>
    requires within { start ≤ length (string_bytes resolved.old) }
    requires spelled { IsUtf8 (take start (string_bytes resolved.old)) }
    ensures within { start ≤ length (string_bytes resolved.new) }
    ensures front { KeepsFront start resolved.old resolved.new }
    ensures output { IfOk result (λ b. PutsSegment start begun segment.now resolved.old resolved.new b) }
{
    if !begun {
        if is_dots(segment) {
            return Ok(false);
        }
        resolved.push_str(segment)?;
        return Ok(true);
    }
    if is_dot(segment) {
        return Ok(true);
    }
    if is_dot_dot(segment) {
        drop_last(start, resolved);
        return Ok(true);
    }
    resolved.push_str("/")?;
    resolved.push_str(segment)?;
    Ok(true)
}

/// Puts each segment of a path, and gives the last one.
fn put_segments<'a>(
    path: &'a str,
    begun: bool,
    start: usize,
    resolved: &mut String,
) -> Result<(bool, &'a str), AllocError>
    requires within { start ≤ length (string_bytes resolved.old) }
    requires spelled { IsUtf8 (take start (string_bytes resolved.old)) }
    ensures within { start ≤ length (string_bytes resolved.new) }
    ensures front { KeepsFront start resolved.old resolved.new }
    ensures output { IfOk result (λ r. PutsAll start begun path.now resolved.old resolved.new r.0) }
    ensures last { IfOk result (λ r. r.1.now ≡ last_of (segments_of path.now)) }
{
    let mut begun = begun;
    let mut rest = path;
    'segments: loop {
        let (segment, back) = cut(rest, b"/");
        begun = put_segment(segment, begun, start, resolved)?;
        match after(back, b'/') {
            None => return Ok((begun, segment)),
            Some(more) => rest = more,
        }
    }
}

/// Puts each segment of a path that ends there, and what a dot segment at its end stands for.
fn put_path(path: &str, begun: bool, start: usize, resolved: &mut String) -> Result<(), AllocError>
    requires within { start ≤ length (string_bytes resolved.old) }
    requires spelled { IsUtf8 (take start (string_bytes resolved.old)) }
    ensures within { start ≤ length (string_bytes resolved.new) }
    ensures front { KeepsFront start resolved.old resolved.new }
    ensures output { OnOk result (PutsPath start begun path.now resolved.old resolved.new) }
{
    let (more, last) = put_segments(path, begun, start, resolved)?;
    if is_dots(last) {
        put_segment("", more, start, resolved)?;
    }
    Ok(())
}

/// Appends a path without its dot segments (RFC 3986, section 5.2.4). Before it stand `front` and
/// a '/', if there is a front.
pub fn append_dots(front: Option<&str>, path: &str, resolved: &mut String) -> Result<(), AllocError>
    ensures ok { OnOk result (AppendsDots resolved.old resolved.new front.entry path.now) }
    ensures front { KeepsAll resolved.old resolved.new }
{
    let start = resolved.len();
    match front {
        None => put_path(path, false, start, resolved),
        Some(segments) => {
            let (begun, _) = put_segments(segments, false, start, resolved)?;
            put_path(path, begun, start, resolved)
        }
    }
}
