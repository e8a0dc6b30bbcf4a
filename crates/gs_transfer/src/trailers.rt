//! A trailer section, byte by byte.
ghost use Rattle.std.specs.Prelude.{◌≡◌, ◌<◌};
ghost use Rattle.gs_transfer.specs.Limits.{max_trailer_bytes};
ghost use Rattle.gs_transfer.specs.States.{inside_place};
ghost use Rattle.gs_transfer.specs.Trailers.{trailer_line_at, IsLineAfter, IsTrailing};

/// The most bytes of a trailer section, the empty line included.
const MAX_TRAILER_BYTES: u64 = 16_384;

/// Where a trailer section stands in its lines.
#[derive(Clone, Copy, Debug)]
pub(crate) enum Line {
    Start,
    StartCr,
    Inside,
    InsideCr,
}

/// What bytes of a trailer section lead to.
#[derive(Clone, Copy, Debug)]
pub(crate) enum Trailing {
    /// The section ends after so many of them.
    Ends(usize),
    /// It has too many bytes.
    Long,
    /// It goes on after them, from there, after so many bytes.
    GoesOn(Line, u64),
}

/// Where a line stands after a byte within it that does not end it.
fn inside_after(c: u8) -> Line
    ensures { trailer_line_at result ≡ inside_place c }
{
    if c == b'\r' {
        Line::InsideCr
    } else {
        Line::Inside
    }
}

/// Where a trailer section stands after a byte; `None` where the byte ends it.
fn line_after(line: Line, c: u8) -> Option<Line>
    ensures { IsLineAfter line c result }
{
    match line {
        Line::Start => {
            if c == b'\r' {
                Some(Line::StartCr)
            } else {
                Some(Line::Inside)
            }
        }
        Line::StartCr => {
            if c == b'\n' {
                None
            } else {
                Some(inside_after(c))
            }
        }
        Line::Inside => Some(inside_after(c)),
        Line::InsideCr => {
            if c == b'\n' {
                Some(Line::Start)
            } else {
                Some(inside_after(c))
            }
        }
    }
}

/// What these bytes lead to, from this place in a line, after so many bytes of the section.
pub(crate) fn pass_trailer(start: Line, before: u64, bytes: &[u8]) -> Trailing
    requires { before < max_trailer_bytes }
    ensures { IsTrailing start before bytes.now result }
{
    let mut line = start;
    let mut count = before;
    for (i, c) in bytes.iter().enumerate() {
        match line_after(line, *c) {
            None => return Trailing::Ends(i + 1),
            Some(after) => {
                count += 1;
                if count >= MAX_TRAILER_BYTES {
                    return Trailing::Long;
                }
                line = after;
            }
        }
    }
    Trailing::GoesOn(line, count)
}
