//! Where a transfer stands.
ghost use Rattle.std.specs.Prelude.{◌≡◌, ◌≤◌, ℕ};
ghost use Rattle.gs_transfer.specs.States.{start_state, data_left};
ghost use Rattle.gs_transfer.specs.Places.{HasByteRoom, state_at_place};

use crate::trailers::Line;
use gs_http::Framing;

/// Where a transfer stands.
#[derive(Clone, Copy, Debug)]
pub(crate) enum Place {
    /// So many bytes of a body without chunks are left.
    Left(u64),
    /// At a chunk's size line.
    Size,
    /// So many bytes of a chunk's data are left.
    Data(u64),
    DataEnd,
    DataEndCr,
    /// In the trailer section, after so many of its bytes.
    Trailer(Line, u64),
    Over,
}

/// The transfer of one body.
#[derive(Clone, Copy, Debug)]
pub struct Transfer {
    pub(crate) place: Place,
    /// How many bytes of data the chunks have so far, with the one at hand.
    pub(crate) sum: u64,
    /// The most that they may have.
    pub(crate) limit: u64,
    ghost within: { sum ≤ limit },
    ghost room: { HasByteRoom place },
}

/// Where a body begins that is framed so.
pub(crate) fn first_place(framing: Framing) -> Place
    ensures place { state_at_place 0 result ≡ start_state framing }
    ensures room { HasByteRoom result }
{
    match framing {
        Framing::Bytes(count) => Place::Left(count),
        Framing::Chunked => Place::Size,
        Framing::Nothing => Place::Over,
        Framing::Malformed => Place::Over,
        Framing::Unknown => Place::Over,
    }
}

/// The place in a chunk's data of which so many bytes are left.
pub(crate) fn data_place(left: u64) -> Place
    ensures place { (sum : ℕ) → state_at_place sum result ≡ data_left sum left }
    ensures room { HasByteRoom result }
{
    if left == 0 {
        Place::DataEnd
    } else {
        Place::Data(left)
    }
}
