//! A body's transfer, part by part.
ghost use Rattle.std.specs.Prelude.{◌≡◌, ◌≤◌, ◌<◌, ◌==◌, List, ℕ, Some, length, min};
ghost use Rattle.std.specs.List.{position};
ghost use Rattle.gs_model.specs.Ascii.{line_feed};
ghost use Rattle.gs_http.specs.Chunks.{chunk_size_of};
ghost use Rattle.gs_transfer.specs.States.{sized};
ghost use Rattle.gs_transfer.specs.Cuts.{body_at};
ghost use Rattle.gs_transfer.specs.Views.{IsSized, Parts, cut_of};

use crate::places::{Place, Transfer, data_place, first_place};
use crate::trailers::{Line, Trailing, pass_trailer};
use gs_http::{Framing, read_chunk_size};

/// The most bytes of a chunk's size line, its end included.
const MAX_SIZE_LINE_BYTES: usize = 256;

/// What the next bytes are.
#[derive(Clone, Copy, Debug, PartialEq)]
pub enum Part {
    /// So many are data of the body.
    Data(usize),
    /// So many belong to the transfer, and are no data.
    Passed(usize),
    /// The body ended before them.
    End,
    /// The body has a fault, whatever comes: 400, or 413 where its chunks are too much.
    Fault(u16),
    /// They do not settle it: they are to be given again, with more after them.
    More,
}

/// The lesser of a number of bytes and those at hand.
fn at_hand(left: u64, bytes: &[u8]) -> usize
    ensures { result ≡ min left (length bytes.now) }
{
    left.min(bytes.len() as u64) as usize
}

/// Where the first LF is.
pub fn first_line_feed(bytes: &[u8]) -> Option<usize>
    ensures { result ≡ position (λ c. c == line_feed) bytes.now }
{
    bytes.iter().position(|c| *c == b'\n')
}

impl Transfer {
    /// The transfer of a body that is framed so, with this limit on the data of its chunks. A framing
    /// that is refused announces no body.
    pub fn new(framing: Framing, limit: u64) -> Transfer
        ensures { (x : List ℕ) → cut_of result x ≡ body_at limit framing x }
    {
        let place = first_place(framing);
        Transfer {
            place,
            sum: 0,
            limit,
        }
    }

    /// Bytes of a body without chunks.
    fn take_left(&mut self, left: u64, bytes: &[u8]) -> Part
        requires { self.old.place ≡ Place.Left left }
        ensures { Parts self.old self.new bytes.now result }
    {
        if left == 0 {
            return Part::End;
        }
        if bytes.is_empty() {
            return Part::More;
        }
        let count = at_hand(left, bytes);
        self.place = Place::Left(left - count as u64);
        Part::Data(count)
    }

    /// Bytes of a chunk's data.
    fn take_data(&mut self, left: u64, bytes: &[u8]) -> Part
        requires { self.old.place ≡ Place.Data left }
        ensures { Parts self.old self.new bytes.now result }
    {
        if bytes.is_empty() {
            return Part::More;
        }
        let count = at_hand(left, bytes);
        self.place = data_place(left - count as u64);
        Part::Data(count)
    }

    /// A chunk of this size, whose line has so many bytes.
    fn take_chunk(&mut self, size: u64, count: usize) -> Part
        ensures { IsSized self.old self.new count (sized self.old.limit self.old.sum (Some size)) result }
    {
        if size == 0 {
            self.place = Place::Trailer(Line::Start, 0);
            return Part::Passed(count);
        }
        if size > self.limit - self.sum {
            return Part::Fault(413);
        }
        self.sum += size;
        self.place = Place::Data(size);
        Part::Passed(count)
    }

    /// A line that is whole.
    fn take_size(&mut self, line: &[u8]) -> Part
        ensures { IsSized self.old self.new (length line.now)
            (sized self.old.limit self.old.sum (chunk_size_of line.now)) result }
    {
        match read_chunk_size(line) {
            None => Part::Fault(400),
            Some(size) => self.take_chunk(size, line.len()),
        }
    }

    /// A size line, if it is whole.
    fn take_line(&mut self, bytes: &[u8]) -> Part
        requires { self.old.place ≡ Place.Size }
        ensures { Parts self.old self.new bytes.now result }
    {
        let front = &bytes[..bytes.len().min(MAX_SIZE_LINE_BYTES)];
        match first_line_feed(front) {
            Some(at) => self.take_size(&bytes[..at + 1]),
            None => {
                if bytes.len() < MAX_SIZE_LINE_BYTES {
                    Part::More
                } else {
                    Part::Fault(400)
                }
            }
        }
    }

    /// The CR after a chunk's data.
    fn take_cr(&mut self, bytes: &[u8]) -> Part
        requires { self.old.place ≡ Place.DataEnd }
        ensures { Parts self.old self.new bytes.now result }
    {
        if bytes.is_empty() {
            return Part::More;
        }
        if bytes[0] != b'\r' {
            return Part::Fault(400);
        }
        self.place = Place::DataEndCr;
        Part::Passed(1)
    }

    /// The LF after it.
    fn take_lf(&mut self, bytes: &[u8]) -> Part
        requires { self.old.place ≡ Place.DataEndCr }
        ensures { Parts self.old self.new bytes.now result }
    {
        if bytes.is_empty() {
            return Part::More;
        }
        if bytes[0] != b'\n' {
            return Part::Fault(400);
        }
        self.place = Place::Size;
        Part::Passed(1)
    }

    /// Bytes of the trailer section, which are dropped.
    fn take_trailer(&mut self, line: Line, count: u64, bytes: &[u8]) -> Part
        requires { self.old.place ≡ Place.Trailer line count }
        ensures { Parts self.old self.new bytes.now result }
    {
        if bytes.is_empty() {
            return Part::More;
        }
        match pass_trailer(line, count, bytes) {
            Trailing::Ends(passed) => {
                self.place = Place::Over;
                Part::Passed(passed)
            }
            Trailing::Long => Part::Fault(400),
            Trailing::GoesOn(after, sum) => {
                self.place = Place::Trailer(after, sum);
                Part::Passed(bytes.len())
            }
        }
    }

    /// What the next bytes are. They are to begin where the part before ended. After a fault the
    /// transfer is of no more use. Linear in the bytes, but that a size line's prefix, of at most 255
    /// bytes, is looked at again with each piece that does not end it.
    pub fn next(&mut self, bytes: &[u8]) -> Part
        ensures { Parts self.old self.new bytes.now result }
    {
        match self.place {
            Place::Left(left) => self.take_left(left, bytes),
            Place::Size => self.take_line(bytes),
            Place::Data(left) => self.take_data(left, bytes),
            Place::DataEnd => self.take_cr(bytes),
            Place::DataEndCr => self.take_lf(bytes),
            Place::Trailer(line, count) => self.take_trailer(line, count, bytes),
            Place::Over => Part::End,
        }
    }
}
