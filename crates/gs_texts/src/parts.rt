//! What lines are made of.
ghost use Rattle.std.specs.Prelude.{◌≡◌, ◌+◌, ◌≤◌, ◌++◌, length, vec_len, vec_capacity};
ghost use Rattle.std.specs.List.{All};
ghost use Rattle.gs_texts.specs.Lines.{LiesThere, line_placed, lines_placed};

use crate::blocks::Block;
use crate::places::Place;
use crate::texts::Texts;

/// Where the three texts of a line stand, and where what it has after them begins among all tails, with how
/// many bytes that has.
#[derive(Clone, Copy, Debug, Drop)]
pub struct LinePlaces {
    pub subject: Place,
    pub predicate: Place,
    pub object: Place,
    pub tail_from: usize,
    pub tail_count: usize,
}

/// What lines are made of: texts, what lines have after them, one after another, and where these stand.
#[derive(Debug, Drop)]
pub struct Parts {
    pub texts: Texts,
    pub tails: Block,
    pub lines: Vec<LinePlaces>,
}

/// Appends bytes for which there is room, so it takes no memory.
fn append(text: &[u8], bytes: &mut Vec<u8>)
    requires { vec_len bytes.old + length text.now ≤ vec_capacity bytes.old }
    ensures items { bytes.new.items ≡ bytes.old.items ++ text.now }
    ensures len { vec_len bytes.new ≡ vec_len bytes.old + length text.now }
    ensures capacity { vec_capacity bytes.old ≤ vec_capacity bytes.new }
{
    let _ = bytes.extend_from_slice(text);
}

/// Appends a line, for which there is room.
fn append_line(texts: &Texts, tails: &Block, line: LinePlaces, bytes: &mut Vec<u8>)
    requires there { LiesThere texts.now tails.now line }
    requires room { vec_len bytes.old + length (line_placed texts.now tails.now line)
        ≤ vec_capacity bytes.old }
    ensures items { bytes.new.items ≡ bytes.old.items ++ line_placed texts.now tails.now line }
    ensures len { vec_len bytes.new
        ≡ vec_len bytes.old + length (line_placed texts.now tails.now line) }
    ensures capacity { vec_capacity bytes.old ≤ vec_capacity bytes.new }
{
    append(texts.get(line.subject), bytes);
    bytes.push_reserved(b' ');
    append(texts.get(line.predicate), bytes);
    bytes.push_reserved(b' ');
    append(texts.get(line.object), bytes);
    bytes.push_reserved(b' ');
    append(tails.part(line.tail_from, line.tail_count), bytes);
}

/// Appends lines, for which there is room.
fn append_lines(texts: &Texts, tails: &Block, lines: &[LinePlaces], bytes: &mut Vec<u8>)
    requires there { All (LiesThere texts.now tails.now) lines.now }
    requires room { vec_len bytes.old + length (lines_placed texts.now tails.now lines.now)
        ≤ vec_capacity bytes.old }
    ensures { bytes.new.items ≡ bytes.old.items ++ lines_placed texts.now tails.now lines.now }
{
    for line in lines {
        append_line(texts, tails, *line, bytes);
    }
}

/// The first and the last byte of a text, joined by or.
fn ends_of(text: &[u8]) -> u8 {
    match (text.first(), text.last()) {
        (Some(first), Some(last)) => first | last,
        _ => 0,
    }
}

/// The first and last bytes of the objects of lines, joined by or. These texts lie apart in memory. Read
/// here one after another, they are fetched together; read only when its line is written, each would be
/// waited for by itself.
fn ends_of_objects(texts: &Texts, tails: &Block, lines: &[LinePlaces]) -> u8
    requires { All (LiesThere texts.now tails.now) lines.now }
{
    let mut ends = 0;
    for line in lines {
        ends |= ends_of(texts.get(line.object));
    }
    ends
}

/// Puts lines together after the bytes that are there, for which there is room. Takes no memory where
/// there is room for one byte more.
pub fn put_together(texts: &Texts, tails: &Block, lines: &[LinePlaces], bytes: &mut Vec<u8>)
    requires there { All (LiesThere texts.now tails.now) lines.now }
    requires room { vec_len bytes.old + length (lines_placed texts.now tails.now lines.now)
        ≤ vec_capacity bytes.old }
    ensures { bytes.new.items ≡ bytes.old.items ++ lines_placed texts.now tails.now lines.now }
{
    if lines.is_empty() {
        return;
    }
    let ends = ends_of_objects(texts, tails, lines);
    // There is room for 256 bytes more, so nothing is asked for. The compiler does not know that, and
    // keeps the reads of the ends.
    let _ = bytes.reserve(usize::from(ends == 0));
    append_lines(texts, tails, lines, bytes);
}
