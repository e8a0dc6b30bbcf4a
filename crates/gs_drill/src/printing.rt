//! What the answers of a store print.
ghost use Rattle.std.specs.Prelude.{◌≡◌, ◌++◌, ◌∷◌, [], codes, ℕ, List};
ghost use Rattle.std.specs.Io.KnownBytes.{Appends};
ghost use Rattle.gs_model.specs.Characters.{line_feed};
ghost use Rattle.gs_model.specs.Terms.{numeral};
ghost use Rattle.gs_drill.specs.Printing.{Writes, note_text, answer_text, reply_text, counts_text, no_command_text, no_memory_text};

use gs_event::Answer;
use gs_term::GraphName;
use itoa::Buffer;
use std::io::{self, ErrorKind, Write};

/// What a line prints.
#[derive(Debug, Drop)]
pub enum Reply {
    /// The answer of a store.
    Answered(Answer),
    /// A text was fed.
    Taken,
    /// A text had a fault, and its upload or its patch was given up.
    Fault,
    /// The text of an update is outside what is served, and its patch was given up.
    Outside,
}

/// Writes some bytes. Where that fails, a prefix of them is written.
fn put<W: Write>(out: &mut W, bytes: &[u8]) -> io::Result<()>
    ensures { Writes (W.contents out.old) (W.contents out.new) bytes.now result }
{
    let mut rest = bytes;
    for _ in 0..u64::MAX {
        if rest.is_empty() {
            return Ok(());
        }
        match out.write(rest) {
            Ok(0) => return Err(io::Error::from(ErrorKind::WriteZero)),
            Ok(count) => rest = &rest[count..],
            Err(error) => {
                if error.kind() != ErrorKind::Interrupted {
                    return Err(error);
                }
            }
        }
    }
    Err(io::Error::from(ErrorKind::Other))
}

/// Writes two parts.
fn put_both<W: Write>(out: &mut W, a: &[u8], b: &[u8]) -> io::Result<()>
    ensures { Writes (W.contents out.old) (W.contents out.new) (a.now ++ b.now) result }
{
    match put(out, a) {
        Ok(()) => put(out, b),
        Err(error) => Err(error),
    }
}

/// Writes four parts.
fn put_all<W: Write>(out: &mut W, a: &[u8], b: &[u8], c: &[u8], d: &[u8]) -> io::Result<()>
    ensures { Writes (W.contents out.old) (W.contents out.new) (a.now ++ b.now ++ (c.now ++ d.now)) result }
{
    match put_both(out, a, b) {
        Ok(()) => put_both(out, c, d),
        Err(error) => Err(error),
    }
}

/// Writes a line of two parts.
fn put_pair<W: Write>(out: &mut W, a: &[u8], b: &[u8]) -> io::Result<()>
    ensures { Writes (W.contents out.old) (W.contents out.new) (a.now ++ b.now ++ line_feed ∷ []) result }
{
    match put_both(out, a, b) {
        Ok(()) => put(out, b"\n"),
        Err(error) => Err(error),
    }
}

/// Writes a line of four parts.
fn put_line<W: Write>(out: &mut W, a: &[u8], b: &[u8], c: &[u8], d: &[u8]) -> io::Result<()>
    ensures { Writes (W.contents out.old) (W.contents out.new)
        (a.now ++ b.now ++ (c.now ++ d.now) ++ line_feed ∷ []) result }
{
    match put_all(out, a, b, c, d) {
        Ok(()) => put(out, b"\n"),
        Err(error) => Err(error),
    }
}

/// A number in decimal, in the buffer.
fn shown(buffer: &mut Buffer, n: u64) -> &[u8]
    ensures { result.now ≡ numeral n }
{
    buffer.format(n).as_bytes()
}

/// Writes a status, and what stands after it.
fn put_status<W: Write>(
    out: &mut W,
    status: u16,
    name: &Option<GraphName>,
    number: u64,
) -> io::Result<()>
    ensures { Writes (W.contents out.old) (W.contents out.new)
        (numeral status ++ note_text status name.now number ++ line_feed ∷ []) result }
{
    let mut first = Buffer::new();
    let digits = shown(&mut first, u64::from(status));
    if status == 412 {
        let mut second = Buffer::new();
        return put_line(out, b"", digits, b" ", shown(&mut second, number));
    }
    match name {
        None => put_pair(out, digits, b""),
        Some(name) => put_line(out, b"", digits, b" ", name.as_bytes()),
    }
}

/// Writes what an answer prints. It takes no memory.
pub fn print_answer<W: Write>(out: &mut W, answer: Answer) -> io::Result<()>
    ensures { Writes (W.contents out.old) (W.contents out.new) (answer_text answer) result }
{
    let mut buffer = Buffer::new();
    match answer {
        Answer::Opened(request) => put_pair(out, b"opened ", shown(&mut buffer, request)),
        Answer::Staged => put_pair(out, b"staged", b""),
        Answer::Status(status, name, number) => put_status(out, status, &name, number),
        Answer::Pinned(status, _) => put_pair(out, b"", shown(&mut buffer, u64::from(status))),
        Answer::Lines(lines, is_end) => {
            let word: &[u8] = if is_end { b"end" } else { b"more" };
            put_pair(out, lines.into_bytes().as_slice(), word)
        }
        Answer::Cancelled => put_pair(out, b"cancelled", b""),
        Answer::Reclaimed(freed, left) => {
            let word: &[u8] = if left { b" more" } else { b" done" };
            put_line(out, b"reclaimed ", shown(&mut buffer, freed), b"", word)
        }
        Answer::Refused(refusal) => put_pair(out, b"refused ", refusal.name().as_bytes()),
    }
}

/// Writes what a line prints.
pub fn print_reply<W: Write>(out: &mut W, reply: Reply) -> io::Result<()>
    ensures { Writes (W.contents out.old) (W.contents out.new) (reply_text reply) result }
{
    match reply {
        Reply::Answered(answer) => print_answer(out, answer),
        Reply::Taken => put_pair(out, b"fed", b""),
        Reply::Fault => put_pair(out, b"fault 400", b""),
        Reply::Outside => put_pair(out, b"fault 422", b""),
    }
}

/// Writes how many nodes and records are in use, as `nodes`, and how many triples all graphs have.
pub fn print_counts<W: Write>(out: &mut W, nodes: u64, triples: u64) -> io::Result<()>
    ensures { Writes (W.contents out.old) (W.contents out.new) (counts_text nodes triples) result }
{
    let mut first = Buffer::new();
    let mut second = Buffer::new();
    let nodes = shown(&mut first, nodes);
    put_line(
        out,
        b"nodes ",
        nodes,
        b" triples ",
        shown(&mut second, triples),
    )
}

/// Writes that a line is no command.
pub fn print_no_command<W: Write>(err: &mut W, line: u64) -> io::Result<()>
    ensures { Writes (W.contents err.old) (W.contents err.new) (no_command_text line) result }
{
    let mut buffer = Buffer::new();
    let line = shown(&mut buffer, line);
    put_line(err, b"gsdrill: line ", line, b"", b" is no command")
}

/// Writes that memory was wanted and not given.
pub fn print_no_memory<W: Write>(err: &mut W) -> io::Result<()>
    ensures { Writes (W.contents err.old) (W.contents err.new) no_memory_text result }
{
    put_pair(err, b"gsdrill: no memory", b"")
}
