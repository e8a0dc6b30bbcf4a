//! The texts of replies. Each call adds a text to a list, or makes one of a text and a piece; where
//! memory is wanted the list is of no more use.
ghost use Rattle.std.specs.Fmt.{digits};
ghost use Rattle.std.specs.Prelude.{◌≡◌, ◌++◌, false, Some, IfOk, OnOk};
ghost use Rattle.gs_model.specs.Ascii.{crlf};
ghost use Rattle.gs_reply.specs.Notices.{notice_of};
ghost use Rattle.gs_reply.specs.Replies as spec;

use gs_names::ReplyType;
use gs_verdict::Allow;
use http::StatusCode;
use itoa::Buffer;
use std::alloc::{AllocError, Global};
use std::io::Write;

/// The most bytes of a head of a reply, but for a name in it: the longest phrase has 31, of the notes
/// the longest is the field Allow with all six methods, and the number of a commit has 20 at most.
const HEAD_BYTES: usize = 166;

/// The most bytes of a chunk beside its piece: 16 digits and two line ends.
const FRAME_BYTES: usize = 20;

/// What a reply without a body says besides its status.
#[derive(Clone, Copy, Debug)]
pub enum ReplyNote<'a> {
    Nothing,
    /// The methods that the target allows.
    Allows(Allow),
    /// The name of the graph that was made.
    Made(&'a [u8]),
}

/// `100 Continue`.
#[tactic(auto, unfolding(crate::specs::Replies::continue_text, crate::specs::Replies::status_line, crate::specs::Replies::phrase_of))]
pub fn continue_text() -> &'static [u8]
    ensures { result.now ≡ spec.continue_text }
{
    b"HTTP/1.1 100 Continue\r\n\r\n"
}

/// A number that is no status is a fault of the server's own.
fn code_of(status: u16) -> StatusCode
    ensures { result ≡ spec.code_of status }
{
    match StatusCode::from_u16(status) {
        Ok(code) => code,
        Err(_) => StatusCode::INTERNAL_SERVER_ERROR,
    }
}

#[tactic(auto, unfolding(crate::specs::Replies::phrase_of))]
fn phrase(status: StatusCode) -> &'static [u8]
    ensures { result.now ≡ spec.phrase_of status }
{
    status.canonical_reason().unwrap_or("").as_bytes()
}

#[tactic(auto, unfolding(crate::specs::Replies::status_line))]
fn push_status(text: &mut Vec<u8>, status: StatusCode) -> Result<(), AllocError>
    ensures { OnOk result (text.new.items ≡ text.old.items ++ spec.status_line status) }
{
    text.extend_from_slice(b"HTTP/1.1 ")?;
    text.extend_from_slice(status.as_str().as_bytes())?;
    text.extend_from_slice(b" ")?;
    text.extend_from_slice(phrase(status))?;
    text.extend_from_slice(b"\r\n")
}

#[tactic(auto, unfolding(crate::specs::Replies::field_line))]
fn push_field(text: &mut Vec<u8>, name: &[u8], value: &[u8]) -> Result<(), AllocError>
    ensures { OnOk result (text.new.items ≡ text.old.items ++ spec.field_line name.now value.now) }
{
    text.extend_from_slice(name)?;
    text.extend_from_slice(b": ")?;
    text.extend_from_slice(value)?;
    text.extend_from_slice(b"\r\n")
}

fn push_close(text: &mut Vec<u8>, closes: bool) -> Result<(), AllocError>
    ensures { OnOk result (text.new.items ≡ text.old.items ++ spec.close_line closes) }
{
    if closes {
        push_field(text, b"Connection", b"close")
    } else {
        Ok(())
    }
}

fn push_length(text: &mut Vec<u8>, status: StatusCode) -> Result<(), AllocError>
    ensures { OnOk result (text.new.items ≡ text.old.items ++ spec.length_line status) }
{
    if status.as_u16() == 204 {
        Ok(())
    } else {
        push_field(text, b"Content-Length", b"0")
    }
}

fn push_note(text: &mut Vec<u8>, note: ReplyNote<'_>) -> Result<(), AllocError>
    ensures { OnOk result (text.new.items ≡ text.old.items ++ spec.note_line (notice_of note.entry)) }
{
    match note {
        ReplyNote::Nothing => Ok(()),
        ReplyNote::Allows(allow) => push_field(text, b"Allow", allow.text().as_bytes()),
        ReplyNote::Made(name) => push_field(text, b"Location", name),
    }
}

/// Adds the field with the number of a commit.
fn push_number(text: &mut Vec<u8>, number: u64) -> Result<(), AllocError>
    ensures { OnOk result (text.new.items ≡ text.old.items ++ spec.commit_line (Some number)) }
{
    let mut digits = Buffer::new();
    push_field(text, b"Store-Commit", digits.format(number).as_bytes())
}

fn push_commit(text: &mut Vec<u8>, commit: Option<u64>) -> Result<(), AllocError>
    ensures { OnOk result (text.new.items ≡ text.old.items ++ spec.commit_line commit) }
{
    match commit {
        Some(number) => push_number(text, number),
        None => Ok(()),
    }
}

/// The most bytes of a reply without a body that says this.
fn room_for(note: ReplyNote<'_>) -> usize {
    match note {
        ReplyNote::Made(name) => name.len().saturating_add(HEAD_BYTES),
        _ => HEAD_BYTES,
    }
}

/// Adds a reply without a body, by the number of its status: 500 stands for a number that is none.
/// Memory is taken once, before the first byte.
#[tactic(auto, unfolding(crate::specs::Replies::reply_text))]
pub fn push_reply(
    text: &mut Vec<u8>,
    status: u16,
    note: ReplyNote<'_>,
    commit: Option<u64>,
    closes: bool,
) -> Result<(), AllocError>
    ensures { OnOk result
        (text.new.items ≡ text.old.items ++ spec.reply_text status (notice_of note.entry) commit closes) }
{
    let code = code_of(status);
    text.reserve(room_for(note))?;
    push_status(text, code)?;
    push_length(text, code)?;
    push_note(text, note)?;
    push_commit(text, commit)?;
    push_close(text, closes)?;
    text.extend_from_slice(b"\r\n")
}

fn type_text(reply: ReplyType) -> &'static [u8]
    ensures { result.now ≡ spec.type_text reply }
{
    match reply {
        ReplyType::NTriples => b"application/n-triples",
        ReplyType::Turtle => b"text/turtle",
        ReplyType::NQuads => b"application/n-quads",
    }
}

#[tactic(auto, unfolding(crate::specs::Replies::type_line))]
fn push_type(text: &mut Vec<u8>, reply: ReplyType) -> Result<(), AllocError>
    ensures { OnOk result (text.new.items ≡ text.old.items ++ spec.type_line reply) }
{
    push_field(text, b"Content-Type", type_text(reply))
}

#[tactic(auto, unfolding(crate::specs::Replies::chunked_line))]
fn push_chunked(text: &mut Vec<u8>) -> Result<(), AllocError>
    ensures { OnOk result (text.new.items ≡ text.old.items ++ spec.chunked_line) }
{
    push_field(text, b"Transfer-Encoding", b"chunked")
}

/// Adds the head of a reply whose body comes in chunks. A HEAD's reply ends there. Memory is taken
/// once, before the first byte.
#[tactic(auto, unfolding(crate::specs::Replies::lines_head))]
pub fn push_lines_head(
    text: &mut Vec<u8>,
    reply: ReplyType,
    commit: u64,
    closes: bool,
) -> Result<(), AllocError>
    ensures { OnOk result (text.new.items ≡ text.old.items ++ spec.lines_head reply commit closes) }
{
    text.reserve(HEAD_BYTES)?;
    push_status(text, StatusCode::OK)?;
    push_type(text, reply)?;
    push_chunked(text)?;
    push_number(text, commit)?;
    push_close(text, closes)?;
    text.extend_from_slice(b"\r\n")
}

/// Adds the line with the size of a chunk.
fn push_size(text: &mut Vec<u8>, size: usize) -> Result<(), AllocError>
    ensures { OnOk result (text.new.items ≡ text.old.items ++ digits 16 false size ++ crlf) }
{
    write!(text, "{size:x}\r\n").map_err(|_| AllocError)
}

/// A list of a text and the line with the size of a chunk, with room for so many bytes more.
fn sized(alloc: Global, text: &[u8], size: usize, room: usize) -> Result<Vec<u8>, AllocError>
    ensures { IfOk result (λ all. all.items ≡ text.now ++ (digits 16 false size ++ crlf)) }
{
    let most = text.len().saturating_add(FRAME_BYTES).saturating_add(room);
    let mut all = Vec::with_capacity(alloc, most)?;
    all.extend_from_slice(text)?;
    push_size(&mut all, size)?;
    Ok(all)
}

/// A piece with a text before it, in the piece's own memory where that has room. The text is copied
/// once on the way.
fn put_before(text: Vec<u8>, mut piece: Vec<u8>) -> Result<Vec<u8>, AllocError>
    ensures { IfOk result (λ all. all.items ≡ text.items ++ piece.items) }
{
    piece.splice(0..0, text)?;
    Ok(piece)
}

/// A text, and after it a piece as a chunk. Where the piece has room for the text and 20 bytes more,
/// its bytes are moved within its own memory and copied to no other place; else both are copied to
/// new memory. A piece without bytes is no chunk, since an empty chunk would end the body.
#[tactic(auto, unfolding(crate::specs::Replies::chunk))]
pub fn chunk_after(alloc: Global, text: &[u8], mut piece: Vec<u8>) -> Result<Vec<u8>, AllocError>
    ensures { IfOk result (λ all. all.items ≡ text.now ++ spec.chunk piece.items) }
{
    if piece.is_empty() {
        return Vec::from_slice(alloc, text);
    }
    let size = piece.len();
    if piece.capacity() - size >= text.len().saturating_add(FRAME_BYTES) {
        let front = sized(alloc, text, size, 0)?;
        piece.extend_from_slice(b"\r\n")?;
        return put_before(front, piece);
    }
    let mut all = sized(alloc, text, size, size)?;
    all.extend_from_slice(piece.as_slice())?;
    all.extend_from_slice(b"\r\n")?;
    Ok(all)
}

/// Adds the last chunk.
#[tactic(auto, unfolding(crate::specs::Replies::last_chunk))]
pub fn push_last_chunk(text: &mut Vec<u8>) -> Result<(), AllocError>
    ensures { OnOk result (text.new.items ≡ text.old.items ++ spec.last_chunk) }
{
    text.extend_from_slice(b"0\r\n\r\n")
}
