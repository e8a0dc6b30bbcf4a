//! Replies one after another, beside their text written by hand.
use gs_names::ReplyType;
use gs_reply::{ReplyNote, chunk_after, push_last_chunk, push_lines_head, push_reply};
use gs_verdict::Allow;
use std::alloc::{AllocError, Global};
use std::test::Fail;

/// Three replies without a body, then two in chunks, by hand from RFC 9112.
const WRITTEN: &[u8] = b"\
HTTP/1.1 405 Method Not Allowed\r\nContent-Length: 0\r\nAllow: GET, HEAD, POST\r\n\r\n\
HTTP/1.1 201 Created\r\nContent-Length: 0\r\nLocation: http://h/g\r\nStore-Commit: 10\r\n\r\n\
HTTP/1.1 412 Precondition Failed\r\nContent-Length: 0\r\nStore-Commit: 0\r\nConnection: close\r\n\r\n\
HTTP/1.1 200 OK\r\nContent-Type: application/n-quads\r\nTransfer-Encoding: chunked\r\nStore-Commit: 7\r\n\r\n\
0\r\n\r\n\
HTTP/1.1 200 OK\r\nContent-Type: text/turtle\r\nTransfer-Encoding: chunked\r\n\
Store-Commit: 999999999999999999\r\nConnection: close\r\n\r\n\
11\r\n<a:b> <a:b> 10 .\n\r\n0\r\n\r\n";

/// A line in a list that has room for so many bytes more.
fn line(alloc: Global, room: usize) -> Result<Vec<u8>, AllocError> {
    let mut line = Vec::with_capacity(alloc, room.saturating_add(17))?;
    line.extend_from_slice(b"<a:b> <a:b> 10 .\n")?;
    Ok(line)
}

fn written(alloc: Global, room: usize) -> Result<Vec<u8>, AllocError> {
    let mut text = Vec::new(alloc);
    let allowed = ReplyNote::Allows(Allow::OfStore);
    push_reply(&mut text, 405, allowed, None, false)?;
    let made = ReplyNote::Made(b"http://h/g");
    push_reply(&mut text, 201, made, Some(10), false)?;
    push_reply(&mut text, 412, ReplyNote::Nothing, Some(0), true)?;
    push_lines_head(&mut text, ReplyType::NQuads, 7, false)?;
    push_last_chunk(&mut text)?;
    push_lines_head(&mut text, ReplyType::Turtle, 999_999_999_999_999_999, true)?;
    text = chunk_after(alloc, text.as_slice(), line(alloc, room)?)?;
    text = chunk_after(alloc, text.as_slice(), Vec::new(alloc))?;
    push_last_chunk(&mut text)?;
    Ok(text)
}

/// Whether the replies are written, with a line that has room for so many bytes more.
fn is_written(alloc: Global, room: usize) -> Result<bool, AllocError> {
    let text = written(alloc, room)?;
    Ok(text.as_slice() == WRITTEN)
}

/// Pieces of so many bytes, each with the line of its size.
const SIZES: [(usize, &[u8]); 4] = [
    (1, b"1\r\n"),
    (65_535, b"ffff\r\n"),
    (65_536, b"10000\r\n"),
    (1_048_576, b"100000\r\n"),
];

/// Whether a piece of so many bytes is one chunk after this line.
fn is_one_chunk(alloc: Global, size: usize, front: &[u8]) -> Result<bool, AllocError> {
    let piece = vec![in alloc; b'x'; size]?;
    let text = chunk_after(alloc, b"", piece)?;
    let more = front.len().saturating_add(2);
    Ok(
        text.len() == size.saturating_add(more)
            && text.as_slice().starts_with(front)
            && text.as_slice().ends_with(b"x\r\n"),
    )
}

/// The first size whose piece is not.
fn wrong_size(alloc: Global) -> Result<Option<usize>, AllocError> {
    for (size, front) in &SIZES {
        if !is_one_chunk(alloc, *size, front)? {
            return Ok(Some(*size));
        }
    }
    Ok(None)
}

#[test]
fn a_piece_is_one_chunk_however_long_it_is(rt: HostRuntime) -> Result<(), Fail> {
    assert_eq!(&rt; wrong_size(rt.alloc())?, None);
    Ok(())
}

#[test]
fn with_memory_each_text_is_written(rt: HostRuntime) -> Result<(), Fail> {
    assert!(&rt; is_written(rt.alloc(), 0)?);
    assert!(&rt; is_written(rt.alloc(), 1_000)?);
    Ok(())
}
