//! The bytes of requests.
use crate::draws::Draws;
use crate::requests::{Deed, Method};
use std::alloc::{AllocError, Global};
use std::io::Write;

/// How a body is framed.
#[derive(Clone, Copy, Drop, PartialEq)]
enum Framing {
    /// There is no body, and nothing says so.
    Absent,
    Length,
    Chunked,
}

/// What is asked for, and how it is written. Its fields are lines.
#[derive(Drop)]
pub struct Draft {
    pub method: Method,
    pub graph: usize,
    pub is_of_all: bool,
    pub deed: Deed,
    pub is_turtle: bool,
    pub word: &'static str,
    pub target: &'static str,
    pub fields: &'static str,
    pub accept: &'static str,
    pub body: Vec<u8>,
    /// Its fields frame its body already.
    pub is_framed: bool,
    pub closes: bool,
    pub expects: bool,
}

/// A request's bytes.
#[derive(Drop)]
pub struct Letter {
    pub bytes: Vec<u8>,
    /// How many of them there are to the end of the head.
    pub head_length: usize,
    /// A body is announced.
    pub announces: bool,
}

/// The most bytes of a chunk.
const MAX_CHUNK_BYTES: usize = 60;

fn drawn_framing(draws: &mut Draws, draft: &Draft) -> Framing {
    if draft.is_framed || (draft.body.is_empty() && draws.is_one_in(2)) {
        Framing::Absent
    } else if draws.is_one_in(2) {
        Framing::Chunked
    } else {
        Framing::Length
    }
}

/// Adds the body in chunks.
fn push_chunks(bytes: &mut Vec<u8>, draws: &mut Draws, body: &[u8]) -> Result<(), AllocError> {
    let mut start = 0usize;
    for _ in 0..body.len() {
        let end = start
            .saturating_add(draws.below(MAX_CHUNK_BYTES))
            .saturating_add(1)
            .min(body.len());
        let chunk = body.get(start..end).unwrap_or_default();
        if !chunk.is_empty() {
            write!(bytes, "{:x}\r\n", chunk.len()).map_err(|_| AllocError)?;
            bytes.extend_from_slice(chunk)?;
            bytes.extend_from_slice(b"\r\n")?;
        }
        start = end;
    }
    bytes.extend_from_slice(b"0\r\n\r\n")
}

fn push_field_if(
    bytes: &mut Vec<u8>,
    is_there: bool,
    field: &'static str,
) -> Result<(), AllocError> {
    if is_there {
        bytes.extend_from_slice(field.as_bytes())?;
    }
    Ok(())
}

fn push_head(bytes: &mut Vec<u8>, draft: &Draft, framing: Framing) -> Result<(), AllocError> {
    write!(bytes, "{} {} HTTP/1.1\r\n", draft.word, draft.target).map_err(|_| AllocError)?;
    bytes.extend_from_slice(b"Host: a\r\n")?;
    bytes.extend_from_slice(draft.fields.as_bytes())?;
    bytes.extend_from_slice(draft.accept.as_bytes())?;
    push_field_if(bytes, draft.closes, "Connection: close\r\n")?;
    push_field_if(bytes, draft.expects, "Expect: 100-continue\r\n")?;
    match framing {
        Framing::Absent => {}
        Framing::Length => {
            write!(bytes, "Content-Length: {}\r\n", draft.body.len()).map_err(|_| AllocError)?;
        }
        Framing::Chunked => bytes.extend_from_slice(b"Transfer-Encoding: chunked\r\n")?,
    }
    bytes.extend_from_slice(b"\r\n")
}

/// The bytes of a draft.
pub fn letter_of(alloc: Global, draws: &mut Draws, draft: &Draft) -> Result<Letter, AllocError> {
    let framing = drawn_framing(draws, draft);
    let mut bytes = Vec::new(alloc);
    push_head(&mut bytes, draft, framing)?;
    let head_length = bytes.len();
    match framing {
        Framing::Absent => {}
        Framing::Length => bytes.extend_from_slice(draft.body.as_slice())?,
        Framing::Chunked => push_chunks(&mut bytes, draws, draft.body.as_slice())?,
    }
    Ok(Letter {
        bytes,
        head_length,
        announces: framing == Framing::Chunked
            || (framing == Framing::Length && !draft.body.is_empty()),
    })
}
