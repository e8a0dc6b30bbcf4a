//! The texts of replies (RFC 9110, RFC 9112), for the model.
use crate::datasets::{Dataset, Shown};
use crate::rules::{Lie, Rules};
use gs_drawn_requests::{DEFAULT, GRAPHS, POOL, Triples};
use std::alloc::{AllocError, Global};
use std::io::Write;

pub const CONTINUE: &[u8] = b"HTTP/1.1 100 Continue\r\n\r\n";

/// All graphs by their numbers, in the order of their names, with what stands before the dot of a line:
/// the default graph, and then `<http://e/b>`, which comes before `<http://e/c#d>`, and that before
/// `<http://localhost/graphs/a>`.
const IN_ORDER: [(usize, &str); GRAPHS] = [
    (DEFAULT, ""),
    (2, "<http://e/b> "),
    (3, "<http://e/c#d> "),
    (1, "<http://localhost/graphs/a> "),
];

fn phrase(status: u16) -> &'static str {
    match status {
        201 => "Created",
        204 => "No Content",
        400 => "Bad Request",
        404 => "Not Found",
        405 => "Method Not Allowed",
        406 => "Not Acceptable",
        412 => "Precondition Failed",
        413 => "Payload Too Large",
        415 => "Unsupported Media Type",
        422 => "Unprocessable Entity",
        501 => "Not Implemented",
        _ => "?",
    }
}

/// Adds the last fields and the end of a head.
fn push_end(text: &mut Vec<u8>, commit: Option<u64>, closes: bool) -> Result<(), AllocError> {
    if let Some(number) = commit {
        write!(text, "Store-Commit: {number}\r\n").map_err(|_| AllocError)?;
    }
    if closes {
        text.extend_from_slice(b"Connection: close\r\n")?;
    }
    text.extend_from_slice(b"\r\n")
}

/// Adds a reply without a body; `allow` is empty where it has no such field. It has a commit number where the store has
/// decided its status.
pub fn push_reply(
    text: &mut Vec<u8>,
    status: u16,
    allow: &str,
    commit: Option<u64>,
    closes: bool,
) -> Result<(), AllocError> {
    write!(text, "HTTP/1.1 {status} {}\r\n", phrase(status)).map_err(|_| AllocError)?;
    if status != 204 {
        text.extend_from_slice(b"Content-Length: 0\r\n")?;
    }
    if !allow.is_empty() {
        write!(text, "Allow: {allow}\r\n").map_err(|_| AllocError)?;
    }
    push_end(text, commit, closes)
}

/// What the lines of a reply are.
fn type_of(shown: Shown, is_turtle: bool) -> &'static str {
    match shown {
        Shown::All(_) => "application/n-quads",
        _ if is_turtle => "text/turtle",
        _ => "application/n-triples",
    }
}

/// Adds the lines of a graph. Before the dot of each comes this name, in brackets and with a space, or
/// nothing.
fn push_graph(
    lines: &mut Vec<Vec<u8>>,
    alloc: Global,
    triples: Triples,
    name: &str,
) -> Result<(), AllocError> {
    for entry in &POOL {
        if !triples.has(entry) {
            continue;
        }
        let (_, line, _) = entry;
        let mut bytes = Vec::new(alloc);
        let front = line.strip_suffix(".").unwrap_or(line);
        bytes.extend_from_slice(front.as_bytes())?;
        bytes.extend_from_slice(name.as_bytes())?;
        bytes.extend_from_slice(b".\n")?;
        lines.push(bytes)?;
    }
    Ok(())
}

/// Adds the lines of all graphs.
fn push_all(lines: &mut Vec<Vec<u8>>, rules: &Rules, dataset: &Dataset) -> Result<(), AllocError> {
    for (number, name) in &IN_ORDER {
        let triples = dataset.graph(*number).unwrap_or(Triples::none());
        let said = match rules.lie {
            Lie::LinesHaveNoName => "",
            _ => *name,
        };
        push_graph(lines, rules.alloc, triples, said)?;
    }
    Ok(())
}

/// The lines that a GET shows, in their order.
fn lines_of(rules: &Rules, shown: Shown) -> Result<Vec<Vec<u8>>, AllocError> {
    let mut lines = Vec::new(rules.alloc);
    match shown {
        Shown::Missing => {}
        Shown::One(triples) => push_graph(&mut lines, rules.alloc, triples, "")?,
        Shown::All(dataset) => push_all(&mut lines, rules, &dataset)?,
    }
    Ok(lines)
}

/// Adds these lines as a chunk, if there are some.
fn push_chunk(text: &mut Vec<u8>, lines: &[u8]) -> Result<(), AllocError> {
    if lines.is_empty() {
        return Ok(());
    }
    write!(text, "{:x}\r\n", lines.len()).map_err(|_| AllocError)?;
    text.extend_from_slice(lines)?;
    text.extend_from_slice(b"\r\n")
}

/// Adds a chunk for each piece, and the last one.
fn push_lines(text: &mut Vec<u8>, rules: &Rules, lines: &[Vec<u8>]) -> Result<(), AllocError> {
    let mut chunk = Vec::new(rules.alloc);
    let mut count = 0u32;
    for line in lines {
        chunk.extend_from_slice(line.as_slice())?;
        count = count.saturating_add(1);
        if count == rules.piece {
            push_chunk(text, chunk.as_slice())?;
            chunk.clear();
            count = 0;
        }
    }
    push_chunk(text, chunk.as_slice())?;
    text.extend_from_slice(b"0\r\n\r\n")
}

/// What a GET or a HEAD is answered by.
#[derive(Clone, Copy, Drop)]
pub struct Showing {
    pub shown: Shown,
    /// The number of the last commit before it.
    pub commit: u64,
    pub is_turtle: bool,
    pub closes: bool,
}

/// Adds the reply to a HEAD: the head of a reply with lines, where something is there.
pub fn push_look(text: &mut Vec<u8>, showing: &Showing) -> Result<(), AllocError> {
    let Showing {
        shown,
        commit,
        is_turtle,
        closes,
    } = *showing;
    if shown == Shown::Missing {
        return push_reply(text, 404, "", Some(commit), closes);
    }
    let media = type_of(shown, is_turtle);
    write!(text, "HTTP/1.1 200 OK\r\nContent-Type: {media}\r\n").map_err(|_| AllocError)?;
    text.extend_from_slice(b"Transfer-Encoding: chunked\r\n")?;
    push_end(text, Some(commit), closes)
}

/// Adds the reply to a GET.
pub fn push_read(text: &mut Vec<u8>, rules: &Rules, showing: &Showing) -> Result<(), AllocError> {
    push_look(text, showing)?;
    if showing.shown == Shown::Missing {
        return Ok(());
    }
    let lines = lines_of(rules, showing.shown)?;
    push_lines(text, rules, lines.as_slice())
}

/// The status of a GET or HEAD.
pub fn read_status(shown: Shown) -> u16 {
    if shown == Shown::Missing { 404 } else { 200 }
}

/// How many turns of a GET come before the one that writes: the one that pins, and one for each piece.
/// Where there is no line there is one piece.
pub fn read_turns(rules: &Rules, shown: Shown) -> usize {
    let count = match shown {
        Shown::Missing => return 1,
        Shown::One(triples) => triples.count(),
        Shown::All(dataset) => dataset.count(),
    };
    let piece = usize::try_from(rules.piece).unwrap_or_default();
    let rounded = count.saturating_add(piece.saturating_sub(1));
    let pieces = rounded.checked_div(piece).unwrap_or_default();
    pieces.max(1).saturating_add(1)
}
