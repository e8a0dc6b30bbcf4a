//! Answers and what the model says of them, in words and compared.
use crate::outcomes::Said;
use gs_drawn_events::{TRIPLES, made_name, push_line};
use gs_event::Answer;
use gs_graph_models::{Set, quads_of};
use gs_term::GraphName;
use gs_texts::Lines;
use std::alloc::{AllocError, Global};

fn lines_of(alloc: Global, triples: Set) -> Result<Vec<u8>, AllocError> {
    let mut lines = Vec::new(alloc);
    for number in 0..TRIPLES {
        if triples.has(number) {
            push_line(&mut lines, number)?;
        }
    }
    Ok(lines)
}

fn lines_words(alloc: Global, lines: &[u8], is_end: bool) -> Result<String, AllocError> {
    let text = str::from_utf8(lines).unwrap_or("no text");
    let last = if is_end { "end" } else { "more" };
    format!(in alloc; "lines {text}{last}")
}

/// What the model says, in words.
pub fn said_words(alloc: Global, said: &Said) -> Result<String, AllocError> {
    match said {
        Said::Opened(number) => format!(in alloc; "opened {number}"),
        Said::Staged => String::from_str(alloc, "staged"),
        Said::Status(status, commit) => format!(in alloc; "status {status}, commit {commit}"),
        Said::Made(request, number, commit) => {
            let name = made_name(alloc, *request, *number)?;
            format!(in alloc; "status 201 {name}, commit {commit}")
        }
        Said::Pinned(status, commit) => format!(in alloc; "pinned {status}, commit {commit}"),
        Said::Lines(triples, is_end) => {
            lines_words(alloc, lines_of(alloc, *triples)?.as_slice(), *is_end)
        }
        Said::Quads(sections, is_end) => {
            let lines = quads_of(alloc, sections.as_slice())?;
            lines_words(alloc, lines.as_slice(), *is_end)
        }
        Said::Cancelled => String::from_str(alloc, "cancelled"),
        Said::Refused(refusal) => {
            let name = refusal.name();
            format!(in alloc; "refused {name}")
        }
    }
}

/// An answer in the same words.
pub fn answer_words(alloc: Global, answer: &Answer) -> Result<String, AllocError> {
    match answer {
        Answer::Opened(number) => format!(in alloc; "opened {number}"),
        Answer::Staged => String::from_str(alloc, "staged"),
        Answer::Status(status, None, commit) => {
            format!(in alloc; "status {status}, commit {commit}")
        }
        Answer::Status(status, Some(name), commit) => {
            let text = str::from_utf8(name.as_bytes()).unwrap_or("no text");
            format!(in alloc; "status {status} {text}, commit {commit}")
        }
        Answer::Pinned(status, commit) => format!(in alloc; "pinned {status}, commit {commit}"),
        Answer::Lines(lines, is_end) => lines_words(alloc, lines.bytes().unwrap_or(b"?"), *is_end),
        Answer::Cancelled => String::from_str(alloc, "cancelled"),
        Answer::Reclaimed(freed, left) => {
            let rest = if *left { "more" } else { "done" };
            format!(in alloc; "reclaimed {freed} {rest}")
        }
        Answer::Refused(refusal) => {
            let name = refusal.name();
            format!(in alloc; "refused {name}")
        }
    }
}

fn is_same_name(a: &Option<GraphName>, b: &Option<GraphName>) -> bool {
    match (a, b) {
        (None, None) => true,
        (Some(a), Some(b)) => a.as_bytes() == b.as_bytes(),
        _ => false,
    }
}

/// The same answer, with its lines put together.
pub fn put_together(answer: Answer) -> Answer {
    match answer {
        Answer::Lines(lines, is_end) => Answer::Lines(Lines::of(lines.into_bytes()), is_end),
        other => other,
    }
}

/// Whether two answers are the same, whose lines are put together.
pub fn is_same(a: &Answer, b: &Answer) -> bool {
    match (a, b) {
        (Answer::Opened(a), Answer::Opened(b)) => a == b,
        (Answer::Staged, Answer::Staged) => true,
        (Answer::Status(a, name, commit), Answer::Status(b, other, number)) => {
            a == b && commit == number && is_same_name(name, other)
        }
        (Answer::Pinned(a, commit), Answer::Pinned(b, number)) => a == b && commit == number,
        (Answer::Lines(lines, is_end), Answer::Lines(others, ends)) => {
            matches!((lines.bytes(), others.bytes()), (Some(a), Some(b)) if a == b && is_end == ends)
        }
        (Answer::Cancelled, Answer::Cancelled) => true,
        (Answer::Reclaimed(a, left), Answer::Reclaimed(b, other)) => a == b && left == other,
        (Answer::Refused(a), Answer::Refused(b)) => a == b,
        _ => false,
    }
}

fn is_named(
    alloc: Global,
    name: &GraphName,
    request: u64,
    number: u64,
) -> Result<bool, AllocError> {
    let text = made_name(alloc, request, number)?;
    Ok(name.as_bytes() == text.as_bytes())
}

/// Whether an answer, whose lines are put together, is what the model says.
pub fn is_said(alloc: Global, answer: &Answer, said: &Said) -> Result<bool, AllocError> {
    match (answer, said) {
        (Answer::Opened(a), Said::Opened(b)) => Ok(a == b),
        (Answer::Staged, Said::Staged) => Ok(true),
        (Answer::Status(a, None, commit), Said::Status(b, own)) => Ok(a == b && commit == own),
        (Answer::Status(201, Some(name), commit), Said::Made(request, number, own)) => {
            Ok(commit == own && is_named(alloc, name, *request, *number)?)
        }
        (Answer::Pinned(a, commit), Said::Pinned(b, own)) => Ok(a == b && commit == own),
        (Answer::Lines(lines, is_end), Said::Lines(triples, ends)) => {
            let wanted = lines_of(alloc, *triples)?;
            Ok(is_end == ends && lines.bytes() == Some(wanted.as_slice()))
        }
        (Answer::Lines(lines, is_end), Said::Quads(sections, ends)) => {
            let wanted = quads_of(alloc, sections.as_slice())?;
            Ok(is_end == ends && lines.bytes() == Some(wanted.as_slice()))
        }
        (Answer::Cancelled, Said::Cancelled) => Ok(true),
        (Answer::Refused(a), Said::Refused(b)) => Ok(a == b),
        _ => Ok(false),
    }
}
