//! What a head asks for, and the size that a line writes, as text.
use gs_http::Framing;
use gs_names::{Media, ReplyType};
use gs_term::Target;
use gs_verdict::{Asked, Denial, Method, Verdict};
use std::alloc::{AllocError, Global};
use std::str;

fn method_name(method: Method) -> &'static str {
    match method {
        Method::Get => "GET",
        Method::Head => "HEAD",
        Method::Put => "PUT",
        Method::Post => "POST",
        Method::Delete => "DELETE",
        Method::Patch => "PATCH",
    }
}

fn media_name(media: Media) -> &'static str {
    match media {
        Media::Turtle => "turtle",
        Media::NTriples => "n-triples",
        Media::Update => "update",
    }
}

fn reply_name(reply: ReplyType) -> &'static str {
    match reply {
        ReplyType::NTriples => "n-triples",
        ReplyType::Turtle => "turtle",
        ReplyType::NQuads => "n-quads",
    }
}

fn graph_name(graph: &Option<Target>) -> &str {
    match graph {
        None => "store",
        Some(Target::Default) => "default",
        Some(Target::Named(name)) => match str::from_utf8(name.as_bytes()) {
            Ok(text) => text,
            Err(_) => "?",
        },
    }
}

fn close_word(closes: bool) -> &'static str {
    if closes { " close" } else { "" }
}

fn denial_text(alloc: Global, denial: Denial) -> Result<String, AllocError> {
    let close = close_word(denial.closes);
    match denial.allow {
        None => format!(in alloc; "{}{close}", denial.status),
        Some(allow) => format!(in alloc; "{}{close} Allow: {}", denial.status, allow.text()),
    }
}

fn body_text(alloc: Global, framing: Framing) -> Result<String, AllocError> {
    match framing {
        Framing::Nothing => String::from_str(alloc, "nothing"),
        Framing::Bytes(n) => format!(in alloc; "{n}"),
        Framing::Chunked => String::from_str(alloc, "chunked"),
        _ => String::from_str(alloc, "?"),
    }
}

fn since_text(alloc: Global, since: Option<u64>) -> Result<String, AllocError> {
    match since {
        Some(number) => format!(in alloc; " since {number}"),
        None => Ok(String::new(alloc)),
    }
}

fn asked_text(alloc: Global, asked: &Asked) -> Result<String, AllocError> {
    let awaits = if asked.awaits_continue {
        " continue"
    } else {
        ""
    };
    let framing = body_text(alloc, asked.framing)?;
    let since = since_text(alloc, asked.since)?;
    format!(in alloc;
        "{} {} body {} {framing} reply {}{since}{awaits}{}",
        method_name(asked.method),
        graph_name(&asked.graph),
        media_name(asked.body),
        reply_name(asked.reply),
        close_word(asked.closes)
    )
}

/// The size that a line writes, as a case of the input says it.
pub fn size_text(alloc: Global, size: Option<u64>) -> Result<String, AllocError> {
    match size {
        Some(size) => format!(in alloc; "size {size}"),
        None => String::from_str(alloc, "no size"),
    }
}

/// What a head asks for, as a case of the input says it.
pub fn text_of(alloc: Global, verdict: &Verdict) -> Result<String, AllocError> {
    match verdict {
        Verdict::Deny(denial) => denial_text(alloc, *denial),
        Verdict::Ask(asked) => asked_text(alloc, asked),
    }
}
