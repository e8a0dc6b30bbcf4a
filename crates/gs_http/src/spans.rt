//! Where the parts of a head lie.
ghost use Rattle.std.specs.Prelude.{◌≡◌, ◌==◌, ◌/◌, length, IfOk, IfSome, option_map};
ghost use Rattle.gs_http.specs.Heads.{head_of, parts_of};
ghost use Rattle.gs_http.specs.Spans.{parts_at, AreWithinBytes};

use httparse::Status;
use httparse::spans::{EMPTY_HEADER_SPAN, HeaderSpan, Span, parse_request};
use std::alloc::{AllocError, Global};

/// Where the parts of a head lie in its bytes.
#[derive(Drop)]
pub struct HeadSpans {
    pub method: Span,
    pub target: Span,
    /// The version is 1.0 or 1.1.
    pub minor: u8,
    pub fields: Vec<HeaderSpan>,
}

/// The most fields that a head of these bytes can have: each takes three bytes at least, for a byte
/// of its name, the colon and LF.
fn most_fields(head: &[u8]) -> usize
    ensures { result ≡ length head.now / 3 }
{
    head.len() / 3
}

/// Whether a head that is so many bytes long is all of these.
fn is_whole_head(len: usize, head: &[u8]) -> bool
    ensures { result ≡ (len == length head.now) }
{
    len == head.len()
}

/// Reads bytes that are a head and nothing else, whatever its number of fields.
pub fn read_spans(alloc: Global, head: &[u8]) -> Result<Option<HeadSpans>, AllocError>
    ensures value { IfOk result
        (λ r. option_map (parts_at head.now) r ≡ option_map parts_of (head_of head.now)) }
    ensures within { IfOk result (λ r. IfSome r (AreWithinBytes head.now)) }
{
    let mut fields = Vec::from_elem(alloc, EMPTY_HEADER_SPAN, most_fields(head))?;
    match parse_request(head, fields.as_mut_slice()) {
        Ok(Status::Complete(parsed)) => {
            if !is_whole_head(parsed.len, head) {
                return Ok(None);
            }
            fields.truncate(parsed.headers);
            Ok(Some(HeadSpans {
                method: parsed.method,
                target: parsed.path,
                minor: parsed.version,
                fields,
            }))
        }
        Ok(Status::Partial) => Ok(None),
        Err(_) => Ok(None),
    }
}
