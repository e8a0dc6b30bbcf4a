//! The head of a request.
ghost use Rattle.std.specs.Prelude.{◌≤◌, length, IfOk};
ghost use Rattle.gs_http.specs.Limits.{max_field_name_bytes};
ghost use Rattle.gs_http.specs.Opened.{IsHeadOf};

use crate::fields::keep_fields;
use crate::spans::read_spans;
use http_header::HeaderMap;
use std::alloc::{AllocError, Global};

/// The parts of a head, which lie in its bytes.
#[derive(Drop)]
pub struct Head<'a> {
    pub method: &'a [u8],
    pub target: &'a [u8],
    /// The version is 1.0 or 1.1.
    pub minor: u8,
    /// Each value lies in the bytes of the head, without the white space around it.
    pub fields: HeaderMap<&'a [u8]>,
}

/// The head that these bytes are, where they are one and nothing else. Empty lines may stand
/// before it. Memory is taken for a name that is not standard, and for the list of fields.
pub fn read_head<'a>(alloc: Global, bytes: &'a [u8]) -> Result<Option<Head<'a>>, AllocError>
    requires short { length bytes.now ≤ max_field_name_bytes }
    ensures { IfOk result (IsHeadOf bytes.now) }
{
    let Some(spans) = read_spans(alloc, bytes)? else {
        return Ok(None);
    };
    let fields = keep_fields(alloc, bytes, spans.fields.as_slice())?;
    Ok(Some(Head {
        method: spans.method.of(bytes),
        target: spans.target.of(bytes),
        minor: spans.minor,
        fields,
    }))
}
