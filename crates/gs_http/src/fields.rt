//! The fields of a head by name.
ghost use Rattle.std.specs.Prelude.{◌≡◌, length, map, All, IfOk, OnOk};
ghost use Rattle.httparse.specs.Spans.{IsHeaderWithin, header_bytes, span_bytes};
ghost use Rattle.http_header.specs.HeaderMap.{append};
ghost use Rattle.http_header.specs.FieldName.{IsFieldName};
ghost use Rattle.gs_http.specs.Fields.{KeepsFields};

use http_header::{HeaderMap, HeaderName, HeaderNameError};
use httparse::spans::HeaderSpan;
use std::alloc::{AllocError, Global};

/// Keeps each value under its name.
pub fn keep_fields<'a>(
    alloc: Global,
    head: &'a [u8],
    fields: &[HeaderSpan],
) -> Result<HeaderMap<&'a [u8]>, AllocError>
    requires within { All (IsHeaderWithin (length head.now)) fields.now }
    requires named { All (λ f. IsFieldName (span_bytes head.now f.name)) fields.now }
    ensures { IfOk result (λ m. KeepsFields m (map (header_bytes head.now) fields.now)) }
{
    let mut kept = HeaderMap::empty(alloc);
    for field in fields {
        let name = match HeaderName::from_bytes(alloc, field.name.of(head)) {
            Ok(name) => name,
            Err(HeaderNameError::OutOfMemory) => return Err(AllocError),
            Err(HeaderNameError::Invalid) => unreachable!(),
        };
        let value = field.value.of(head);
        add(&mut kept, name, value)?;
    }
    Ok(kept)
}

/// Adds a value after those of its name. A head has far fewer fields than a map can keep.
fn add<'a>(
    kept: &mut HeaderMap<&'a [u8]>,
    name: HeaderName,
    value: &'a [u8],
) -> Result<(), AllocError>
    ensures { OnOk result (kept.new ≡ append kept.old name value.entry) }
{
    match kept.append(name, value) {
        Ok(_) => Ok(()),
        Err(_) => Err(AllocError),
    }
}
