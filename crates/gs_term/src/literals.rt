//! The bytes of literals, and the test of a language tag.
ghost use Rattle.std.specs.Prelude.{◌≡◌, ◌+◌, ◌≤◌, ◌<◌, ◌++◌, ◌∷◌, [], length, count_by, IfOk, OnOk, IfSome, IfNone};
ghost use Rattle.std.specs.Str.{str_to_ascii_lowercase as lower_case};
ghost use Rattle.gs_model.specs.Terms.{Typed, Tagged, escaped, is_escaped, escape_of, suffix, is_tag as is_tag_of};
ghost use Rattle.gs_model.specs.Limits.{max_term_bytes};
ghost use Rattle.gs_term.specs.Making.{FitsWithEscapes, literal_len};

use gs_model::MAX_TERM_BYTES;
use std::alloc::{AllocError, Global};

/// The datatype that a canonical text leaves out.
pub const XSD_STRING: &str = "http://www.w3.org/2001/XMLSchema#string";

/// Whether a byte is written with a backslash in a literal.
fn is_escaped_byte(b: u8) -> bool
    ensures { result ≡ is_escaped b }
{
    matches!(b, b'"' | b'\\' | b'\n' | b'\r')
}

/// How many bytes are written with a backslash.
fn escaped_count(lexical: &[u8]) -> usize
    ensures count { result ≡ count_by is_escaped lexical.now }
    ensures bound { result ≤ length lexical.now }
{
    lexical.iter().filter(|b| is_escaped_byte(**b)).count()
}

/// Appends a byte as it stands in a literal.
fn push_escape(bytes: &mut Vec<u8>, b: u8) -> Result<(), AllocError>
    ensures { OnOk result (bytes.new.items ≡ bytes.old.items ++ escape_of b) }
{
    match b {
        b'"' => bytes.extend_from_slice(b"\\\""),
        b'\\' => bytes.extend_from_slice(b"\\\\"),
        b'\n' => bytes.extend_from_slice(b"\\n"),
        b'\r' => bytes.extend_from_slice(b"\\r"),
        other => Ok(bytes.push(other)?),
    }
}

/// Appends the escaped form, where so many bytes are escaped.
fn push_escaped(bytes: &mut Vec<u8>, lexical: &[u8], count: usize) -> Result<(), AllocError>
    requires { count ≡ count_by is_escaped lexical.now }
    ensures { OnOk result (bytes.new.items ≡ bytes.old.items ++ escaped lexical.now) }
{
    if count == 0 {
        return bytes.extend_from_slice(lexical);
    }
    for b in lexical {
        push_escape(bytes, *b)?;
    }
    Ok(())
}

/// How many bytes are escaped, if a literal with so many bytes after its closing quote is not too long.
pub fn fitting_count(lexical: &str, after: usize) -> Option<usize>
    ensures fits { IfSome result (λ n. FitsWithEscapes lexical.now after n) }
    ensures long { IfNone result (max_term_bytes < literal_len lexical.now after) }
{
    if lexical.len() > MAX_TERM_BYTES || after > MAX_TERM_BYTES {
        return None;
    }
    let count = escaped_count(lexical.as_bytes());
    if lexical.len() + count + after + 2 > MAX_TERM_BYTES {
        return None;
    }
    Some(count)
}

/// The bytes of a literal's lexical form in quotes, with room for so many more.
pub fn quoted_bytes(
    alloc: Global,
    lexical: &str,
    count: usize,
    after: usize,
) -> Result<Vec<u8>, AllocError>
    requires count { count ≡ count_by is_escaped lexical.now }
    requires fits { length lexical.now + count + after + 2 ≤ max_term_bytes }
    ensures { IfOk result (λ v. v.items ≡ 34 ∷ escaped lexical.now ++ 34 ∷ []) }
{
    let mut bytes = Vec::with_capacity(alloc, lexical.len() + count + after + 2)?;
    bytes.push(b'"')?;
    push_escaped(&mut bytes, lexical.as_bytes(), count)?;
    bytes.push(b'"')?;
    Ok(bytes)
}

/// Appends what stands after the quote of a literal of this datatype.
pub fn push_datatype(bytes: &mut Vec<u8>, datatype: &str) -> Result<(), AllocError>
    ensures { OnOk result (bytes.new.items ≡ bytes.old.items ++ suffix (Typed datatype.now)) }
{
    if datatype == XSD_STRING {
        return Ok(());
    }
    bytes.extend_from_slice(b"^^<")?;
    bytes.extend_from_slice(datatype.as_bytes())?;
    bytes.push(b'>')?;
    Ok(())
}

/// How many bytes stand after the quote of a literal of this datatype.
pub fn datatype_len(datatype: &str) -> usize
    requires { length datatype.now ≤ max_term_bytes }
    ensures { result ≡ length (suffix (Typed datatype.now)) }
{
    if datatype == XSD_STRING {
        0
    } else {
        datatype.len() + 4
    }
}

/// Appends a tag in lower case.
pub fn push_tag(bytes: &mut Vec<u8>, tag: &[u8]) -> Result<(), AllocError>
    ensures { OnOk result (bytes.new.items ≡ bytes.old.items ++ suffix (Tagged (lower_case tag.now))) }
{
    bytes.push(b'@')?;
    for b in tag {
        bytes.push(b.to_ascii_lowercase())?;
    }
    Ok(())
}

/// Whether these are a language tag once they are in lower case.
pub fn is_tag(tag: &[u8]) -> bool
    ensures { result ≡ is_tag_of (lower_case tag.now) }
{
    let mut digits = false;
    let mut begun = false;
    for b in tag {
        let c = b.to_ascii_lowercase();
        if matches!(c, b'a'..=b'z') || (digits && matches!(c, b'0'..=b'9')) {
            begun = true;
        } else if c == b'-' && begun {
            digits = true;
            begun = false;
        } else {
            return false;
        }
    }
    begun
}
