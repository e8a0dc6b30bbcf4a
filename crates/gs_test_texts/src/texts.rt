//! Bytes as a line of an example writes them, and a line in which two texts differ.
use std::alloc::AllocError;
use std::str;

/// The byte that these two digits write.
fn byte_of(digits: Option<&str>) -> Option<u8> {
    match u8::from_str_radix(digits?, 16) {
        Ok(byte) => Some(byte),
        Err(_) => None,
    }
}

/// What follows a backslash: the byte that it writes, and what comes after; none where it is none of
/// the four forms.
fn escape(text: &str) -> Option<(u8, &str)> {
    if let Some(after) = text.strip_prefix("r") {
        return Some((b'\r', after));
    }
    if let Some(after) = text.strip_prefix("n") {
        return Some((b'\n', after));
    }
    if let Some(after) = text.strip_prefix("t") {
        return Some((b'\t', after));
    }
    let digits = text.strip_prefix("x")?;
    Some((byte_of(digits.get(..2))?, digits.get(2..)?))
}

/// Adds the bytes of a text with escapes.
fn push_escaped(bytes: &mut Vec<u8>, text: &str) -> Result<(), AllocError> {
    let mut is_first = true;
    for part in text.split('\\') {
        if is_first {
            is_first = false;
            bytes.extend_from_slice(part.as_bytes())?;
            continue;
        }
        match escape(part) {
            Some((byte, after)) => {
                bytes.push(byte)?;
                bytes.extend_from_slice(after.as_bytes())?;
            }
            None => {
                bytes.push(b'\\')?;
                bytes.extend_from_slice(part.as_bytes())?;
            }
        }
    }
    Ok(())
}

/// Adds the bytes of a number, a space, and a text with escapes: that text so many times. Whether the
/// line is such a one; where it is none, nothing is added.
fn push_repeated(bytes: &mut Vec<u8>, line: &str) -> Result<bool, AllocError> {
    let Some((number, text)) = line.split_once(' ') else {
        return Ok(false);
    };
    let Ok(count) = number.parse::<u32>() else {
        return Ok(false);
    };
    for _ in 0..count {
        push_escaped(bytes, text)?;
    }
    Ok(true)
}

/// Adds the bytes of a line, as its first sign says; whether it says any.
pub fn push_bytes(bytes: &mut Vec<u8>, line: &str) -> Result<bool, AllocError> {
    if let Some(text) = line.strip_prefix("+") {
        push_escaped(bytes, text)?;
        return Ok(true);
    }
    if let Some(repeated) = line.strip_prefix("*") {
        return push_repeated(bytes, repeated);
    }
    let text = line.strip_prefix(" ").unwrap_or(line);
    bytes.extend_from_slice(text.as_bytes())?;
    bytes.extend_from_slice(b"\r\n")?;
    Ok(true)
}

/// How many bytes both have at their start alike.
fn common(one: &[u8], other: &[u8]) -> usize {
    let mut count = 0usize;
    for (a, b) in one.iter().zip(other) {
        if a != b {
            return count;
        }
        count = count.saturating_add(1);
    }
    count
}

/// The line of what was written that is not what is to be written.
pub fn other_line<'a>(written: &'a [u8], text: &[u8]) -> &'a str {
    let count = common(written, text);
    let mut start = 0usize;
    for (at, byte) in written.iter().enumerate() {
        if *byte == b'\n' && at < count {
            start = at.saturating_add(1);
        }
        if *byte == b'\n' && count <= at {
            return line_between(written, start, at);
        }
    }
    line_between(written, start, written.len())
}

/// These bytes as a text without its end of line.
fn line_between(bytes: &[u8], start: usize, end: usize) -> &str {
    let line = bytes.get(start..end).unwrap_or_default();
    match str::from_utf8(line) {
        Ok(text) => text.trim_end(),
        Err(_) => "no text",
    }
}
