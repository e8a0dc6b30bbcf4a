//! Texts without the numbers of commits, which are others where others make commits too.
use std::alloc::{AllocError, Global};

const FIELD: &[u8] = b"Store-Commit: ";

/// Adds a line, without the number where it is one of a commit.
fn push_line(text: &mut Vec<u8>, line: &[u8]) -> Result<(), AllocError> {
    if line.starts_with(FIELD) {
        text.extend_from_slice(FIELD)?;
        return text.extend_from_slice(b"\r\n");
    }
    text.extend_from_slice(line)
}

/// The text without these numbers.
pub fn without_numbers(alloc: Global, text: &[u8]) -> Result<Vec<u8>, AllocError> {
    let mut kept = Vec::new(alloc);
    let mut start = 0usize;
    for (at, byte) in text.iter().enumerate() {
        if *byte == b'\n' {
            let next = at.saturating_add(1);
            push_line(&mut kept, text.get(start..next).unwrap_or_default())?;
            start = next;
        }
    }
    push_line(&mut kept, text.get(start..).unwrap_or_default())?;
    Ok(kept)
}
