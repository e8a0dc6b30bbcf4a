//! The notation of texts: «ab*20» is ab twenty times, and ‹0A› the byte of that number.
use std::alloc::{AllocError, Global};

/// What stands between the marks of a repeat, as often as it says.
fn push_repeat(alloc: Global, text: &mut String, repeat: &str) -> Result<(), AllocError> {
    let (unit, count) = repeat.rsplit_once('*').unwrap_or((repeat, "1"));
    let count = count.parse::<usize>().unwrap_or_default();
    text.push_str(unit.repeat(alloc, count)?.as_str())
}

/// A text with its repeats written out.
fn written_out(alloc: Global, text: &str) -> Result<String, AllocError> {
    let mut whole = String::new(alloc);
    for piece in text.split('«') {
        match piece.split_once('»') {
            None => whole.push_str(piece)?,
            Some((repeat, rest)) => {
                push_repeat(alloc, &mut whole, repeat)?;
                whole.push_str(rest)?;
            }
        }
    }
    Ok(whole)
}

/// Appends the bytes that a text stands for.
pub fn push_bytes(alloc: Global, bytes: &mut Vec<u8>, text: &str) -> Result<(), AllocError> {
    let whole = written_out(alloc, text)?;
    for piece in whole.as_str().split('‹') {
        match piece.split_once('›') {
            None => bytes.extend_from_slice(piece.as_bytes())?,
            Some((digits, rest)) => {
                bytes.push(u8::from_str_radix(digits, 16).unwrap_or_default())?;
                bytes.extend_from_slice(rest.as_bytes())?;
            }
        }
    }
    Ok(())
}
