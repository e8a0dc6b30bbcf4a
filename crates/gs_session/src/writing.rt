//! Texts to a writer.
ghost use Rattle.std.specs.Prelude.{◌≡◌, ℕ, true, take};
ghost use Rattle.std.specs.Io.KnownBytes.{Appends};

use std::io::{ErrorKind, Write};

/// Writes the text, or as much of it as the writer takes in 2^64 - 1 writes; whether that is all. A
/// write that was interrupted is made again.
pub fn write_text<W: Write>(writer: &mut W, text: &[u8]) -> bool
    ensures all { result ≡ true → Appends (W.contents writer.old) (W.contents writer.new) text.now }
    ensures front { (n : ℕ) × Appends (W.contents writer.old) (W.contents writer.new) (take n text.now) }
{
    let mut at = 0;
    for _ in 0..u64::MAX {
        if at == text.len() {
            return true;
        }
        match writer.write(&text[at..]) {
            Ok(0) => return false,
            Ok(count) => at += count,
            Err(error) => {
                if error.kind() != ErrorKind::Interrupted {
                    return false;
                }
            }
        }
    }
    false
}
