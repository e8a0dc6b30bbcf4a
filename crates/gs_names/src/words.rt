//! Parts of a field's value.
ghost use Rattle.std.specs.Prelude.{◌≡◌};
ghost use Rattle.gs_names.specs.Words as spec;

use gs_http::trim;

/// Where the first such byte is, or the length.
pub fn position(value: &[u8], byte: u8) -> usize
    ensures { result ≡ spec.position_of byte value.now }
{
    value.iter().position(|b| *b == byte).unwrap_or(value.len())
}

/// The bytes before the first such byte, without the white space around them.
pub fn front_word(value: &[u8], byte: u8) -> &[u8]
    ensures { result.now ≡ spec.front_word byte value.now }
{
    trim(&value[..position(value, byte)])
}

/// The bytes after the first such byte, without the white space around them.
pub fn back_word(value: &[u8], byte: u8) -> &[u8]
    ensures { result.now ≡ spec.back_word byte value.now }
{
    let at = position(value, byte);
    if at < value.len() {
        trim(&value[at + 1..])
    } else {
        trim(&value[value.len()..])
    }
}
