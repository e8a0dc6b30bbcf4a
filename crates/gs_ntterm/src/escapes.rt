//! The number of an escape, digit by digit, and its character.
ghost use Rattle.std.specs.Prelude.{◌≡◌, if◌then◌else◌, Some, None};
ghost use Rattle.std.specs.Char.{IsScalar};
ghost use Rattle.std.specs.Option.{SomeIff};
ghost use Rattle.gs_model.specs.Escapes.{is_hex};
ghost use Rattle.gs_ntterm.specs.Classes.{with_digit as with_digit_of};

use gs_chars::hex_value;

/// A number with one hexadecimal digit more, where the character is one.
pub fn with_digit(value: u64, c: u32) -> Option<u64>
    ensures { result ≡ (if is_hex c then Some (with_digit_of value c) else None) }
{
    match hex_value(c) {
        None => None,
        Some(digit) => {
            if value <= 0x10_FFFF {
                Some(value * 16 + u64::from(digit))
            } else {
                Some(value)
            }
        }
    }
}

/// The character of a number.
pub fn char_of(value: u64) -> Option<char>
    ensures { SomeIff result (IsScalar value) value }
{
    if value > 0x10_FFFF {
        return None;
    }
    char::from_u32(value as u32)
}
