//! The character at the front of bytes (UTF-8, RFC 3629).
ghost use Rattle.std.specs.Prelude.{◌≡◌, ◌<◌, ◌≤◌, length, drop};
ghost use Rattle.gs_automaton.specs.Symbols.{IsFront};

use gs_machine::Decoder;

/// What stands at the front of bytes.
#[derive(Clone, Copy, Debug)]
pub enum Symbol {
    /// A character, and how many bytes it has.
    Character(char, usize),
    /// Bytes that begin no character, whatever follows.
    Bad,
    /// Nothing, or a prefix of a character.
    Short,
}

/// The front of bytes of which the first is no ASCII.
fn wide_front(text: &[u8]) -> Symbol
    ensures { IsFront result text.now }
{
    let mut decoder = Decoder::new();
    for (i, byte) in text.iter().enumerate() {
        if let Some(code) = decoder.decode(*byte) {
            return match char::from_u32(code) {
                Some(c) => Symbol::Character(c, i + 1),
                None => Symbol::Bad,
            };
        }
    }
    Symbol::Short
}

/// The character at the front.
#[inline]
fn front(text: &[u8]) -> Symbol
    ensures { IsFront result text.now }
{
    if text.len() == 0 {
        return Symbol::Short;
    }
    let byte = text[0];
    if byte < 128 {
        Symbol::Character(char::from(byte), 1)
    } else {
        wide_front(text)
    }
}

/// The character after so many bytes.
#[inline]
pub fn front_at(text: &[u8], at: usize) -> Symbol
    requires { at ≤ length text.now }
    ensures { IsFront result (drop at text.now) }
{
    front(&text[at..])
}
