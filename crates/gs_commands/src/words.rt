//! The words and the numbers of a line.
ghost use Rattle.std.specs.Prelude.{◌≡◌, ◌^◌, ◌≤◌, ◌-◌, ◌+◌, ◌<◌, ◌++◌, ◌∷◌, [], List, ℕ, MatchOption, length};
ghost use Rattle.gs_model.specs.Texts.{number_of, split_first};
ghost use Rattle.gs_commands.specs.Found.{Finds, SaysNumber};

use itoa::Buffer;

/// What stands before the first of these bytes, and what after it.
pub fn split(bytes: &[u8], at: u8) -> (&[u8], &[u8])
    ensures before { result.0.now ≡ (split_first at bytes.now).0 }
    ensures after { result.1.now ≡ (split_first at bytes.now).1 }
{
    for (i, b) in bytes.iter().enumerate() {
        if *b == at {
            return (&bytes[..i], &bytes[i + 1..]);
        }
    }
    (bytes, &bytes[bytes.len()..])
}

/// What stands after a word that begins the bytes.
pub fn after<'a>(bytes: &'a [u8], word: &[u8]) -> Option<&'a [u8]>
    ensures { MatchOption result ((rest : List ℕ) → ¬ (bytes.now ≡ word.now ++ rest))
        (λ rest. bytes.now ≡ word.now ++ rest.now) }
{
    if bytes.len() < word.len() {
        return None;
    }
    let (front, rest) = bytes.split_at(word.len());
    if front == word { Some(rest) } else { None }
}

/// The number of these digits, if it fits.
pub fn decoded(digits: &[u8]) -> Option<u64>
    ensures { MatchOption result (2 ^ 64 ≤ number_of digits.now) (λ n. n ≡ number_of digits.now) }
{
    let mut value = 0u64;
    for b in digits {
        let Some(tens) = value.checked_mul(10) else {
            return None;
        };
        let Some(next) = tens.checked_add(u64::from(b.saturating_sub(48))) else {
            return None;
        };
        value = next;
    }
    Some(value)
}

/// The number of at most so much that has this very text: decimal, without leading zeros.
pub fn number(text: &[u8], most: u64) -> Option<u64>
    ensures { Finds (SaysNumber most) text.now result }
{
    let Some(n) = decoded(text) else {
        return None;
    };
    if n > most {
        return None;
    }
    let mut buffer = Buffer::new();
    if buffer.format(n).as_bytes() == text {
        Some(n)
    } else {
        None
    }
}
