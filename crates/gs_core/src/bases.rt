//! The base of a store.
ghost use Rattle.std.specs.Prelude.{◌≡◌};
ghost use Rattle.std.specs.List.{list_all};
ghost use Rattle.gs_model.specs.Bases.{is_base as is_base_text, is_base_char as is_base_char_of};

fn is_base_char(b: u8) -> bool
    ensures { result ≡ is_base_char_of b }
{
    matches!(b, b'A'..=b'Z' | b'a'..=b'z' | b'0'..=b'9' | b'-' | b'.' | b':' | b'[' | b']')
}

/// Whether a text may be the base of a store: `http://`, and then 1 to 249 of letters, digits,
/// `.`, `-`, `:`, `[` and `]`.
pub fn is_base(text: &str) -> bool
    ensures { result ≡ is_base_text text.now }
{
    let bytes = text.as_bytes();
    if bytes.len() < 8 || 256 < bytes.len() {
        return false;
    }
    bytes.starts_with(b"http://") && are_base_chars(&bytes[7..])
}

fn are_base_chars(bytes: &[u8]) -> bool
    ensures { result ≡ list_all is_base_char_of bytes.now }
{
    bytes.iter().all(|b| is_base_char(*b))
}
