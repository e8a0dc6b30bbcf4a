//! The test whether a text is an absolute IRI, on its bytes: what is excluded is ASCII.
ghost use Rattle.std.specs.Prelude.{◌≡◌};
ghost use Rattle.std.specs.List.{list_all};
ghost use Rattle.gs_model.specs.Characters.{is_iri_char};
ghost use Rattle.gs_model.specs.Iris.{is_absolute as is_absolute_text, is_letter as is_letter_of, is_scheme_char as is_scheme_char_of, is_scheme_rest as is_scheme_rest_of};

/// A letter of ASCII.
#[inline]
pub fn is_letter(b: u8) -> bool
    ensures { result ≡ is_letter_of b }
{
    b.is_ascii_alphabetic()
}

/// A byte that may go on with a scheme.
#[inline]
pub fn is_scheme_char(b: u8) -> bool
    ensures { result ≡ is_scheme_char_of b }
{
    matches!(b, b'A'..=b'Z' | b'a'..=b'z' | b'0'..=b'9' | b'+' | b'-' | b'.')
}

/// A byte of an IRI character: those that are excluded are ASCII.
fn is_iri_byte(b: u8) -> bool
    ensures { result ≡ is_iri_char b }
{
    !matches!(b, 0..=b' ' | b'"' | b'<' | b'>' | b'\\' | b'^' | b'`' | b'{'..=b'}')
}

/// Whether all are bytes of IRI characters. It looks at all of them, so that a compiler may test
/// several at once.
pub fn are_iri_bytes(bytes: &[u8]) -> bool
    ensures { result ≡ list_all is_iri_char bytes.now }
{
    let mut are = true;
    for b in bytes {
        are &= is_iri_byte(*b);
    }
    are
}

/// Whether all may go on with a scheme.
pub fn are_scheme_bytes(bytes: &[u8]) -> bool
    ensures { result ≡ list_all is_scheme_char_of bytes.now }
{
    bytes.iter().all(|b| is_scheme_char(*b))
}

/// The rest of a scheme, `:`, and IRI characters.
fn is_scheme_rest(bytes: &[u8]) -> bool
    ensures { result ≡ is_scheme_rest_of bytes.now }
{
    for (i, b) in bytes.iter().enumerate() {
        if *b == b':' {
            return are_iri_bytes(&bytes[i + 1..]);
        }
        if !is_scheme_char(*b) {
            return false;
        }
    }
    false
}

/// Whether a text is an absolute IRI (RFC 3986, section 4.3, on the characters of RFC 3987): a
/// scheme, `:`, and then IRI characters only. Percent signs are not tested, and a fragment may
/// stand. One pass over the bytes.
pub fn is_absolute(text: &str) -> bool
    ensures { result ≡ is_absolute_text text.now }
{
    match text.as_bytes().split_first() {
        None => false,
        Some((first, rest)) => is_letter(*first) && is_scheme_rest(rest),
    }
}
