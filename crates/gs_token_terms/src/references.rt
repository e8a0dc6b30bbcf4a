//! References that mean themselves under each base, and those that need none.
ghost use Rattle.std.specs.Prelude.{◌≡◌, true, false};
ghost use Rattle.gs_token_terms.specs.References.{ends_scheme, has_scheme, has_dot_after, IsItself};

use gs_iri::is_scheme_char;

/// Whether the first byte that no scheme has is a ':'.
fn ends_scheme(bytes: &[u8]) -> bool
    ensures { result ≡ ends_scheme bytes.now }
{
    for b in bytes {
        if *b == b':' {
            return true;
        }
        if !is_scheme_char(*b) {
            return false;
        }
    }
    false
}

/// Whether a reference has a scheme after its bracket. It looks at no byte after the first that no scheme has.
pub(crate) fn has_scheme(text: &str) -> bool
    ensures { result ≡ has_scheme text.now }
{
    match text.as_bytes() {
        [_, first, rest @ ..] => first.is_ascii_alphabetic() && ends_scheme(rest),
        _ => false,
    }
}

/// Whether a '.' stands right after a '/' or a ':'. It looks at all bytes, so that a compiler may
/// test several at once.
fn has_dot_after_mark(bytes: &[u8]) -> bool
    ensures { result ≡ has_dot_after false bytes.now }
{
    let mut has = false;
    let mut before = 0;
    for b in bytes {
        has |= (*b == b'.') & matches!(before, b'/' | b':');
        before = *b;
    }
    has
}

/// Whether a reference means itself under each base: an absolute IRI none of whose segments begins
/// with a dot (RFC 3986, sections 5.2.2 and 5.2.4). A `false` says nothing.
#[tactic(auto, using(crate::proofs::ReferenceLemmas::is_itself))]
pub(crate) fn means_itself(text: &str) -> bool
    ensures { result ≡ true → IsItself text.now }
{
    gs_iri::is_absolute(text) && !has_dot_after_mark(text.as_bytes())
}
