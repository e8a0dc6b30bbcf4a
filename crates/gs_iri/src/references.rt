//! A reference cut into its parts, as slices of its text: what parts them is ASCII.
ghost use Rattle.std.specs.Prelude.{◌≡◌, ◌≤◌, ◌<◌, true, IfSome, length, nat_lt};
ghost use Rattle.std.specs.Option.{option_copied};
ghost use Rattle.std.specs.List.{list_all, position_or_len};
ghost use Rattle.std.specs.Str.{IsUtf8};
ghost use Rattle.gs_iri.specs.References.{is_one_of, before, from, rest_after, is_scheme as is_scheme_of, scheme_of, rest_after_scheme, rest_after_slashes, authority_of, rest_after_authority, query_of, rest_after_query, parts_of};

use crate::absolute::{are_scheme_bytes, is_letter};

/// The parts of a reference (RFC 3986, section 3). A part that is undefined is `None`.
#[derive(Clone, Copy)]
pub struct Parts<'a> {
    pub scheme: Option<&'a str>,
    pub authority: Option<&'a str>,
    pub path: &'a str,
    pub query: Option<&'a str>,
    pub fragment: Option<&'a str>,
}

/// How many bytes stand before the first of these.
fn find_stop(bytes: &[u8], stops: &[u8]) -> usize
    ensures place { result ≡ position_or_len (is_one_of stops.now) bytes.now }
    ensures within { result ≤ length bytes.now }
{
    for (i, b) in bytes.iter().enumerate() {
        if stops.contains(b) {
            return i;
        }
    }
    bytes.len()
}

/// The text up to the first of these ASCII bytes, and the text from there on.
pub fn cut<'a>(text: &'a str, stops: &[u8]) -> (&'a str, &'a str)
    requires { list_all (λ b. nat_lt b 128) stops.now ≡ true }
    ensures front { result.0.now ≡ before stops.now text.now }
    ensures back { result.1.now ≡ from stops.now text.now }
{
    text.split_at(find_stop(text.as_bytes(), stops))
}

/// What stands after an ASCII byte, where the text begins with it.
#[tactic(auto, unfolding(crate::specs::References::rest_after))]
pub fn after(text: &str, mark: u8) -> Option<&str>
    requires { mark < 128 }
    ensures value { option_copied result ≡ rest_after mark text.now }
    ensures text { IfSome result (λ rest. IsUtf8 rest.now) }
{
    match text.as_bytes().first() {
        Some(first) if *first == mark => Some(&text[1..]),
        _ => None,
    }
}

#[tactic(auto, unfolding(crate::specs::References::is_scheme))]
fn is_scheme(bytes: &[u8]) -> bool
    ensures { result ≡ is_scheme_of bytes.now }
{
    match bytes.split_first() {
        None => false,
        Some((first, rest)) => is_letter(*first) && are_scheme_bytes(rest),
    }
}

#[tactic(auto, unfolding(crate::specs::References::scheme_of, crate::specs::References::rest_after_scheme, crate::specs::References::has_scheme))]
fn cut_scheme(text: &str) -> (Option<&str>, &str)
    ensures front { option_copied result.0 ≡ scheme_of text.now }
    ensures back { result.1.now ≡ rest_after_scheme text.now }
{
    let (front, back) = cut(text, b":");
    match after(back, b':') {
        Some(rest) if is_scheme(front.as_bytes()) => (Some(front), rest),
        _ => (None, text),
    }
}

#[tactic(auto, unfolding(crate::specs::References::rest_after_slashes))]
fn after_slashes(text: &str) -> Option<&str>
    ensures { option_copied result ≡ rest_after_slashes text.now }
{
    match after(text, b'/') {
        None => None,
        Some(rest) => after(rest, b'/'),
    }
}

#[tactic(auto, unfolding(crate::specs::References::authority_of, crate::specs::References::rest_after_authority))]
fn cut_authority(text: &str) -> (Option<&str>, &str)
    ensures front { option_copied result.0 ≡ authority_of text.now }
    ensures back { result.1.now ≡ rest_after_authority text.now }
{
    match after_slashes(text) {
        None => (None, text),
        Some(rest) => {
            let (authority, back) = cut(rest, b"/?#");
            (Some(authority), back)
        }
    }
}

#[tactic(auto, unfolding(crate::specs::References::query_of, crate::specs::References::rest_after_query))]
fn cut_query(text: &str) -> (Option<&str>, &str)
    ensures front { option_copied result.0 ≡ query_of text.now }
    ensures back { result.1.now ≡ rest_after_query text.now }
{
    match after(text, b'?') {
        None => (None, text),
        Some(rest) => {
            let (query, back) = cut(rest, b"#");
            (Some(query), back)
        }
    }
}

/// Cuts a reference into its parts. Linear in the bytes of the reference.
#[tactic(auto, unfolding(crate::specs::References::parts_of, crate::specs::References::path_of, crate::specs::References::rest_after_path, crate::specs::References::fragment_of))]
pub fn cut_parts(text: &str) -> Parts<'_>
    ensures scheme { option_copied result.scheme ≡ (parts_of text.now).scheme }
    ensures authority { option_copied result.authority ≡ (parts_of text.now).authority }
    ensures path { result.path.now ≡ (parts_of text.now).path }
    ensures query { option_copied result.query ≡ (parts_of text.now).query }
    ensures fragment { option_copied result.fragment ≡ (parts_of text.now).fragment }
{
    let (scheme, after_scheme) = cut_scheme(text);
    let (authority, after_authority) = cut_authority(after_scheme);
    let (path, after_path) = cut(after_authority, b"?#");
    let (query, after_query) = cut_query(after_path);
    let fragment = after(after_query, b'#');
    Parts {
        scheme,
        authority,
        path,
        query,
        fragment,
    }
}
