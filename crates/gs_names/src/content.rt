//! The type of a body.
ghost use Rattle.std.specs.Prelude.{◌≡◌, ◌||◌, List, codes};
ghost use Rattle.std.specs.List.{list_all};
ghost use Rattle.gs_names.specs.Words.{is_same_word, semicolon_parts};
ghost use Rattle.gs_http.specs.Fields.{kept_under};
ghost use Rattle.gs_names.specs.Media as spec;

use crate::media::{BodyType, Media};
use crate::words::{back_word, front_word};
use gs_http::{Only, is_same_word, one_value};
use http_header::HeaderMap;

fn media_named(word: &[u8]) -> Option<Media>
    ensures { result ≡ spec.media_named word.now }
{
    if is_same_word(word, b"text/turtle") {
        Some(Media::Turtle)
    } else if is_same_word(word, b"application/n-triples") {
        Some(Media::NTriples)
    } else if is_same_word(word, b"application/sparql-update") {
        Some(Media::Update)
    } else {
        None
    }
}

fn is_utf8_name(word: &[u8]) -> bool
    ensures { result ≡ (is_same_word word.now (codes "utf-8") || is_same_word word.now (codes "\"utf-8\"")) }
{
    is_same_word(word, b"utf-8") || is_same_word(word, b"\"utf-8\"")
}

fn is_allowed(parameter: &[u8]) -> bool
    ensures { result ≡ spec.is_allowed_charset parameter.now }
{
    !is_same_word(front_word(parameter, b'='), b"charset")
        || is_utf8_name(back_word(parameter, b'='))
}

fn all_allow(value: &[u8]) -> bool
    ensures { result ≡ list_all spec.is_allowed_charset (semicolon_parts value.now) }
{
    value.split(|b| *b == b';').all(|p| is_allowed(p))
}

fn media(value: &[u8]) -> Option<Media>
    ensures { result ≡ spec.media_of value.now }
{
    if all_allow(value) {
        media_named(front_word(value, b';'))
    } else {
        None
    }
}

/// The type of the body.
pub fn body_type(kept: &HeaderMap<&[u8]>) -> BodyType
    ensures { result ≡ spec.body_type_of (kept_under kept.now (codes "content-type")) }
{
    match one_value(kept, "content-type") {
        Only::Absent => BodyType::Absent,
        Only::One(value) => match media(value) {
            None => BodyType::Refused,
            Some(media) => BodyType::Known(media),
        },
        Only::Several => BodyType::Refused,
    }
}
