//! The type of a reply.
ghost use Rattle.std.specs.Prelude.{◌≡◌, ◌==◌, List, codes};
ghost use Rattle.std.specs.List.{list_all, list_any};
ghost use Rattle.std.specs.Char.{is_ascii_digit};
ghost use Rattle.gs_model.specs.Terms.{digit};
ghost use Rattle.gs_http.specs.Fields.{kept_under};
ghost use Rattle.gs_http.specs.Connections.{elements_of};
ghost use Rattle.gs_names.specs.Words.{semicolon_parts};
ghost use Rattle.gs_names.specs.Accepts as spec;
ghost use Rattle.gs_names.specs.Accepts.{some_element};

use crate::media::ReplyType;
use crate::targets::Goal;
use crate::words::{back_word, front_word};
use gs_http::{is_same_word, trim};
use http_header::HeaderMap;

fn all_digits(decimals: &[u8]) -> bool
    ensures { result ≡ list_all is_ascii_digit decimals.now }
{
    decimals.iter().all(|c| c.is_ascii_digit())
}

fn all_zeros(decimals: &[u8]) -> bool
    ensures { result ≡ list_all (λ c. c == digit 0) decimals.now }
{
    decimals.iter().all(|c| *c == b'0')
}

/// `0` or `1` with at most three decimals, after `1` only zeros.
fn is_weight(weight: &[u8]) -> bool
    ensures { result ≡ spec.is_weight weight.now }
{
    match weight {
        [] => false,
        [digit] => *digit == b'0' || *digit == b'1',
        [digit, dot, decimals @ ..] => {
            if *dot != b'.' || decimals.len() > 3 {
                return false;
            }
            if *digit == b'0' {
                all_digits(decimals)
            } else {
                *digit == b'1' && all_zeros(decimals)
            }
        }
    }
}

fn is_zero(weight: &[u8]) -> bool
    ensures { result ≡ spec.is_zero weight.now }
{
    weight.iter().all(|c| *c == b'0' || *c == b'.')
}

fn is_q(part: &[u8]) -> bool
    ensures { result ≡ spec.is_q part.now }
{
    is_same_word(front_word(part, b'='), b"q")
}

fn allows_q(part: &[u8]) -> bool
    ensures { result ≡ spec.allows_q part.now }
{
    !is_q(part) || is_weight(back_word(part, b'='))
}

fn excludes(part: &[u8]) -> bool
    ensures { result ≡ spec.excludes part.now }
{
    is_q(part) && is_zero(back_word(part, b'='))
}

fn all_allow(value: &[u8]) -> bool
    ensures { result ≡ list_all spec.allows_q (semicolon_parts value.now) }
{
    value.split(|b| *b == b';').all(|p| allows_q(p))
}

fn any_excludes(value: &[u8]) -> bool
    ensures { result ≡ list_any spec.excludes (semicolon_parts value.now) }
{
    value.split(|b| *b == b';').any(|p| excludes(p))
}

fn counts(element: &[u8], range: &[u8]) -> bool
    ensures { result ≡ spec.counts range.now element.now }
{
    is_same_word(front_word(element, b';'), range) && all_allow(element)
}

fn passes(element: &[u8], range: &[u8]) -> bool
    ensures { result ≡ spec.passes range.now element.now }
{
    counts(element, range) && !any_excludes(element)
}

fn is_filled(element: &[u8]) -> bool
    ensures { result ≡ spec.is_filled element.now }
{
    !trim(element).is_empty()
}

fn any_filled(value: &[u8]) -> bool
    ensures { result ≡ list_any spec.is_filled (elements_of value.now) }
{
    value.split(|b| *b == b',').any(|e| is_filled(e))
}

fn any_counts(value: &[u8], range: &[u8]) -> bool
    ensures { result ≡ list_any (spec.counts range.now) (elements_of value.now) }
{
    value.split(|b| *b == b',').any(|e| counts(e, range))
}

fn any_passes(value: &[u8], range: &[u8]) -> bool
    ensures { result ≡ list_any (spec.passes range.now) (elements_of value.now) }
{
    value.split(|b| *b == b',').any(|e| passes(e, range))
}

fn some_filled(kept: &HeaderMap<&[u8]>) -> bool
    ensures { result ≡ some_element spec.is_filled (kept_under kept.now (codes "accept")) }
{
    let mut values = kept.get_all("accept").iter();
    while let Some(value) = values.next() {
        if any_filled(value) {
            return true;
        }
    }
    false
}

fn some_counts(kept: &HeaderMap<&[u8]>, range: &[u8]) -> bool
    ensures { result ≡ some_element (spec.counts range.now) (kept_under kept.now (codes "accept")) }
{
    let mut values = kept.get_all("accept").iter();
    while let Some(value) = values.next() {
        if any_counts(value, range) {
            return true;
        }
    }
    false
}

fn some_passes(kept: &HeaderMap<&[u8]>, range: &[u8]) -> bool
    ensures { result ≡ some_element (spec.passes range.now) (kept_under kept.now (codes "accept")) }
{
    let mut values = kept.get_all("accept").iter();
    while let Some(value) = values.next() {
        if any_passes(value, range) {
            return true;
        }
    }
    false
}

fn admits(kept: &HeaderMap<&[u8]>, exact: &[u8], wide: &[u8]) -> bool
    ensures { result ≡ spec.admits exact.now wide.now (kept_under kept.now (codes "accept")) }
{
    if some_counts(kept, exact) {
        some_passes(kept, exact)
    } else if some_counts(kept, wide) {
        some_passes(kept, wide)
    } else {
        some_passes(kept, b"*/*")
    }
}

/// The type of the lines of one graph, if one is acceptable.
fn graph_type(kept: &HeaderMap<&[u8]>) -> Option<ReplyType>
    ensures { result ≡ spec.graph_type_of (kept_under kept.now (codes "accept")) }
{
    if !some_filled(kept) {
        Some(ReplyType::NTriples)
    } else if admits(kept, b"application/n-triples", b"application/*") {
        Some(ReplyType::NTriples)
    } else if admits(kept, b"text/turtle", b"text/*") {
        Some(ReplyType::Turtle)
    } else {
        None
    }
}

/// The type of the lines of all graphs, if it is acceptable.
fn dataset_type(kept: &HeaderMap<&[u8]>) -> Option<ReplyType>
    ensures { result ≡ spec.dataset_type_of (kept_under kept.now (codes "accept")) }
{
    if !some_filled(kept) {
        Some(ReplyType::NQuads)
    } else if admits(kept, b"application/n-quads", b"application/*") {
        Some(ReplyType::NQuads)
    } else {
        None
    }
}

/// The type of the reply, if one is acceptable: the lines of a graph have no names of graphs, and
/// those of the store itself have them.
pub fn reply_type(kept: &HeaderMap<&[u8]>, goal: &Goal) -> Option<ReplyType>
    ensures { result ≡ spec.reply_type_of goal.now (kept_under kept.now (codes "accept")) }
{
    match goal {
        Goal::Store => dataset_type(kept),
        _ => graph_type(kept),
    }
}
