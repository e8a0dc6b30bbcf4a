//! The target of a request.
ghost use Rattle.std.specs.Prelude.{◌≡◌, ◌==◌, ◌&&◌, ◌||◌, ◌≤◌, not, nat_eq, codes, drop, length, IsTrue, IfOk, Some};
ghost use Rattle.std.specs.List.{list_all, list_any, starts_with};
ghost use Rattle.std.specs.Str.{IsUtf8, bytes_eq};
ghost use Rattle.percent_encoding.specs.Percent.{percent_decode};
ghost use Rattle.gs_model.specs.Punctuation.{ampersand};
ghost use Rattle.gs_names.specs.declared.routes.Route.TheVariants.{Graphs};
ghost use Rattle.gs_names.specs.Places.{place_of};
ghost use Rattle.gs_names.specs.Targets.{is_target_byte, rest_of, IsTextOf, is_short_iri, named_text, named_by, queried, goal_at, target_of};

use crate::places::Places;
use crate::routes::Route;
use crate::words::position;
use gs_iri::is_absolute;
use gs_model::MAX_NAME_BYTES;
use gs_term::{GraphName, Target};
use percent_encoding::percent_decode;
use std::alloc::{AllocError, Global};
use std::str;

/// What a request names.
#[derive(Debug, Drop)]
pub enum Goal {
    /// The store itself.
    Store,
    /// A graph, which need not exist.
    Graph(Target),
    /// The target is not of a form that is served.
    Malformed,
    /// Nothing has this path.
    Missing,
}

fn all_target_bytes(target: &[u8]) -> bool
    ensures { result ≡ list_all is_target_byte target.now }
{
    target
        .iter()
        .all(|c| b'!' <= *c && *c <= b'~' && *c != b'#')
}

fn has(text: &[u8], byte: u8) -> bool
    ensures { result ≡ list_any (λ c. c == byte) text.now }
{
    text.iter().any(|c| *c == byte)
}

/// A target in absolute form is read from the '/' after the base.
fn rest<'a>(base: &[u8], target: &'a [u8]) -> &'a [u8]
    ensures { result.now ≡ rest_of base.now target.now }
{
    if target.starts_with(base) && target[base.len()..].starts_with(b"/") {
        &target[base.len()..]
    } else {
        target
    }
}

/// The text that these bytes are.
fn text_of(bytes: &[u8]) -> Option<&str>
    ensures { IsTextOf result bytes.now }
{
    match str::from_utf8(bytes) {
        Ok(text) => Some(text),
        Err(_) => None,
    }
}

fn is_short_iri(text: &str) -> bool
    ensures { result ≡ is_short_iri text.now }
{
    is_absolute(text) && text.len() <= MAX_NAME_BYTES
}

/// The graph that a text names. Such a text is refused for want of memory alone.
fn named_text(alloc: Global, text: &str) -> Result<Goal, AllocError>
    ensures { IfOk result (λ r. r ≡ named_text text.now) }
{
    if !is_short_iri(text) {
        return Ok(Goal::Malformed);
    }
    match GraphName::new(alloc, text) {
        Ok(name) => Ok(Goal::Graph(Target::Named(name))),
        Err(_) => Err(AllocError),
    }
}

/// The graph that these bytes name.
fn named(alloc: Global, name: &[u8]) -> Result<Goal, AllocError>
    ensures { IfOk result (λ r. r ≡ named_by name.now) }
{
    match text_of(name) {
        None => Ok(Goal::Malformed),
        Some(text) => named_text(alloc, text),
    }
}

/// The bytes that an encoded value stands for.
fn decoded(alloc: Global, value: &[u8]) -> Result<Vec<u8>, AllocError>
    ensures { IfOk result (λ r. r.items ≡ percent_decode value.now) }
{
    let mut name = Vec::new(alloc);
    percent_decode(value).append_to(&mut name)?;
    Ok(name)
}

/// The graph whose name is the base and then the target.
fn direct(alloc: Global, base: &[u8], rest: &[u8]) -> Result<Goal, AllocError>
    ensures { IfOk result (λ r. r ≡ goal_at base.now rest.now (Some Graphs)) }
{
    let mut name = Vec::from_slice(alloc, base)?;
    name.extend_from_slice(rest)?;
    named(alloc, name.as_slice())
}

fn is_default(query: &[u8]) -> bool
    ensures { result ≡ (bytes_eq query.now (codes "default") || bytes_eq query.now (codes "default=")) }
{
    query == b"default".as_slice() || query == b"default=".as_slice()
}

fn names_graph(query: &[u8]) -> bool
    ensures value { result
        ≡ (starts_with nat_eq query.now (codes "graph=") && not (list_any (λ c. c == ampersand) (drop 6 query.now))) }
    ensures bound { IsTrue result → 6 ≤ length query.now }
{
    query.starts_with(b"graph=") && !has(&query[6..], b'&')
}

/// The graph whose name these bytes encode.
fn encoded(alloc: Global, value: &[u8]) -> Result<Goal, AllocError>
    ensures { IfOk result (λ r. r ≡ named_by (percent_decode value.now)) }
{
    let name = decoded(alloc, value)?;
    named(alloc, name.as_slice())
}

/// What a query of `/store` names.
fn indirect(alloc: Global, query: &[u8]) -> Result<Goal, AllocError>
    ensures { IfOk result (λ r. r ≡ queried (Some query.now)) }
{
    if is_default(query) {
        return Ok(Goal::Graph(Target::Default));
    }
    if names_graph(query) {
        return encoded(alloc, &query[6..]);
    }
    Ok(Goal::Malformed)
}

fn place_at(places: &Places, path: &[u8]) -> Option<Route>
    requires { IsUtf8 path.now }
    ensures { result ≡ place_of path.now }
{
    match str::from_utf8(path) {
        Ok(path) => places.at(path),
        Err(_) => unreachable!(),
    }
}

/// What a target names under a base, `http://` and an authority. Memory is taken for a name alone.
pub fn read_target(
    alloc: Global,
    places: &Places,
    base: &[u8],
    target: &[u8],
) -> Result<Goal, AllocError>
    ensures { IfOk result (λ r. r ≡ target_of base.now target.now) }
{
    let rest = rest(base, target);
    if !all_target_bytes(target) || !rest.starts_with(b"/") {
        return Ok(Goal::Malformed);
    }
    let mark = position(rest, b'?');
    match place_at(places, &rest[..mark]) {
        None => Ok(Goal::Missing),
        Some(Route::Graphs) => direct(alloc, base, rest),
        Some(Route::Store) => {
            if mark < rest.len() {
                indirect(alloc, &rest[mark + 1..])
            } else {
                Ok(Goal::Store)
            }
        }
    }
}
