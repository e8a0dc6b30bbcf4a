//! The tests of the checks of a head.
ghost use Rattle.std.specs.Prelude.{◌≡◌, codes};
ghost use Rattle.gs_http.specs.Fields.{kept_under};
ghost use Rattle.gs_names.specs.Media.{body_type_of};
ghost use Rattle.gs_names.specs.Accepts.{reply_type_of};
ghost use Rattle.gs_verdict.specs.Checks as spec;

use crate::methods::Method;
use gs_http::{Framing, Since, read_since};
use gs_names::{BodyType, Goal, Media, ReplyType, body_type, reply_type};
use gs_term::Target;
use http_header::HeaderMap;

/// The most bytes of a body that is a document.
const MAX_BODY_BYTES: u64 = 67_108_864;

/// The most bytes of the body of a PATCH.
const MAX_PATCH_BYTES: u64 = 1_048_576;

/// Whether the body is framed in a way that says two things or nothing.
pub fn is_malformed(framing: Framing) -> bool
    ensures { result ≡ spec.is_malformed framing }
{
    matches!(framing, Framing::Malformed)
}

/// Whether the body has a coding that is not read.
pub fn is_unknown(framing: Framing) -> bool
    ensures { result ≡ spec.is_unknown framing }
{
    matches!(framing, Framing::Unknown)
}

/// Whether the target is not of a form that is served.
pub fn is_malformed_goal(goal: &Goal) -> bool
    ensures { result ≡ spec.is_malformed_goal goal.now }
{
    matches!(goal, Goal::Malformed)
}

/// Whether nothing has the path.
pub fn is_missing(goal: &Goal) -> bool
    ensures { result ≡ spec.is_missing goal.now }
{
    matches!(goal, Goal::Missing)
}

fn is_document_type(body: BodyType, framing: Framing) -> bool
    ensures { result ≡ spec.is_document_type body framing }
{
    match body {
        BodyType::Absent => !framing.announces(),
        BodyType::Known(Media::Update) => false,
        BodyType::Known(_) => true,
        BodyType::Refused => false,
    }
}

fn is_update_type(body: BodyType) -> bool
    ensures { result ≡ spec.is_update_type body }
{
    matches!(body, BodyType::Known(Media::Update))
}

/// Whether the body may have its type.
pub fn takes_type(kept: &HeaderMap<&[u8]>, method: Method, framing: Framing) -> bool
    ensures { result
        ≡ spec.takes_type method (body_type_of (kept_under kept.now (codes "content-type"))) framing }
{
    match method {
        Method::Put => is_document_type(body_type(kept), framing),
        Method::Post => is_document_type(body_type(kept), framing),
        Method::Patch => is_update_type(body_type(kept)),
        _ => true,
    }
}

fn is_chosen(reply: Option<ReplyType>) -> bool
    ensures { result ≡ spec.is_chosen reply }
{
    match reply {
        Some(_) => true,
        None => false,
    }
}

/// Whether the reply has a type that is accepted.
pub fn takes_reply(kept: &HeaderMap<&[u8]>, goal: &Goal, method: Method) -> bool
    ensures { result
        ≡ spec.takes_reply method (reply_type_of goal.now (kept_under kept.now (codes "accept"))) }
{
    match method {
        Method::Get => is_chosen(reply_type(kept, goal)),
        Method::Head => is_chosen(reply_type(kept, goal)),
        _ => true,
    }
}

/// Whether the request may have a condition: it is a write of a graph.
fn has_condition(method: Method, goal: &Goal) -> bool
    ensures { result ≡ spec.has_condition method goal.now }
{
    match method {
        Method::Get | Method::Head => false,
        _ => matches!(goal, Goal::Graph(_)),
    }
}

/// The condition of the request. Of one that may have none the field is not read.
pub fn since_asked(kept: &HeaderMap<&[u8]>, goal: &Goal, method: Method) -> Since
    ensures { result
        ≡ spec.since_asked method goal.now (kept_under kept.now (codes "if-store-commit")) }
{
    if has_condition(method, goal) {
        read_since(kept)
    } else {
        Since::Absent
    }
}

/// Whether the condition is not one number.
pub fn is_malformed_since(since: Since) -> bool
    ensures { result ≡ spec.is_malformed_since since }
{
    matches!(since, Since::Malformed)
}

/// The number of the commit after which the graph must not have been written.
pub fn condition_in(since: Since) -> Option<u64>
    ensures { result ≡ spec.condition_in since }
{
    match since {
        Since::Commit(number) => Some(number),
        _ => None,
    }
}

/// The most bytes that the body of a request with this method may have.
pub fn limit_of(method: Method) -> u64
    ensures { result ≡ spec.limit_of method }
{
    match method {
        Method::Patch => MAX_PATCH_BYTES,
        _ => MAX_BODY_BYTES,
    }
}

/// Whether the length that is announced is over the method's limit.
pub fn is_over(method: Method, framing: Framing) -> bool
    ensures { result ≡ spec.is_over (spec.limit_of method) framing }
{
    match framing {
        Framing::Bytes(n) => limit_of(method) < n,
        _ => false,
    }
}

fn known_or_plain(body: BodyType) -> Media
    ensures { result ≡ spec.known_or_plain body }
{
    match body {
        BodyType::Known(media) => media,
        _ => Media::NTriples,
    }
}

/// The type of the body.
pub fn media_of_body(kept: &HeaderMap<&[u8]>, method: Method) -> Media
    ensures { result ≡ spec.media_of_body method (body_type_of (kept_under kept.now (codes "content-type"))) }
{
    match method {
        Method::Put => known_or_plain(body_type(kept)),
        Method::Post => known_or_plain(body_type(kept)),
        Method::Patch => known_or_plain(body_type(kept)),
        _ => Media::NTriples,
    }
}

fn chosen_or_plain(reply: Option<ReplyType>) -> ReplyType
    ensures { result ≡ spec.chosen_or_plain reply }
{
    match reply {
        Some(chosen) => chosen,
        None => ReplyType::NTriples,
    }
}

/// The type of the reply.
pub fn type_of_reply(kept: &HeaderMap<&[u8]>, goal: &Goal, method: Method) -> ReplyType
    ensures { result
        ≡ spec.type_of_reply method (reply_type_of goal.now (kept_under kept.now (codes "accept"))) }
{
    match method {
        Method::Get => chosen_or_plain(reply_type(kept, goal)),
        Method::Head => chosen_or_plain(reply_type(kept, goal)),
        _ => ReplyType::NTriples,
    }
}

/// The graph, or none for the store itself.
pub fn graph_of_goal(goal: Goal) -> Option<Target>
    ensures { result ≡ spec.graph_of_goal goal }
{
    match goal {
        Goal::Graph(target) => Some(target),
        _ => None,
    }
}
