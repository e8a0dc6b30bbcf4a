//! The checks of a head, in their order.
ghost use Rattle.std.specs.Prelude.{◌≡◌, codes, IfOk, Some};
ghost use Rattle.gs_http.specs.Fields.{kept_under};
ghost use Rattle.gs_verdict.specs.Checks.{since_asked};
ghost use Rattle.gs_verdict.specs.Verdicts as spec;
ghost use Rattle.gs_verdict.specs.Verdicts.{seen};

use crate::checks::{
    condition_in, graph_of_goal, is_malformed, is_malformed_goal, is_malformed_since, is_missing,
    is_over, is_unknown, media_of_body, since_asked, takes_reply, takes_type, type_of_reply,
};
use crate::methods::{Allow, Method, read_method};
use crate::verdicts::{Asked, Denial, Verdict};
use gs_http::{Head, Since, body_framing, closes, expects_continue, has_one_host};
use gs_names::{Goal, Places, read_target};
use std::alloc::{AllocError, Global};

/// Denied, and the connection ends.
pub fn closed(status: u16) -> Verdict
    ensures { result ≡ spec.closed status }
{
    Verdict::Deny(Denial {
        status,
        allow: None,
        closes: true,
    })
}

fn ends_denied(head: &Head<'_>) -> bool
    ensures { result ≡ spec.ends_denied (seen head.now) }
{
    closes(&head.fields) || body_framing(&head.fields).announces()
}

fn denied(head: &Head<'_>, status: u16) -> Verdict
    ensures { result ≡ spec.denied (seen head.now) status }
{
    Verdict::Deny(Denial {
        status,
        allow: None,
        closes: ends_denied(head),
    })
}

fn not_allowed(head: &Head<'_>, goal: &Goal) -> Verdict
    ensures { result ≡ spec.not_allowed (seen head.now) goal.now }
{
    Verdict::Deny(Denial {
        status: 405,
        allow: Some(Allow::of(goal)),
        closes: ends_denied(head),
    })
}

fn awaits_continue(head: &Head<'_>) -> bool
    ensures { result ≡ spec.awaits_continue (seen head.now) }
{
    expects_continue(&head.fields) && body_framing(&head.fields).announces()
}

/// What is asked, with a condition that was read.
fn asked(head: &Head<'_>, goal: Goal, method: Method, since: Since) -> Verdict
    requires { since
        ≡ since_asked method goal (kept_under head.now.fields (codes "if-store-commit")) }
    ensures { result ≡ spec.asked (seen head.now) goal method }
{
    let reply = type_of_reply(&head.fields, &goal, method);
    Verdict::Ask(Asked {
        method,
        graph: graph_of_goal(goal),
        body: media_of_body(&head.fields, method),
        reply,
        framing: body_framing(&head.fields),
        since: condition_in(since),
        awaits_continue: awaits_continue(head),
        closes: closes(&head.fields),
    })
}

fn judge_method(head: &Head<'_>, goal: Goal, method: Method) -> Verdict
    ensures { result ≡ spec.judged_method (seen head.now) goal (Some method) }
{
    let framing = body_framing(&head.fields);
    let since = since_asked(&head.fields, &goal, method);
    if !Allow::of(&goal).has(method) {
        not_allowed(head, &goal)
    } else if !takes_type(&head.fields, method, framing) {
        denied(head, 415)
    } else if !takes_reply(&head.fields, &goal, method) {
        denied(head, 406)
    } else if is_malformed_since(since) {
        denied(head, 400)
    } else if is_over(method, framing) {
        denied(head, 413)
    } else {
        asked(head, goal, method, since)
    }
}

fn judge_goal(head: &Head<'_>, goal: Goal) -> Verdict
    ensures { result ≡ spec.judged_goal (seen head.now) goal }
{
    if is_malformed_goal(&goal) {
        denied(head, 400)
    } else if is_missing(&goal) {
        denied(head, 404)
    } else {
        match read_method(head.method) {
            None => not_allowed(head, &goal),
            Some(method) => judge_method(head, goal, method),
        }
    }
}

/// What a head asks for under a base, or how it is denied. Memory is taken for the name of a graph alone.
pub fn judge_head(
    alloc: Global,
    places: &Places,
    base: &[u8],
    head: &Head<'_>,
) -> Result<Verdict, AllocError>
    ensures { IfOk result (λ v. v ≡ spec.judged base.now (seen head.now)) }
{
    let framing = body_framing(&head.fields);
    if head.minor == 0 {
        Ok(closed(505))
    } else if !has_one_host(&head.fields) {
        Ok(closed(400))
    } else if is_malformed(framing) {
        Ok(closed(400))
    } else if is_unknown(framing) {
        Ok(closed(501))
    } else {
        let goal = read_target(alloc, places, base, head.target)?;
        Ok(judge_goal(head, goal))
    }
}
