//! The step between two requests: the next head.
ghost use Rattle.std.specs.Prelude.{◌≡◌, ◌≤◌, ◌⊎◌, Bool, true, cond, [], length, None, IfOk};
ghost use Rattle.gs_http.specs.Limits.{max_field_name_bytes};
ghost use Rattle.gs_verdict.specs.Bytes.{head_verdict};
ghost use Rattle.gs_reply.specs.Replies.{continue_text as continue_bytes};
ghost use Rattle.gs_talk.specs.Replies.{allow_notice};
ghost use Rattle.gs_session.specs.declared.phases.Phase.TheVariants.{Between};
ghost use Rattle.gs_session.specs.Outcomes.{RepliesBy, Replies, IsFirstTransfer};
ghost use Rattle.gs_session.specs.Heads.{BeginsOpen, BeginsSkip, AfterHead};
ghost use Rattle.gs_session.specs.Steps.{Rests};

use crate::buffers::Buffer;
use crate::outcomes::{Next, reply, silently};
use crate::phases::{Phase, Work};
use crate::plans::opens;
use crate::setups::Setup;
use crate::steps::Step;
use gs_reply::{ReplyNote, continue_text};
use gs_stream::{HeadEnd, find_head, leading};
use gs_transfer::Transfer;
use gs_verdict::{Asked, Denial, Verdict, limit_of, read_verdict};
use std::alloc::{AllocError, Global};

/// What is said to a client that waits for it before it sends the body.
pub fn greeting(alloc: Global, is_awaited: bool) -> Result<Vec<u8>, AllocError>
    ensures { IfOk result (λ text. text.items ≡ cond is_awaited continue_bytes []) }
{
    let mut text = Vec::new(alloc);
    if is_awaited {
        text.extend_from_slice(continue_text())?;
    }
    Ok(text)
}

/// The transfer of a request's body.
pub fn transfer_of(asked: &Asked) -> Transfer
    ensures { IsFirstTransfer asked.now result }
{
    Transfer::new(asked.framing, limit_of(asked.method))
}

/// The reply to a head that is denied.
fn deny(alloc: Global, denial: Denial) -> Next
    ensures { RepliesBy result denial.status (allow_notice denial.allow) None denial.closes }
{
    match denial.allow {
        None => reply(alloc, denial.status, ReplyNote::Nothing, denial.closes),
        Some(allow) => reply(
            alloc,
            denial.status,
            ReplyNote::Allows(allow),
            denial.closes,
        ),
    }
}

/// What a head asks for is begun.
fn begin(alloc: Global, asked: Asked) -> Next
    ensures { (BeginsOpen asked result ⊎ BeginsSkip asked result) ⊎ Replies result 503 true }
{
    if opens(&asked) {
        return silently(alloc, Phase::Serving(asked, Work::Opening));
    }
    match greeting(alloc, asked.awaits_continue) {
        Ok(said) => {
            let transfer = transfer_of(&asked);
            Next {
                phase: Phase::Serving(asked, Work::Skipping(transfer)),
                said,
            }
        }
        Err(_) => reply(alloc, 503, ReplyNote::Nothing, true),
    }
}

/// What a whole head leads to.
fn take_head(setup: &Setup, head: &[u8]) -> Next
    requires { length head.now ≤ max_field_name_bytes }
    ensures { AfterHead (head_verdict setup.now.site head.now) result }
{
    match read_verdict(setup.alloc, setup.site.places(), setup.site.base(), head) {
        Ok(Verdict::Deny(denial)) => deny(setup.alloc, denial),
        Ok(Verdict::Ask(asked)) => begin(setup.alloc, asked),
        Err(_) => reply(setup.alloc, 503, ReplyNote::Nothing, true),
    }
}

/// What the next head leads to, once it is whole. What stands before it is dropped.
pub fn next_head(setup: &Setup, input: &mut Buffer) -> Step
    ensures { (e : Bool) → Rests setup.now e Between input.old result input.new }
{
    let lead = leading(input.as_slice());
    input.skip(lead);
    match find_head(input.as_slice()) {
        HeadEnd::Open => Step::Wait(Phase::Between),
        HeadEnd::TooLong => Step::Silent(reply(setup.alloc, 431, ReplyNote::Nothing, true)),
        HeadEnd::After(count) => {
            let next = take_head(setup, &input.as_slice()[..count]);
            input.skip(count);
            Step::Silent(next)
        }
    }
}
