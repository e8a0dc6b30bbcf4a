//! What an answer of the store leads to.
ghost use Rattle.std.specs.Prelude.{◌≡◌, ◌++◌, [], None, IfOk, OnOk, OnErr};
ghost use Rattle.gs_reply.specs.Notices.{notice_of};
ghost use Rattle.gs_reply.specs.Replies.{chunk, lines_head};
ghost use Rattle.gs_talk.specs.Moves.{last_if};
ghost use Rattle.gs_session.specs.Outcomes.{Says, Stops, RepliesBy, RepliesCounted, RepliesFound, BeginsRead, AfterRefusal, AfterDelete, AfterLook, AfterPin, AfterPiece, AfterStage, AfterCommit, AfterCommitPatch, AfterCancel};
ghost use Rattle.gs_session.specs.Outcomes as spec;

use crate::phases::{Phase, Want, Work};
use gs_event::Answer;
use gs_model::Refusal;
use gs_reply::{ReplyNote, chunk_after, push_last_chunk, push_lines_head, push_reply};
use gs_verdict::Asked;
use std::alloc::{AllocError, Global};

/// The next phase of a session, and what is said.
#[derive(Drop)]
pub struct Next {
    pub phase: Phase,
    pub said: Vec<u8>,
}

/// A phase, and nothing is said.
pub fn silently(alloc: Global, phase: Phase) -> Next
    ensures { Says result phase [] }
{
    Next {
        phase,
        said: Vec::new(alloc),
    }
}

/// The connection ends.
pub fn stop(alloc: Global) -> Next
    ensures { Stops result }
{
    silently(alloc, Phase::Over)
}

/// What comes after a reply.
fn after_reply(closes: bool) -> Phase
    ensures { result ≡ spec.after_reply closes }
{
    if closes { Phase::Over } else { Phase::Between }
}

/// A reply without lines, with a commit number where its status came from the store; where there is no
/// memory for it, nothing is said and the connection ends.
fn reply_with(
    alloc: Global,
    status: u16,
    note: ReplyNote<'_>,
    commit: Option<u64>,
    closes: bool,
) -> Next
    ensures { RepliesBy result status (notice_of note.entry) commit closes }
{
    let mut text = Vec::new(alloc);
    match push_reply(&mut text, status, note, commit, closes) {
        Ok(()) => Next {
            phase: after_reply(closes),
            said: text,
        },
        Err(_) => stop(alloc),
    }
}

/// One whose status did not come from the store.
pub fn reply(alloc: Global, status: u16, note: ReplyNote<'_>, closes: bool) -> Next
    ensures { RepliesBy result status (notice_of note.entry) None closes }
{
    reply_with(alloc, status, note, None, closes)
}

/// One that says no more than the store did: its status and a commit number.
fn counted_reply(alloc: Global, status: u16, number: u64, closes: bool) -> Next
    ensures { RepliesCounted result status number closes }
{
    reply_with(alloc, status, ReplyNote::Nothing, Some(number), closes)
}

/// What an Open leads to that was not answered by a number.
pub fn after_refusal(alloc: Global, asked: &Asked, answer: &Answer) -> Next
    ensures { AfterRefusal asked.now answer.now result }
{
    match answer {
        Answer::Refused(Refusal::NoMemory) => reply(alloc, 503, ReplyNote::Nothing, true),
        Answer::Refused(Refusal::LastNumber) => {
            let closes = asked.closes || asked.framing.announces();
            reply(alloc, 507, ReplyNote::Nothing, closes)
        }
        _ => stop(alloc),
    }
}

/// What a Delete leads to.
pub fn after_delete(alloc: Global, asked: &Asked, answer: &Answer) -> Next
    ensures { AfterDelete asked.now answer.now result }
{
    match answer {
        Answer::Status(status, _, number) => counted_reply(alloc, *status, *number, asked.closes),
        Answer::Refused(Refusal::LastNumber) => reply(alloc, 507, ReplyNote::Nothing, asked.closes),
        _ => stop(alloc),
    }
}

/// The head of a read.
fn head_text(alloc: Global, asked: &Asked, commit: u64) -> Result<Vec<u8>, AllocError>
    ensures { IfOk result (λ text. text.items ≡ lines_head asked.now.reply commit asked.now.closes) }
{
    let mut text = Vec::new(alloc);
    push_lines_head(&mut text, asked.reply, commit, asked.closes)?;
    Ok(text)
}

/// The reply to a HEAD of a graph that is there, or of all graphs.
fn found(alloc: Global, asked: &Asked, commit: u64) -> Next
    ensures { RepliesFound result asked.now commit }
{
    match head_text(alloc, asked, commit) {
        Ok(text) => Next {
            phase: after_reply(asked.closes),
            said: text,
        },
        Err(_) => stop(alloc),
    }
}

/// What a Head leads to.
pub fn after_look(alloc: Global, asked: &Asked, answer: &Answer) -> Next
    ensures { AfterLook asked.now answer.now result }
{
    match answer {
        Answer::Status(status, _, number) => {
            if *status == 200 {
                found(alloc, asked, *number)
            } else {
                counted_reply(alloc, *status, *number, asked.closes)
            }
        }
        _ => stop(alloc),
    }
}

/// A read begins.
fn begin_read(alloc: Global, asked: Asked, commit: u64) -> Next
    ensures { BeginsRead result asked commit }
{
    match head_text(alloc, &asked, commit) {
        Ok(text) => Next {
            phase: Phase::Serving(asked, Work::Sending),
            said: text,
        },
        Err(_) => silently(alloc, Phase::Serving(asked, Work::Cutting)),
    }
}

/// What a Pin leads to.
pub fn after_pin(alloc: Global, asked: Asked, answer: &Answer) -> Next
    ensures { AfterPin asked answer.now result }
{
    match answer {
        Answer::Pinned(status, number) => {
            if *status == 200 {
                begin_read(alloc, asked, *number)
            } else {
                counted_reply(alloc, *status, *number, asked.closes)
            }
        }
        _ => stop(alloc),
    }
}

/// A store makes the lines of a piece with room for 256 bytes more, as for a head that is due.
const FEW_BYTES: usize = 256;

/// A text, a piece of a read as a chunk, and after the last piece the last chunk: in the piece's own
/// memory, where that has room.
fn piece_text(alloc: Global, text: &[u8], lines: Vec<u8>, end: bool) -> Result<Vec<u8>, AllocError>
    ensures { IfOk result (λ all. all.items ≡ text.now ++ (chunk lines.items ++ last_if end)) }
{
    let mut all = chunk_after(alloc, text, lines)?;
    if end {
        push_last_chunk(&mut all)?;
    }
    Ok(all)
}

/// Adds a piece of a read as a chunk to what is due, and after the last piece the last chunk. Where memory
/// is refused, what is due stays.
fn push_piece(alloc: Global, due: &mut Vec<u8>, lines: Vec<u8>, end: bool) -> Result<(), AllocError>
    ensures ok { OnOk result (due.new.items ≡ due.old.items ++ (chunk lines.items ++ last_if end)) }
    ensures err { OnErr result (due.new.items ≡ due.old.items) }
{
    if due.len() <= FEW_BYTES {
        *due = piece_text(alloc, due.as_slice(), lines, end)?;
        return Ok(());
    }
    let text = piece_text(alloc, b"", lines, end)?;
    due.extend_from_slice(text.as_slice())
}

/// What comes after a piece.
fn after_lines(asked: Asked, end: bool) -> Phase
    ensures { result ≡ spec.after_piece asked end }
{
    if end {
        after_reply(asked.closes)
    } else {
        Phase::Serving(asked, Work::Sending)
    }
}

/// What comes after a piece for whose chunk there was no memory.
fn without_lines(asked: Asked, end: bool) -> Phase
    ensures { result ≡ spec.without_piece asked end }
{
    if end {
        Phase::Over
    } else {
        Phase::Serving(asked, Work::Cutting)
    }
}

/// What a Piece leads to. What was due is said before it.
pub fn after_piece(alloc: Global, asked: Asked, due: Vec<u8>, answer: Answer) -> Next
    ensures { AfterPiece asked due.items answer result }
{
    let mut due = due;
    match answer {
        Answer::Lines(lines, end) => {
            let phase = match push_piece(alloc, &mut due, lines.into_bytes(), end) {
                Ok(()) => after_lines(asked, end),
                Err(_) => without_lines(asked, end),
            };
            Next { phase, said: due }
        }
        Answer::Refused(Refusal::NoMemory) => Next {
            phase: Phase::Serving(asked, Work::Cutting),
            said: due,
        },
        _ => Next {
            phase: Phase::Over,
            said: due,
        },
    }
}

/// What a Stage leads to, after which the work goes on.
pub fn after_stage(alloc: Global, asked: Asked, work: Work, answer: &Answer) -> Next
    ensures { AfterStage asked work answer.now result }
{
    match answer {
        Answer::Staged => silently(alloc, Phase::Serving(asked, work)),
        Answer::Refused(Refusal::NoMemory) => {
            work.give_back();
            silently(alloc, Phase::Serving(asked, Work::Failing(Want::Memory)))
        }
        _ => {
            work.give_back();
            stop(alloc)
        }
    }
}

/// What a Commit leads to.
pub fn after_commit(alloc: Global, asked: Asked, answer: &Answer) -> Next
    ensures { AfterCommit asked answer.now result }
{
    match answer {
        Answer::Status(status, None, number) => {
            counted_reply(alloc, *status, *number, asked.closes)
        }
        Answer::Status(status, Some(name), number) => {
            let note = ReplyNote::Made(name.as_bytes());
            reply_with(alloc, *status, note, Some(*number), asked.closes)
        }
        Answer::Refused(Refusal::NoMemory) => {
            silently(alloc, Phase::Serving(asked, Work::Failing(Want::Memory)))
        }
        Answer::Refused(Refusal::LastNumber) => {
            silently(alloc, Phase::Serving(asked, Work::Failing(Want::Numbers)))
        }
        _ => stop(alloc),
    }
}

/// What a CommitPatch leads to.
pub fn after_commit_patch(alloc: Global, asked: Asked, answer: &Answer) -> Next
    ensures { AfterCommitPatch asked answer.now result }
{
    match answer {
        Answer::Status(status, _, number) => counted_reply(alloc, *status, *number, asked.closes),
        Answer::Refused(Refusal::NoMemory) => {
            silently(alloc, Phase::Serving(asked, Work::Failing(Want::Memory)))
        }
        Answer::Refused(Refusal::LastNumber) => {
            silently(alloc, Phase::Serving(asked, Work::Failing(Want::Numbers)))
        }
        _ => stop(alloc),
    }
}

/// What a Cancel leads to, after which the reply says why.
pub fn after_cancel(alloc: Global, status: u16, closes: bool, answer: &Answer) -> Next
    ensures { AfterCancel status closes answer.now result }
{
    match answer {
        Answer::Cancelled => reply(alloc, status, ReplyNote::Nothing, closes),
        _ => stop(alloc),
    }
}
