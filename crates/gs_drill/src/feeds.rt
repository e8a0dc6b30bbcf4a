//! Events, feeds and commits: what they ask the store, and what they print.
ghost use Rattle.std.specs.Prelude.{◌≡◌, Some, IfOk};
ghost use Rattle.gs_feeding.specs.declared.openings.Opening.{Opening as AnOpening};
ghost use Rattle.std.specs.List.{slice_get};
ghost use Rattle.gs_drill.specs.Printing.{reply_text};
ghost use Rattle.gs_drill.specs.Feeds.{Responds, StagesByEvent, DoesFeed, FeedsUpload};
ghost use Rattle.gs_drill.specs.Commits.{Commits, Asks, GivesUpSeat, Completes};
ghost use Rattle.gs_drill.specs.Standing.{MovesDesk};
ghost use Rattle.gs_feeding.specs.SeatTexts.{first_context};

use crate::printing::Reply;
use crate::uploads::Uploads;
use gs_core::Store;
use gs_event::{Action, Answer, Event};
use gs_model::Refusal;
use gs_triple_lists::TripleList;
use gs_upload::Language;
use std::alloc::{AllocError, Global};

/// Asks the store, and follows its answer.
pub fn answer(store: &mut Store, uploads: &mut Uploads, event: Event) -> Answer
    ensures does { MovesDesk store.old uploads.old store.new uploads.new (λ d e. Responds d event result e) }
    ensures cut { uploads.new.cut ≡ uploads.old.cut }
{
    let answer = store.step(&event);
    uploads.follow(event, &answer);
    answer
}

/// Stages triples by one event, and by none where there are none.
fn stage(store: &mut Store, uploads: &mut Uploads, seat: u16, given: TripleList) -> Answer
    ensures does { MovesDesk store.old uploads.old store.new uploads.new
        (λ d e. StagesByEvent d seat given.items result e) }
    ensures cut { uploads.new.cut ≡ uploads.old.cut }
{
    if given.is_empty() {
        return Answer::Staged;
    }
    answer(store, uploads, Event::Seat(seat, Action::Stage(given)))
}

/// Feeds a text to the upload that the seat has.
fn feed_upload(
    alloc: Global,
    store: &mut Store,
    uploads: &mut Uploads,
    seat: u16,
    language: Language,
    text: &[u8],
) -> Result<Reply, AllocError>
    ensures does { IfOk result (λ reply. (o : AnOpening)
        → slice_get uploads.old.openings.items seat ≡ Some (Some o)
        → MovesDesk store.old uploads.old store.new uploads.new
        (λ d e. FeedsUpload uploads.old.cut (first_context language o) d seat text.now (reply_text reply) e)) }
    ensures cut { uploads.new.cut ≡ uploads.old.cut }
{
    let given = uploads.feed(alloc, seat, language, text)?;
    match stage(store, uploads, seat, given) {
        Answer::Staged => Ok(Reply::Taken),
        other => Ok(Reply::Answered(other)),
    }
}

/// Feeds a text to a seat. A seat that has no upload makes no event.
pub fn feed(
    alloc: Global,
    store: &mut Store,
    uploads: &mut Uploads,
    seat: u16,
    language: Language,
    text: &[u8],
) -> Result<Reply, AllocError>
    ensures does { IfOk result (λ reply. MovesDesk store.old uploads.old store.new uploads.new
        (λ d e. DoesFeed uploads.old.cut d seat language text.now (reply_text reply) e)) }
    ensures cut { uploads.new.cut ≡ uploads.old.cut }
{
    match uploads.has_upload(seat) {
        None => Ok(Reply::Answered(Answer::Refused(Refusal::BadSeat))),
        Some(false) => Ok(Reply::Answered(Answer::Refused(Refusal::WrongPhase))),
        Some(true) => feed_upload(alloc, store, uploads, seat, language, text),
    }
}

/// Gives the upload or the patch of a seat up, whose text has this fault.
pub fn give_up(store: &mut Store, uploads: &mut Uploads, seat: u16, fault: Reply) -> Reply
    ensures does { MovesDesk store.old uploads.old store.new uploads.new
        (λ d e. GivesUpSeat (reply_text fault) d seat (reply_text result) e) }
    ensures cut { uploads.new.cut ≡ uploads.old.cut }
{
    let _ = answer(store, uploads, Event::Seat(seat, Action::Cancel));
    fault
}

/// Stages the last triples of a seat's upload, and commits it.
fn complete(store: &mut Store, uploads: &mut Uploads, seat: u16, given: TripleList) -> Reply
    ensures does { MovesDesk store.old uploads.old store.new uploads.new
        (λ d e. Completes given.items d seat (reply_text result) e) }
    ensures cut { uploads.new.cut ≡ uploads.old.cut }
{
    match stage(store, uploads, seat, given) {
        Answer::Staged => {
            Reply::Answered(answer(store, uploads, Event::Seat(seat, Action::Commit)))
        }
        other => Reply::Answered(other),
    }
}

/// The text that was fed to a seat ends, and its upload is committed or given up.
pub fn commit(
    alloc: Global,
    store: &mut Store,
    uploads: &mut Uploads,
    seat: u16,
) -> Result<Reply, AllocError>
    ensures does { IfOk result (λ reply. MovesDesk store.old uploads.old store.new uploads.new
        (λ d e. Commits d seat (reply_text reply) e)) }
    ensures cut { uploads.new.cut ≡ uploads.old.cut }
{
    match uploads.finish(alloc, seat)? {
        Some(given) => Ok(complete(store, uploads, seat, given)),
        None => Ok(give_up(store, uploads, seat, Reply::Fault)),
    }
}
