//! Patches: the text of an update is read, and what it says is committed.
ghost use Rattle.std.specs.Prelude.{◌≡◌, IfOk};
ghost use Rattle.gs_update_text.specs.Requests.{UpdateRequest};
ghost use Rattle.gs_update.specs.Answers.{Answers as ReadsUpdate, Refuses};
ghost use Rattle.gs_drill.specs.Printing.{reply_text};
ghost use Rattle.gs_drill.specs.Patches.{SettlesPatch, DoesPatch};
ghost use Rattle.gs_drill.specs.Standing.{MovesDesk};

use crate::feeds::{answer, give_up};
use crate::printing::Reply;
use crate::uploads::Uploads;
use gs_core::Store;
use gs_event::{Action, Answer, Event, Op};
use gs_model::Refusal;
use gs_update::read_update;
use std::alloc::{AllocError, Global};

/// Gives the patch of a seat up, where its text was refused for a fault.
fn reject(
    store: &mut Store,
    uploads: &mut Uploads,
    seat: u16,
    refusal: Refusal,
) -> Result<Reply, AllocError>
    ensures does { IfOk result (λ reply. (q : UpdateRequest) → Refuses refusal q
        → MovesDesk store.old uploads.old store.new uploads.new
        (λ d e. SettlesPatch q d seat (reply_text reply) e)) }
    ensures cut { uploads.new.cut ≡ uploads.old.cut }
{
    match refusal {
        Refusal::NoMemory => Err(AllocError),
        Refusal::NotInProfile => Ok(give_up(store, uploads, seat, Reply::Outside)),
        _ => Ok(give_up(store, uploads, seat, Reply::Fault)),
    }
}

/// What a text says is committed by one event; the patch of a text with a fault is given up.
fn conclude(
    store: &mut Store,
    uploads: &mut Uploads,
    seat: u16,
    read: Result<Vec<Op>, Refusal>,
) -> Result<Reply, AllocError>
    ensures does { IfOk result (λ reply. (q : UpdateRequest) → ReadsUpdate read q
        → MovesDesk store.old uploads.old store.new uploads.new
        (λ d e. SettlesPatch q d seat (reply_text reply) e)) }
    ensures cut { uploads.new.cut ≡ uploads.old.cut }
{
    match read {
        Ok(operations) => {
            let event = Event::Seat(seat, Action::CommitPatch(operations));
            Ok(Reply::Answered(answer(store, uploads, event)))
        }
        Err(refusal) => reject(store, uploads, seat, refusal),
    }
}

/// Gives the text of an update to a seat. A seat that has no patch makes no event.
pub fn patch(
    alloc: Global,
    store: &mut Store,
    uploads: &mut Uploads,
    seat: u16,
    text: &[u8],
) -> Result<Reply, AllocError>
    ensures does { IfOk result (λ reply. MovesDesk store.old uploads.old store.new uploads.new
        (λ d e. DoesPatch d seat text.now (reply_text reply) e)) }
    ensures cut { uploads.new.cut ≡ uploads.old.cut }
{
    let read = match uploads.patches.get(usize::from(seat)) {
        None => return Ok(Reply::Answered(Answer::Refused(Refusal::BadSeat))),
        Some(None) => return Ok(Reply::Answered(Answer::Refused(Refusal::WrongPhase))),
        Some(Some(opening)) => read_update(alloc, opening.request, opening.base(), text),
    };
    conclude(store, uploads, seat, read)
}
