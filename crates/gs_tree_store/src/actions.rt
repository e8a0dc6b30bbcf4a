//! What a seat's action does to the books and to the seat. A refused action changes neither, but that terms
//! may have been given numbers, and the upload of a POST is made again.
ghost use Rattle.gs_tree_store.specs.Books.{IsReady};
ghost use Rattle.gs_tree_store.specs.Opened.{HasRecord, KeepsRecords};
ghost use Rattle.gs_tree_store.specs.Actions.{Acts, ActsAny, IsReadyAny};

use crate::books::{Books, Seat};
use crate::commits::drop_upload;
use crate::{patches, reads, writes};
use gs_catalogue::GraphVersion;
use gs_event::{Action, Answer, UploadKind};
use gs_model::{LAST_NUMBER, Refusal};
use gs_triple_lists::TripleList;
use std::alloc::Global;

/// Any action of the seat of this number.
pub fn act(
    books: &mut Books,
    seat: &mut Seat,
    number: u16,
    alloc: Global,
    action: &Action,
) -> Answer
    requires ready { IsReady books.old number seat.old }
    requires opened { HasRecord books.old seat.old }
    ensures acts { Acts books.old books.new number seat.old seat.new action.now result }
    ensures records { KeepsRecords books.old books.new seat.old seat.new action.now result }
{
    match action {
        Action::Open(kind, since) => open(books, seat, kind, *since),
        Action::OpenPatch(target, since) => patches::open(books, seat, target, *since),
        Action::Stage(triples) => stage(books, seat, alloc, triples),
        Action::Commit => writes::commit(books, seat, alloc),
        Action::CommitPatch(operations) => patches::commit(books, seat, alloc, operations),
        Action::Delete(target, since) => writes::delete(books, seat, target, *since),
        Action::Head(scope) => reads::head(books, seat, scope),
        Action::Pin(scope) => reads::pin(books, seat, number, scope),
        Action::Piece(count) => reads::piece(books, seat, number, alloc, *count),
        Action::Cancel => cancel(books, seat, number),
    }
}

/// Opens the upload's record too, so that a commit takes no memory for it.
fn open(books: &mut Books, seat: &mut Seat, kind: &UploadKind, since: Option<u64>) -> Answer
    requires { IsReadyAny books.old seat.old }
    ensures acts { ActsAny books.old books.new seat.old seat.new (Action.Open kind.now since) result }
    ensures records { KeepsRecords books.old books.new seat.old seat.new (Action.Open kind.now since) result }
{
    let Seat::Idle = seat else {
        return Answer::Refused(Refusal::WrongPhase);
    };
    if books.request >= LAST_NUMBER {
        return Answer::Refused(Refusal::LastNumber);
    }
    let Ok(kept) = kind.clone() else {
        return Answer::Refused(Refusal::NoMemory);
    };
    let Ok(opened) = books.records.open() else {
        return Answer::Refused(Refusal::NoMemory);
    };
    books.request += 1;
    *seat = Seat::Writing(kept, books.request, GraphVersion::empty(), opened, since);
    Answer::Opened(books.request)
}

/// The whole piece or nothing.
fn stage(books: &mut Books, seat: &mut Seat, alloc: Global, triples: &TripleList) -> Answer
    requires { IsReadyAny books.old seat.old }
    ensures acts { ActsAny books.old books.new seat.old seat.new (Action.Stage triples.now) result }
    ensures records { KeepsRecords books.old books.new seat.old seat.new (Action.Stage triples.now) result }
{
    let Seat::Writing(_, _, upload, _, _) = seat else {
        return Answer::Refused(Refusal::WrongPhase);
    };
    let birth = books.versions.commit() + 1;
    let merged = gs_staging::stage(
        alloc,
        &mut books.dict,
        &mut books.pool,
        upload.root,
        triples,
        birth,
    );
    let Ok(merged) = merged else {
        return Answer::Refused(Refusal::NoMemory);
    };
    // A tree has no more keys than nodes are in use, which are fewer than 2^32.
    let _used = books.pool.nodes_in_use();
    upload.root = merged.root;
    upload.triples += merged.added as u64;
    Answer::Staged
}

/// Gives up what the seat has open. Takes no memory.
fn cancel(books: &mut Books, seat: &mut Seat, number: u16) -> Answer
    requires ready { IsReady books.old number seat.old }
    requires opened { HasRecord books.old seat.old }
    ensures acts { Acts books.old books.new number seat.old seat.new Action.Cancel result }
    ensures records { KeepsRecords books.old books.new seat.old seat.new Action.Cancel result }
{
    match seat {
        Seat::Idle => return Answer::Refused(Refusal::WrongPhase),
        Seat::Writing(_, _, upload, opened, _) => drop_upload(books, *upload, *opened),
        Seat::Patching(_, _, opened, _) => books.records.give_up(*opened),
        Seat::Reading(_, _) => books.versions.unpin(number),
        Seat::ReadingAll(_, _) => books.versions.unpin(number),
    }
    *seat = Seat::Idle;
    Answer::Cancelled
}
