//! Patches: the opening of one, and its commit.
ghost use Rattle.std.specs.Prelude.{◌≡◌, true, None};
ghost use Rattle.gs_event.specs.Datasets.{is_there as is_there_of};
ghost use Rattle.gs_event.specs.declared.events.Action.TheVariants.{OpenPatch, CommitPatch};
ghost use Rattle.gs_tree_store.specs.declared.books.Seat.TheVariants.{Patching};
ghost use Rattle.gs_tree_store.specs.Books.{dataset_of};
ghost use Rattle.gs_tree_store.specs.LastWrites.{late_write_of};
ghost use Rattle.gs_tree_store.specs.Opened.{HasRecord, KeepsRecords};
ghost use Rattle.gs_tree_store.specs.Actions.{ActsAny, IsReadyAny};

use crate::books::{self, Books, Seat};
use crate::commits::keep_version;
use crate::drafts::patched;
use crate::last_writes::late_write;
use crate::verdicts::{holdings, place};
use gs_changes::take_back;
use gs_event::{Answer, Change, Op, Verdict, verdict_on};
use gs_model::{LAST_NUMBER, Refusal};
use gs_term::Target;
use std::alloc::Global;
use std::mem;

/// Opens a patch of the target's graph, and its record, if the seat is idle.
pub fn open(books: &mut Books, seat: &mut Seat, target: &Target, since: Option<u64>) -> Answer
    requires { IsReadyAny books.old seat.old }
    ensures acts { ActsAny books.old books.new seat.old seat.new (OpenPatch target.now since) result }
    ensures records { KeepsRecords books.old books.new seat.old seat.new (OpenPatch target.now since) result }
{
    let Seat::Idle = seat else {
        return Answer::Refused(Refusal::WrongPhase);
    };
    if books.request >= LAST_NUMBER {
        return Answer::Refused(Refusal::LastNumber);
    }
    let Ok(kept) = target.clone() else {
        return Answer::Refused(Refusal::NoMemory);
    };
    let Ok(opened) = books.records.open() else {
        return Answer::Refused(Refusal::NoMemory);
    };
    books.request += 1;
    *seat = Seat::Patching(kept, books.request, opened, since);
    Answer::Opened(books.request)
}

/// Commits the seat's open patch, with these operations.
pub fn commit(books: &mut Books, seat: &mut Seat, alloc: Global, operations: &Vec<Op>) -> Answer
    requires ready { IsReadyAny books.old seat.old }
    requires opened { HasRecord books.old seat.old }
    ensures acts { ActsAny books.old books.new seat.old seat.new (CommitPatch operations.now) result }
    ensures records { KeepsRecords books.old books.new seat.old seat.new (CommitPatch operations.now) result }
{
    match mem::replace(seat, Seat::Idle) {
        Seat::Patching(target, request, opened, since) => commit_at(
            books, seat, alloc, target, request, opened, since, operations,
        ),
        other => {
            *seat = other;
            Answer::Refused(Refusal::WrongPhase)
        }
    }
}

/// Makes the operations' result the target's graph, where it has one and the patch does not come too late.
fn commit_at(
    books: &mut Books,
    seat: &mut Seat,
    alloc: Global,
    target: Target,
    request: u64,
    opened: u32,
    since: Option<u64>,
    operations: &Vec<Op>,
) -> Answer
    requires ready { IsReadyAny books.old (Patching target request opened since) }
    requires opened { HasRecord books.old (Patching target request opened since) }
    requires idle { seat.old ≡ Seat.Idle }
    ensures acts { ActsAny books.old books.new (Patching target request opened since) seat.new
        (CommitPatch operations.now) result }
    ensures records { KeepsRecords books.old books.new (Patching target request opened since) seat.new
        (CommitPatch operations.now) result }
{
    if !books::is_there(books, &target) {
        books.records.give_up(opened);
        return Answer::Status(404, None, books.versions.commit());
    }
    // Before anything is counted, and any memory asked for.
    if let Some(number) = late_write(books, &target, since) {
        books.records.give_up(opened);
        return Answer::Status(412, None, number);
    }
    commit_in_time(
        books, seat, alloc, target, request, opened, since, operations,
    )
}

/// The same, where it has a graph and the patch does not come too late.
fn commit_in_time(
    books: &mut Books,
    seat: &mut Seat,
    alloc: Global,
    target: Target,
    request: u64,
    opened: u32,
    since: Option<u64>,
    operations: &Vec<Op>,
) -> Answer
    requires ready { IsReadyAny books.old (Patching target request opened since) }
    requires opened { HasRecord books.old (Patching target request opened since) }
    requires there { is_there_of (dataset_of books.old) target ≡ true }
    requires in_time { late_write_of books.old target since ≡ None }
    requires idle { seat.old ≡ Seat.Idle }
    ensures acts { ActsAny books.old books.new (Patching target request opened since) seat.new
        (CommitPatch operations.now) result }
    ensures records { KeepsRecords books.old books.new (Patching target request opened since) seat.new
        (CommitPatch operations.now) result }
{
    let held = holdings(books);
    let place = place(books, &target);
    let old = books::version_of(books, &target);
    let birth = books.versions.commit() + 1;
    let draft = patched(
        alloc,
        &mut books.dict,
        &mut books.pool,
        old,
        operations.as_slice(),
        birth,
    );
    let Ok(draft) = draft else {
        *seat = Seat::Patching(target, request, opened, since);
        return Answer::Refused(Refusal::NoMemory);
    };
    match verdict_on(&held, &place, Change::Stores(draft.triples, false)) {
        Verdict::Missing => unreachable!(),
        Verdict::Full => {
            take_back(&mut books.pool, draft.root, birth);
            books.records.give_up(opened);
            Answer::Status(507, None, books.versions.commit())
        }
        Verdict::LastNumber => {
            take_back(&mut books.pool, draft.root, birth);
            *seat = Seat::Patching(target, request, opened, since);
            Answer::Refused(Refusal::LastNumber)
        }
        Verdict::Granted(status, _, _) => {
            keep_version(books, opened, target, draft, birth);
            Answer::Status(status, None, books.versions.commit())
        }
    }
}
