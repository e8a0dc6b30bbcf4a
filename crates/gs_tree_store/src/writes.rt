//! Writes: the commits of uploads, and deletes.
ghost use Rattle.std.specs.Prelude.{◌≡◌, None};
ghost use Rattle.gs_event.specs.declared.events.Action.TheVariants.{Commit, Delete};
ghost use Rattle.gs_event.specs.declared.events.UploadKind.TheVariants.{Put, New};
ghost use Rattle.gs_tree_store.specs.declared.books.Seat.TheVariants.{Writing};
ghost use Rattle.gs_tree_store.specs.LastWrites.{late_write_of};
ghost use Rattle.gs_tree_store.specs.Opened.{HasRecord, KeepsRecords};
ghost use Rattle.gs_tree_store.specs.Actions.{ActsAny, IsReadyAny};

use crate::books::{Books, Seat};
use crate::commits::{drop_upload, put_version, remove_version};
use crate::last_writes::{late_upload, late_write};
use crate::names;
use crate::posts::commit_post;
use crate::verdicts::{verdict_on_removal, verdict_on_upload};
use gs_catalogue::GraphVersion;
use gs_event::{Answer, UploadKind, Verdict};
use gs_model::Refusal;
use gs_term::Target;
use std::alloc::Global;
use std::mem;

/// Commits the seat's open upload.
pub fn commit(books: &mut Books, seat: &mut Seat, alloc: Global) -> Answer
    requires ready { IsReadyAny books.old seat.old }
    requires opened { HasRecord books.old seat.old }
    ensures acts { ActsAny books.old books.new seat.old seat.new Commit result }
    ensures records { KeepsRecords books.old books.new seat.old seat.new Commit result }
{
    match mem::replace(seat, Seat::Idle) {
        Seat::Writing(kind, request, upload, opened, since) => {
            commit_upload(books, seat, alloc, kind, request, upload, opened, since)
        }
        other => {
            *seat = other;
            Answer::Refused(Refusal::WrongPhase)
        }
    }
}

/// By its kind, where it does not come too late.
fn commit_upload(
    books: &mut Books,
    seat: &mut Seat,
    alloc: Global,
    kind: UploadKind,
    request: u64,
    upload: GraphVersion,
    opened: u32,
    since: Option<u64>,
) -> Answer
    requires ready { IsReadyAny books.old (Writing kind request upload opened since) }
    requires opened { HasRecord books.old (Writing kind request upload opened since) }
    requires idle { seat.old ≡ Seat.Idle }
    ensures acts { ActsAny books.old books.new (Writing kind request upload opened since) seat.new
        Commit result }
    ensures records { KeepsRecords books.old books.new (Writing kind request upload opened since) seat.new
        Commit result }
{
    // Before anything is counted, and any memory asked for.
    if let Some(number) = late_upload(books, &kind, since) {
        drop_upload(books, upload, opened);
        return Answer::Status(412, None, number);
    }
    match kind {
        UploadKind::Put(target) => {
            commit_put(books, seat, target, request, upload, opened, since)
        }
        UploadKind::Post(target) => commit_post(
            books, seat, alloc, target, request, upload, opened, since,
        ),
        UploadKind::New => commit_new(books, seat, alloc, request, upload, opened, since),
    }
}

/// Replaces the target's graph by the upload, whose tree is taken over as it is, and which does not come
/// too late. Takes no memory.
fn commit_put(
    books: &mut Books,
    seat: &mut Seat,
    target: Target,
    request: u64,
    upload: GraphVersion,
    opened: u32,
    since: Option<u64>,
) -> Answer
    requires ready { IsReadyAny books.old (Writing (Put target) request upload opened since) }
    requires opened { HasRecord books.old (Writing (Put target) request upload opened since) }
    requires in_time { late_write_of books.old target since ≡ None }
    requires idle { seat.old ≡ Seat.Idle }
    ensures acts { ActsAny books.old books.new (Writing (Put target) request upload opened since) seat.new
        Commit result }
    ensures records { KeepsRecords books.old books.new (Writing (Put target) request upload opened since)
        seat.new Commit result }
{
    let found = books.records.get(&target);
    match verdict_on_upload(books, &target, found, upload) {
        Verdict::Missing => unreachable!(),
        Verdict::Full => {
            drop_upload(books, upload, opened);
            Answer::Status(507, None, books.versions.commit())
        }
        Verdict::LastNumber => {
            *seat = Seat::Writing(UploadKind::Put(target), request, upload, opened, since);
            Answer::Refused(Refusal::LastNumber)
        }
        Verdict::Granted(status, _, _) => {
            put_version(books, opened, target, found, upload);
            Answer::Status(status, None, books.versions.commit())
        }
    }
}

/// Puts the upload under a name that the store makes up.
fn commit_new(
    books: &mut Books,
    seat: &mut Seat,
    alloc: Global,
    request: u64,
    upload: GraphVersion,
    opened: u32,
    since: Option<u64>,
) -> Answer
    requires ready { IsReadyAny books.old (Writing New request upload opened since) }
    requires opened { HasRecord books.old (Writing New request upload opened since) }
    requires idle { seat.old ≡ Seat.Idle }
    ensures acts { ActsAny books.old books.new (Writing New request upload opened since) seat.new
        Commit result }
    ensures records { KeepsRecords books.old books.new (Writing New request upload opened since) seat.new
        Commit result }
{
    let Ok((name, location)) = names::new_name_twice(books, alloc, request) else {
        *seat = Seat::Writing(UploadKind::New, request, upload, opened, since);
        return Answer::Refused(Refusal::NoMemory);
    };
    let target = Target::Named(name);
    let found = books.records.get(&target);
    match verdict_on_upload(books, &target, found, upload) {
        Verdict::Missing => unreachable!(),
        Verdict::Full => {
            drop_upload(books, upload, opened);
            Answer::Status(507, None, books.versions.commit())
        }
        Verdict::LastNumber => {
            *seat = Seat::Writing(UploadKind::New, request, upload, opened, since);
            Answer::Refused(Refusal::LastNumber)
        }
        Verdict::Granted(status, _, _) => {
            put_version(books, opened, target, found, upload);
            Answer::Status(status, Some(location), books.versions.commit())
        }
    }
}

/// Takes the target's graph away, where it has one and the Delete does not come too late. Takes no memory.
pub fn delete(books: &mut Books, seat: &mut Seat, target: &Target, since: Option<u64>) -> Answer
    requires { IsReadyAny books.old seat.old }
    ensures acts { ActsAny books.old books.new seat.old seat.new (Delete target.now since) result }
    ensures records { KeepsRecords books.old books.new seat.old seat.new (Delete target.now since) result }
{
    let Seat::Idle = seat else {
        return Answer::Refused(Refusal::WrongPhase);
    };
    let found = books.records.get(target);
    if found.is_none() {
        return Answer::Status(404, None, books.versions.commit());
    }
    if let Some(number) = late_write(books, target, since) {
        return Answer::Status(412, None, number);
    }
    match verdict_on_removal(books, target, found) {
        Verdict::Missing => unreachable!(),
        Verdict::Full => unreachable!(),
        Verdict::LastNumber => Answer::Refused(Refusal::LastNumber),
        Verdict::Granted(status, _, _) => {
            remove_version(books, target, found);
            Answer::Status(status, None, books.versions.commit())
        }
    }
}
