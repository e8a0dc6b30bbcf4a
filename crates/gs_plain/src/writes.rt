//! Writes: the commits of uploads, and deletes.
ghost use Rattle.std.specs.Prelude.{◌≡◌, ◌<◌, ◌≤◌, ◌+◌, false, IsTrue, IfOk, length, vec_len, vec_capacity};
ghost use Rattle.gs_model.specs.Graphs.{size_of};
ghost use Rattle.gs_event.specs.Conditions.{is_above};
ghost use Rattle.gs_event.specs.Operations.{united};
ghost use Rattle.gs_event.specs.declared.events.Action.TheVariants.{Commit, Delete};
ghost use Rattle.gs_event.specs.declared.events.UploadKind.TheVariants.{Put, Post, New};
ghost use Rattle.gs_plain.specs.declared.books.Seat.TheVariants.{Writing};
ghost use Rattle.gs_plain.specs.Books.{graph_now, size_now, will_commit};
ghost use Rattle.gs_plain.specs.LastWrites.{last_write_by};
ghost use Rattle.gs_plain.specs.Actions.{IsReady, Acts, CommitsUpload, HoldsRoom};

use crate::books::{self, Books, Seat};
use crate::last_writes::{late_upload, late_write};
use crate::names;
use crate::verdicts::{verdict_on_removal, verdict_on_store};
use gs_event::{Answer, UploadKind, Verdict};
use gs_graphs::SortedGraph;
use gs_model::Refusal;
use gs_term::Target;
use std::alloc::{AllocError, Global};
use std::mem;

/// Commits the seat's open upload, by its kind.
pub fn commit(books: &mut Books, seat: &mut Seat, alloc: Global) -> Answer
    requires ready { IsReady books.old seat.old }
    requires room { IsTrue (will_commit seat.old) → vec_len books.old.rows < vec_capacity books.old.rows }
    ensures acts { Acts books.old books.new seat.old seat.new Commit result }
    ensures room { HoldsRoom books.old books.new seat.old seat.new }
{
    match mem::replace(seat, Seat::Idle) {
        Seat::Writing(kind, request, upload, since) => {
            if let Some(write) = late_upload(books, &kind, since) {
                books.staged -= upload.len() as u64;
                return Answer::Status(412, None, write);
            }
            match kind {
                UploadKind::Put(target) => commit_put(books, seat, target, request, upload, since),
                UploadKind::Post(target) => {
                    commit_post(books, seat, alloc, target, request, upload, since)
                }
                UploadKind::New => commit_new(books, seat, alloc, request, upload, since),
            }
        }
        other => {
            *seat = other;
            Answer::Refused(Refusal::WrongPhase)
        }
    }
}

/// Replaces the target's graph by the upload. Takes no memory.
fn commit_put(
    books: &mut Books,
    seat: &mut Seat,
    target: Target,
    request: u64,
    upload: SortedGraph,
    since: Option<u64>,
) -> Answer
    requires ready { IsReady books.old (Writing (Put target) request upload since) }
    requires in_time { is_above (last_write_by books.old target) since ≡ false }
    requires room { vec_len books.old.rows < vec_capacity books.old.rows }
    requires idle { seat.old ≡ Seat.Idle }
    ensures acts { CommitsUpload books.old books.new (Put target) request upload since seat.new result }
    ensures room { HoldsRoom books.old books.new (Writing (Put target) request upload since) seat.new }
{
    let staged = upload.len() as u64;
    match verdict_on_store(books, &target, &upload) {
        Verdict::Missing => unreachable!(),
        Verdict::Full => {
            books.staged -= staged;
            Answer::Status(507, None, books.commit)
        }
        Verdict::LastNumber => {
            *seat = Seat::Writing(UploadKind::Put(target), request, upload, since);
            Answer::Refused(Refusal::LastNumber)
        }
        Verdict::Granted(status, triples, names) => {
            books::put_version(books, target, upload, triples, names);
            books.staged -= staged;
            Answer::Status(status, None, books.commit)
        }
    }
}

/// The graph that a POST of the upload leaves at its target.
fn posted(
    books: &Books,
    alloc: Global,
    target: &Target,
    upload: &SortedGraph,
) -> Result<SortedGraph, AllocError>
    ensures value { IfOk result (λ g. g ≡ united (graph_now books.now target.now) upload.now) }
    ensures size { IfOk result (λ g. size_of g ≤ size_now books.now target.now + size_of upload.now) }
{
    match books::newest(books.rows.as_slice(), target) {
        None => upload.copied(alloc),
        Some(i) => books.rows[i].graph.united(alloc, upload),
    }
}

/// Unites the target's graph with the upload.
fn commit_post(
    books: &mut Books,
    seat: &mut Seat,
    alloc: Global,
    target: Target,
    request: u64,
    upload: SortedGraph,
    since: Option<u64>,
) -> Answer
    requires ready { IsReady books.old (Writing (Post target) request upload since) }
    requires in_time { is_above (last_write_by books.old target) since ≡ false }
    requires room { vec_len books.old.rows < vec_capacity books.old.rows }
    requires idle { seat.old ≡ Seat.Idle }
    ensures acts { CommitsUpload books.old books.new (Post target) request upload since seat.new result }
    ensures room { HoldsRoom books.old books.new (Writing (Post target) request upload since) seat.new }
{
    let Ok(graph) = posted(books, alloc, &target, &upload) else {
        *seat = Seat::Writing(UploadKind::Post(target), request, upload, since);
        return Answer::Refused(Refusal::NoMemory);
    };
    let staged = upload.len() as u64;
    match verdict_on_store(books, &target, &graph) {
        Verdict::Missing => unreachable!(),
        Verdict::Full => {
            books.staged -= staged;
            Answer::Status(507, None, books.commit)
        }
        Verdict::LastNumber => {
            *seat = Seat::Writing(UploadKind::Post(target), request, upload, since);
            Answer::Refused(Refusal::LastNumber)
        }
        Verdict::Granted(status, triples, names) => {
            books::put_version(books, target, graph, triples, names);
            books.staged -= staged;
            Answer::Status(status, None, books.commit)
        }
    }
}

/// Puts the upload under a name that the store makes up.
fn commit_new(
    books: &mut Books,
    seat: &mut Seat,
    alloc: Global,
    request: u64,
    upload: SortedGraph,
    since: Option<u64>,
) -> Answer
    requires ready { IsReady books.old (Writing New request upload since) }
    requires room { vec_len books.old.rows < vec_capacity books.old.rows }
    requires idle { seat.old ≡ Seat.Idle }
    ensures acts { CommitsUpload books.old books.new New request upload since seat.new result }
    ensures room { HoldsRoom books.old books.new (Writing New request upload since) seat.new }
{
    let Ok((name, location)) = names::new_name_twice(books, alloc, request) else {
        *seat = Seat::Writing(UploadKind::New, request, upload, since);
        return Answer::Refused(Refusal::NoMemory);
    };
    let target = Target::Named(name);
    let staged = upload.len() as u64;
    match verdict_on_store(books, &target, &upload) {
        Verdict::Missing => unreachable!(),
        Verdict::Full => {
            books.staged -= staged;
            Answer::Status(507, None, books.commit)
        }
        Verdict::LastNumber => {
            *seat = Seat::Writing(UploadKind::New, request, upload, since);
            Answer::Refused(Refusal::LastNumber)
        }
        Verdict::Granted(status, triples, names) => {
            books::put_version(books, target, upload, triples, names);
            books.staged -= staged;
            Answer::Status(status, Some(location), books.commit)
        }
    }
}

/// Takes no memory.
pub fn delete(books: &mut Books, seat: &mut Seat, target: &Target, since: Option<u64>) -> Answer
    requires { IsReady books.old seat.old }
    ensures acts { Acts books.old books.new seat.old seat.new (Delete target.now since) result }
    ensures room { HoldsRoom books.old books.new seat.old seat.new }
{
    let Seat::Idle = seat else {
        return Answer::Refused(Refusal::WrongPhase);
    };
    if !books::is_there(books.rows.as_slice(), target) {
        return Answer::Status(404, None, books.commit);
    }
    if let Some(write) = late_write(books, target, since) {
        return Answer::Status(412, None, write);
    }
    match verdict_on_removal(books, target) {
        Verdict::Missing | Verdict::Full => unreachable!(),
        Verdict::LastNumber => Answer::Refused(Refusal::LastNumber),
        Verdict::Granted(status, triples, names) => {
            books::end_version(books, target, triples, names);
            Answer::Status(status, None, books.commit)
        }
    }
}
