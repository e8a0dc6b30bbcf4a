//! Patches: the opening of one, and its commit.
ghost use Rattle.std.specs.Prelude.{◌≡◌, ◌<◌, IsTrue, IfOk, true, vec_len, vec_capacity};
ghost use Rattle.gs_event.specs.Datasets.{is_there as is_there_of};
ghost use Rattle.gs_event.specs.Updates.{patched as patched_of};
ghost use Rattle.gs_event.specs.declared.events.Action.TheVariants.{OpenPatch, CommitPatch};
ghost use Rattle.gs_plain.specs.declared.books.Seat.TheVariants.{Patching};
ghost use Rattle.gs_plain.specs.Books.{dataset_of, graph_now, will_commit, HasNodesFor, IsCounted};
ghost use Rattle.gs_plain.specs.Actions.{IsReady, Acts, CommitsPatch, KeepsRoom, HoldsRoom};

use crate::actions::MAX_NODES;
use crate::books::{self, Books, Seat};
use crate::last_writes::late_write;
use crate::verdicts::verdict_on_change;
use gs_event::{Answer, Op, Verdict};
use gs_graphs::{SortedGraph, update};
use gs_model::{LAST_NUMBER, Refusal};
use gs_term::Target;
use std::alloc::{AllocError, Global};
use std::mem;

/// Makes room for the row of the patched graph.
pub fn open(
    books: &mut Books,
    seat: &mut Seat,
    seats: usize,
    target: &Target,
    since: Option<u64>,
) -> Answer
    requires { IsReady books.old seat.old }
    ensures acts { Acts books.old books.new seat.old seat.new (OpenPatch target.now since) result }
    ensures room { KeepsRoom seats books.old books.new seat.old seat.new }
{
    let Seat::Idle = seat else {
        return Answer::Refused(Refusal::WrongPhase);
    };
    if books.request >= LAST_NUMBER {
        return Answer::Refused(Refusal::LastNumber);
    }
    let Ok(kept) = target.clone() else {
        return Answer::Refused(Refusal::NoMemory);
    };
    if books.rows.reserve(seats).is_err() {
        return Answer::Refused(Refusal::NoMemory);
    }
    books.request += 1;
    *seat = Seat::Patching(kept, books.request, since);
    Answer::Opened(books.request)
}

/// Commits the seat's open patch, with these operations.
pub fn commit(books: &mut Books, seat: &mut Seat, alloc: Global, operations: &Vec<Op>) -> Answer
    requires ready { IsReady books.old seat.old }
    requires room { IsTrue (will_commit seat.old) → vec_len books.old.rows < vec_capacity books.old.rows }
    ensures acts { Acts books.old books.new seat.old seat.new (CommitPatch operations.now) result }
    ensures room { HoldsRoom books.old books.new seat.old seat.new }
{
    match mem::replace(seat, Seat::Idle) {
        Seat::Patching(target, request, since) => {
            commit_at(books, seat, alloc, target, request, since, operations)
        }
        other => {
            *seat = other;
            Answer::Refused(Refusal::WrongPhase)
        }
    }
}

/// Makes the operations' result the target's graph, where it has one.
fn commit_at(
    books: &mut Books,
    seat: &mut Seat,
    alloc: Global,
    target: Target,
    request: u64,
    since: Option<u64>,
    operations: &Vec<Op>,
) -> Answer
    requires ready { IsReady books.old (Patching target request since) }
    requires room { vec_len books.old.rows < vec_capacity books.old.rows }
    requires idle { seat.old ≡ Seat.Idle }
    ensures acts { CommitsPatch books.old books.new target request since seat.new operations.now result }
    ensures room { HoldsRoom books.old books.new (Patching target request since) seat.new }
{
    if !books::is_there(books.rows.as_slice(), &target) {
        return Answer::Status(404, None, books.commit);
    }
    if let Some(write) = late_write(books, &target, since) {
        return Answer::Status(412, None, write);
    }
    let Ok(graph) = patched(books, alloc, &target, operations.as_slice()) else {
        *seat = Seat::Patching(target, request, since);
        return Answer::Refused(Refusal::NoMemory);
    };
    match verdict_on_change(books, &target, &graph) {
        Verdict::Missing => unreachable!(),
        Verdict::Full => Answer::Status(507, None, books.commit),
        Verdict::LastNumber => {
            *seat = Seat::Patching(target, request, since);
            Answer::Refused(Refusal::LastNumber)
        }
        Verdict::Granted(status, triples, names) => {
            books::put_version(books, target, graph, triples, names);
            Answer::Status(status, None, books.commit)
        }
    }
}

/// What the operations make of the target's graph, which stays. Where there are too few nodes for
/// its triples, that is want of memory too.
fn patched(
    books: &Books,
    alloc: Global,
    target: &Target,
    operations: &[Op],
) -> Result<SortedGraph, AllocError>
    requires counted { IsCounted books.now }
    requires there { is_there_of (dataset_of books.now.rows.items) target.now ≡ true }
    ensures value { IfOk result (λ g. g ≡ patched_of (graph_now books.now target.now) operations.now) }
    ensures few { IfOk result (λ g. HasNodesFor books.now target.now g) }
{
    let rows = books.rows.as_slice();
    let before = books::size_at(rows, target);
    let mut graph = current(books, alloc, target)?;
    update(&mut graph, alloc, operations)?;
    let others = books.triples - before + books.staged;
    if graph.len() as u64 > MAX_NODES - others {
        return Err(AllocError);
    }
    Ok(graph)
}

/// A copy of the target's graph.
fn current(books: &Books, alloc: Global, target: &Target) -> Result<SortedGraph, AllocError>
    requires { is_there_of (dataset_of books.now.rows.items) target.now ≡ true }
    ensures { IfOk result (λ g. graph_now books.now target.now ≡ Some g) }
{
    match books::newest(books.rows.as_slice(), target) {
        None => Ok(SortedGraph::new(alloc)),
        Some(i) => books.rows[i].graph.copied(alloc),
    }
}
