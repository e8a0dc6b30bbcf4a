//! Reads: whether there is a graph, the pin of one or of all, and their lines piece by piece.
ghost use Rattle.std.specs.Prelude.{◌≡◌, ◌+◌, ◌<◌, ◌^◌, ℕ, true, false, IfSome, IfOk, length, take, drop};
ghost use Rattle.std.specs.List.{concat};
ghost use Rattle.gs_event.specs.Datasets.{has as has_of};
ghost use Rattle.gs_event.specs.declared.events.Action.TheVariants.{Head, Pin, Piece};
ghost use Rattle.gs_event.specs.declared.events.Scope.TheVariants.{One, All};
ghost use Rattle.gs_plain.specs.Books.{dataset_of, row_lines, is_of_all};
ghost use Rattle.gs_plain.specs.Actions.{IsReady, Acts, HoldsRoom};

use crate::books::{self, Books, Row, Seat};
use crate::quads;
use gs_event::{Answer, Scope};
use gs_model::Refusal;
use gs_term::Target;
use gs_texts::Lines;
use std::alloc::{AllocError, Global};

/// Whether the scope can be read: the dataset always, and a target where it has a graph.
fn has(rows: &[Row], scope: &Scope) -> bool
    ensures { result ≡ has_of (dataset_of rows.now) scope.now }
{
    match scope {
        Scope::One(target) => books::is_there(rows, target),
        Scope::All => true,
    }
}

/// Answers 200 where the scope can be read, and else 404, if the seat is idle.
pub fn head(books: &mut Books, seat: &mut Seat, scope: &Scope) -> Answer
    requires { IsReady books.old seat.old }
    ensures acts { Acts books.old books.new seat.old seat.new (Head scope.now) result }
    ensures room { HoldsRoom books.old books.new seat.old seat.new }
{
    let Seat::Idle = seat else {
        return Answer::Refused(Refusal::WrongPhase);
    };
    let there = has(books.rows.as_slice(), scope);
    Answer::Status(if there { 200 } else { 404 }, None, books.commit)
}

/// Begins a read of the scope at the seat, if it is idle. Takes no memory.
pub fn pin(books: &mut Books, seat: &mut Seat, scope: &Scope) -> Answer
    requires { IsReady books.old seat.old }
    ensures acts { Acts books.old books.new seat.old seat.new (Pin scope.now) result }
    ensures room { HoldsRoom books.old books.new seat.old seat.new }
{
    match scope {
        Scope::One(target) => pin_one(books, seat, target),
        Scope::All => pin_all(books, seat),
    }
}

/// The same of all graphs: a read of them needs no more than the last commit number.
fn pin_all(books: &mut Books, seat: &mut Seat) -> Answer
    requires { IsReady books.old seat.old }
    ensures acts { Acts books.old books.new seat.old seat.new (Pin All) result }
    ensures room { HoldsRoom books.old books.new seat.old seat.new }
{
    let Seat::Idle = seat else {
        return Answer::Refused(Refusal::WrongPhase);
    };
    *seat = Seat::ReadingAll(0, books.commit);
    Answer::Pinned(200, books.commit)
}

/// The same of one graph.
fn pin_one(books: &mut Books, seat: &mut Seat, target: &Target) -> Answer
    requires { IsReady books.old seat.old }
    ensures acts { Acts books.old books.new seat.old seat.new (Pin (One target.now)) result }
    ensures room { HoldsRoom books.old books.new seat.old seat.new }
{
    let Seat::Idle = seat else {
        return Answer::Refused(Refusal::WrongPhase);
    };
    let row = books::newest(books.rows.as_slice(), target);
    if row.is_none() && !matches!(target, Target::Default) {
        return Answer::Pinned(404, books.commit);
    }
    *seat = Seat::Reading(row, 0, books.commit);
    Answer::Pinned(200, books.commit)
}

/// At most `count` lines more of the seat's read, which ends where none are left.
pub fn piece(books: &mut Books, seat: &mut Seat, alloc: Global, count: u32) -> Answer
    requires { IsReady books.old seat.old }
    ensures acts { Acts books.old books.new seat.old seat.new (Piece count) result }
    ensures room { HoldsRoom books.old books.new seat.old seat.new }
{
    if count == 0 {
        return Answer::Refused(Refusal::WrongPhase);
    }
    match seat {
        Seat::ReadingAll(_, _) => piece_of_all(books, seat, alloc, count),
        _ => piece_of_one(books, seat, alloc, count),
    }
}

/// The same of a read of one graph.
fn piece_of_one(books: &mut Books, seat: &mut Seat, alloc: Global, count: u32) -> Answer
    requires ready { IsReady books.old seat.old }
    requires some { 0 < count }
    requires one { is_of_all seat.old ≡ false }
    ensures acts { Acts books.old books.new seat.old seat.new (Piece count) result }
    ensures room { HoldsRoom books.old books.new seat.old seat.new }
{
    let Seat::Reading(row, given, _) = seat else {
        return Answer::Refused(Refusal::WrongPhase);
    };
    let count = count as usize;
    let Ok((bytes, left)) = read(books.rows.as_slice(), *row, *given, count, alloc) else {
        return Answer::Refused(Refusal::NoMemory);
    };
    if left <= count {
        *seat = Seat::Idle;
        return Answer::Lines(Lines::of(bytes), true);
    }
    *given += count;
    Answer::Lines(Lines::of(bytes), false)
}

/// The same of a read of all graphs, by their versions at its pin.
fn piece_of_all(books: &mut Books, seat: &mut Seat, alloc: Global, count: u32) -> Answer
    requires ready { IsReady books.old seat.old }
    requires some { 0 < count }
    requires all { is_of_all seat.old ≡ true }
    ensures acts { Acts books.old books.new seat.old seat.new (Piece count) result }
    ensures room { HoldsRoom books.old books.new seat.old seat.new }
{
    let Seat::ReadingAll(given, pin) = seat else {
        unreachable!();
    };
    let (given, pin) = (*given, *pin);
    let count = count as usize;
    let rows = books.rows.as_slice();
    let Ok((bytes, left)) = quads::quads_from(rows, pin, given, count, alloc) else {
        return Answer::Refused(Refusal::NoMemory);
    };
    if left <= count {
        *seat = Seat::Idle;
        return Answer::Lines(Lines::of(bytes), true);
    }
    *seat = Seat::ReadingAll(given + count, pin);
    Answer::Lines(Lines::of(bytes), false)
}

/// The next lines of a row, and how many lines it has left.
fn read(
    rows: &[Row],
    row: Option<usize>,
    given: usize,
    count: usize,
    alloc: Global,
) -> Result<(Vec<u8>, usize), AllocError>
    requires { IfSome row (λ i. i < length rows.now) }
    ensures bytes { IfOk result (λ r. r.0.items ≡ concat (take count (drop given (row_lines rows.now row)))) }
    ensures left { IfOk result (λ r. r.1 ≡ length (drop given (row_lines rows.now row))) }
    ensures fits { IfOk result (λ r. count < r.1 → given + count < 2 ^ 64) }
{
    let Some(i) = row else {
        return Ok((Vec::new(alloc), 0));
    };
    let graph = &rows[i].graph;
    let bytes = graph.lines_from(alloc, given, count)?;
    Ok((bytes, graph.len().saturating_sub(given)))
}
