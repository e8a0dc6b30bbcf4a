//! Reads: whether there is what is asked for, the pin of a graph or of all of them, and the lines piece
//! by piece.
ghost use Rattle.std.specs.Prelude.{◌≡◌, ◌<◌, IfOk, Some, length};
ghost use Rattle.gs_event.specs.Datasets.{has};
ghost use Rattle.gs_event.specs.declared.events.Action.TheVariants.{Head, Pin, Piece as PieceOf};
ghost use Rattle.gs_event.specs.declared.events.Scope.TheVariants.{One, All};
ghost use Rattle.gs_keys.specs.Roots.{IsGraphAt};
ghost use Rattle.gs_lines.specs.Pieces.{IsPiece};
ghost use Rattle.gs_quads.specs.Pieces.{AreGraphs, IsQuadPlace, IsQuadPiece};
ghost use Rattle.gs_versions.specs.Pins.{with_pin};
ghost use Rattle.gs_tree_store.specs.declared.books.Seat.TheVariants.{Reading, ReadingAll};
ghost use Rattle.gs_tree_store.specs.Books.{dataset_of, IsReady};
ghost use Rattle.gs_tree_store.specs.Opened.{KeepsRecords};
ghost use Rattle.gs_tree_store.specs.Actions.{Acts, ActsAny, IsReadyAny};

use crate::books::{self, Books, Seat};
use gs_event::{Answer, Scope};
use gs_lines::{Piece, next_piece};
use gs_model::Refusal;
use gs_pool::Key;
use gs_quads::{QuadPiece, next_quads};
use gs_term::Target;
use gs_versions::Versions;
use std::alloc::{AllocError, Global};

/// Whether there is what is asked for.
fn has_scope(books: &Books, scope: &Scope) -> bool
    ensures { result ≡ has (dataset_of books.now) scope.now }
{
    match scope {
        Scope::One(target) => books::is_there(books, target),
        Scope::All => true,
    }
}

/// Answers 200 where the graph is there, or the whole dataset is asked for, and else 404, if the seat
/// is idle.
pub fn head(books: &mut Books, seat: &mut Seat, scope: &Scope) -> Answer
    requires { IsReadyAny books.old seat.old }
    ensures acts { ActsAny books.old books.new seat.old seat.new (Head scope.now) result }
    ensures records { KeepsRecords books.old books.new seat.old seat.new (Head scope.now) result }
{
    let Seat::Idle = seat else {
        return Answer::Refused(Refusal::WrongPhase);
    };
    let status = if has_scope(books, scope) { 200 } else { 404 };
    Answer::Status(status, None, books.versions.commit())
}

/// Begins a read of a graph or of all of them, as they are now, if the seat is idle and the graph is
/// there.
pub fn pin(books: &mut Books, seat: &mut Seat, number: u16, scope: &Scope) -> Answer
    requires { IsReady books.old number seat.old }
    ensures acts { Acts books.old books.new number seat.old seat.new (Pin scope.now) result }
    ensures records { KeepsRecords books.old books.new seat.old seat.new (Pin scope.now) result }
{
    match scope {
        Scope::One(target) => pin_one(books, seat, number, target),
        Scope::All => pin_all(books, seat, number),
    }
}

/// Begins a read of the target's graph, if there is one.
fn pin_one(books: &mut Books, seat: &mut Seat, number: u16, target: &Target) -> Answer
    requires { IsReady books.old number seat.old }
    ensures acts { Acts books.old books.new number seat.old seat.new (Pin (One target.now)) result }
    ensures records { KeepsRecords books.old books.new seat.old seat.new (Pin (One target.now)) result }
{
    let Seat::Idle = seat else {
        return Answer::Refused(Refusal::WrongPhase);
    };
    let Some(version) = books.records.get(target) else {
        return Answer::Pinned(404, books.versions.commit());
    };
    books.versions.pin(number);
    *seat = Seat::Reading(version.root, None);
    Answer::Pinned(200, books.versions.commit())
}

/// Begins a read of all graphs.
fn pin_all(books: &mut Books, seat: &mut Seat, number: u16) -> Answer
    requires { IsReady books.old number seat.old }
    ensures acts { Acts books.old books.new number seat.old seat.new (Pin All) result }
    ensures records { KeepsRecords books.old books.new seat.old seat.new (Pin All) result }
{
    let Seat::Idle = seat else {
        return Answer::Refused(Refusal::WrongPhase);
    };
    // The number of the last commit says that records are listed in order, and that none is later.
    let _last = books.records.latest();
    *seat = Seat::ReadingAll(pinned(&mut books.versions, number), None);
    Answer::Pinned(200, books.versions.commit())
}

/// Pins the current version for the seat of this number, and answers which it is.
fn pinned(versions: &mut Versions, number: u16) -> u64
    requires { number < length versions.old.seats }
    ensures pins { versions.new ≡ with_pin versions.old number (Some versions.old.commit) }
    ensures version { result ≡ versions.old.commit }
{
    let version = versions.commit();
    versions.pin(number);
    version
}

/// At most `count` lines more of the seat's read, which ends where none are left.
pub fn piece(books: &mut Books, seat: &mut Seat, number: u16, alloc: Global, count: u32) -> Answer
    requires { IsReady books.old number seat.old }
    ensures acts { Acts books.old books.new number seat.old seat.new (PieceOf count) result }
    ensures records { KeepsRecords books.old books.new seat.old seat.new (PieceOf count) result }
{
    if count == 0 {
        return Answer::Refused(Refusal::WrongPhase);
    }
    match seat {
        Seat::Reading(root, last) => {
            let (root, last) = (*root, *last);
            piece_of_one(books, seat, number, alloc, root, last, count)
        }
        Seat::ReadingAll(version, last) => {
            let (version, last) = (*version, *last);
            piece_of_all(books, seat, number, alloc, version, last, count)
        }
        _ => Answer::Refused(Refusal::WrongPhase),
    }
}

/// The same of a read of one graph.
fn piece_of_one(
    books: &mut Books,
    seat: &mut Seat,
    number: u16,
    alloc: Global,
    root: Option<u32>,
    last: Option<Key>,
    count: u32,
) -> Answer
    requires ready { IsReady books.old number seat.old }
    requires reads { seat.old ≡ Reading root last }
    requires some { 0 < count }
    ensures acts { Acts books.old books.new number seat.old seat.new (PieceOf count) result }
    ensures records { KeepsRecords books.old books.new seat.old seat.new (PieceOf count) result }
{
    let Ok(piece) = lines_after(books, alloc, root, last, count) else {
        return Answer::Refused(Refusal::NoMemory);
    };
    if piece.is_end {
        books.versions.unpin(number);
        *seat = Seat::Idle;
        return Answer::Lines(piece.lines, true);
    }
    *seat = Seat::Reading(root, piece.last);
    Answer::Lines(piece.lines, false)
}

/// At most `count` lines of a root's graph: those after the key `last`, or from the first on.
fn lines_after(
    books: &Books,
    alloc: Global,
    root: Option<u32>,
    last: Option<Key>,
    count: u32,
) -> Result<Piece, AllocError>
    requires graph { IsGraphAt books.now.dict.terms books.now.pool root }
    requires some { 0 < count }
    ensures { IfOk result (IsPiece books.now.dict.terms books.now.pool root last count) }
{
    next_piece(alloc, &books.dict, &books.pool, root, last, count)
}

/// The same of a read of all graphs.
fn piece_of_all(
    books: &mut Books,
    seat: &mut Seat,
    number: u16,
    alloc: Global,
    version: u64,
    last: Option<(u32, Key)>,
    count: u32,
) -> Answer
    requires ready { IsReady books.old number seat.old }
    requires reads { seat.old ≡ ReadingAll version last }
    requires some { 0 < count }
    ensures acts { Acts books.old books.new number seat.old seat.new (PieceOf count) result }
    ensures records { KeepsRecords books.old books.new seat.old seat.new (PieceOf count) result }
{
    let Ok(piece) = quads_after(books, alloc, version, last, count) else {
        return Answer::Refused(Refusal::NoMemory);
    };
    if piece.is_end {
        books.versions.unpin(number);
        *seat = Seat::Idle;
        return Answer::Lines(piece.lines, true);
    }
    *seat = Seat::ReadingAll(version, piece.last);
    Answer::Lines(piece.lines, false)
}

/// At most `count` lines of all graphs of a version: those after the place `last`, or from the first on.
fn quads_after(
    books: &Books,
    alloc: Global,
    version: u64,
    last: Option<(u32, Key)>,
    count: u32,
) -> Result<QuadPiece, AllocError>
    requires graphs { AreGraphs books.now.dict.terms books.now.pool version books.now.records.records }
    requires place { IsQuadPlace books.now.dict.terms version books.now.records.records last }
    requires some { 0 < count }
    ensures { IfOk result
        (IsQuadPiece books.now.dict.terms books.now.pool version books.now.records last count) }
{
    next_quads(
        alloc,
        &books.dict,
        &books.pool,
        &books.records,
        version,
        last,
        count,
    )
}
