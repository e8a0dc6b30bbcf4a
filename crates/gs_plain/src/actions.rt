//! What a seat's action does to the books and to the seat. A refused action changes neither.
ghost use Rattle.std.specs.Prelude.{◌≡◌, ◌<◌, ℕ, IsTrue, vec_len, vec_capacity};
ghost use Rattle.gs_plain.specs.Books.{will_commit};
ghost use Rattle.gs_plain.specs.Actions.{IsReady, Acts, KeepsRoom, HoldsRoom};

use crate::books::{self, Books, Seat};
use crate::{patches, reads, writes};
use gs_event::{Action, Answer, UploadKind};
use gs_graphs::SortedGraph;
use gs_model::{LAST_NODE, LAST_NUMBER, Refusal};
use gs_term::Target;
use gs_triple_lists::TripleList;
use std::alloc::Global;

/// The most nodes, of current graphs and open uploads: their numbers begin at 0.
pub const MAX_NODES: u64 = LAST_NODE + 1;

/// Any action, at a store of so many seats.
pub fn act(
    books: &mut Books,
    seat: &mut Seat,
    seats: usize,
    alloc: Global,
    action: &Action,
) -> Answer
    requires ready { IsReady books.old seat.old }
    requires room { IsTrue (will_commit seat.old) → vec_len books.old.rows < vec_capacity books.old.rows }
    ensures acts { Acts books.old books.new seat.old seat.new action.now result }
    ensures room { KeepsRoom seats books.old books.new seat.old seat.new }
{
    match action {
        Action::Open(kind, since) => open(books, seat, seats, alloc, kind, *since),
        Action::OpenPatch(target, since) => patches::open(books, seat, seats, target, *since),
        Action::Stage(triples) => stage(books, seat, alloc, triples),
        Action::Commit => writes::commit(books, seat, alloc),
        Action::CommitPatch(operations) => patches::commit(books, seat, alloc, operations),
        Action::Delete(target, since) => writes::delete(books, seat, target, *since),
        Action::Head(scope) => reads::head(books, seat, scope),
        Action::Pin(scope) => reads::pin(books, seat, scope),
        Action::Piece(count) => reads::piece(books, seat, alloc, *count),
        Action::Cancel => cancel(books, seat),
    }
}

/// Makes room for the row of the upload, so that its commit takes no memory for it.
fn open(
    books: &mut Books,
    seat: &mut Seat,
    seats: usize,
    alloc: Global,
    kind: &UploadKind,
    since: Option<u64>,
) -> Answer
    requires { IsReady books.old seat.old }
    ensures acts { Acts books.old books.new seat.old seat.new (Action.Open kind.now since) result }
    ensures room { KeepsRoom seats books.old books.new seat.old seat.new }
{
    let Seat::Idle = seat else {
        return Answer::Refused(Refusal::WrongPhase);
    };
    if books.request >= LAST_NUMBER {
        return Answer::Refused(Refusal::LastNumber);
    }
    let Ok(kept) = kind.clone() else {
        return Answer::Refused(Refusal::NoMemory);
    };
    if books.rows.reserve(seats).is_err() {
        return Answer::Refused(Refusal::NoMemory);
    }
    books.request += 1;
    *seat = Seat::Writing(kept, books.request, SortedGraph::new(alloc), since);
    Answer::Opened(books.request)
}

/// The whole piece or nothing. Where there are too few nodes for the triples of the piece, that is
/// want of memory too.
fn stage(books: &mut Books, seat: &mut Seat, alloc: Global, triples: &TripleList) -> Answer
    requires { IsReady books.old seat.old }
    ensures acts { Acts books.old books.new seat.old seat.new (Action.Stage triples.now) result }
    ensures room { HoldsRoom books.old books.new seat.old seat.new }
{
    let Seat::Writing(_, _, graph, _) = seat else {
        return Answer::Refused(Refusal::WrongPhase);
    };
    let others = books.staged - graph.len() as u64;
    let most = MAX_NODES - (books.triples + others);
    let Ok(triples) = triples.to_vec(alloc) else {
        return Answer::Refused(Refusal::NoMemory);
    };
    match graph.add_within(alloc, triples.as_slice(), most) {
        Ok(()) => {
            books.staged = others + graph.len() as u64;
            Answer::Staged
        }
        Err(_) => Answer::Refused(Refusal::NoMemory),
    }
}

fn cancel(books: &mut Books, seat: &mut Seat) -> Answer
    requires { IsReady books.old seat.old }
    ensures acts { Acts books.old books.new seat.old seat.new Action.Cancel result }
    ensures room { HoldsRoom books.old books.new seat.old seat.new }
{
    match seat {
        Seat::Idle => return Answer::Refused(Refusal::WrongPhase),
        Seat::Writing(_, _, graph, _) => books.staged -= graph.len() as u64,
        Seat::Patching(_, _, _) | Seat::Reading(_, _, _) | Seat::ReadingAll(_, _) => {}
    }
    *seat = Seat::Idle;
    Answer::Cancelled
}
