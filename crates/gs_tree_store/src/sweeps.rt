//! Terms that nothing needs any more lose their numbers.
ghost use Rattle.std.specs.Prelude.{ℕ};
ghost use Rattle.std.specs.List.{All};
ghost use Rattle.gs_keys.specs.Marks.{KeepsMarked, IsMarkedNode};
ghost use Rattle.gs_tree_store.specs.Sweeps.{IsMarkedPlace, SweepsTerms};

use crate::books::{Books, Seat};
use gs_keys::{mark_key, mark_nodes};
use std::alloc::{AllocError, Global};

/// So many bytes of texts at least are written between two sweeps, so that small stores are left alone.
const FEWEST_BYTES: u64 = 1 << 20;

/// And so many for each node and each number of a term, since a sweep looks at all of them.
const BYTES_OF_ONE: u64 = 16;

/// Whether a sweep is due is asked once so many nodes and records were freed, since terms are lost with nodes.
const FEWEST_FREED: u64 = 256;

/// What the last sweep left: how many bytes of texts, and how many nodes in use. And how many nodes and records were
/// freed since it was last asked whether another one is due.
#[derive(Clone, Copy, Debug, Drop)]
pub struct Swept {
    bytes: u64,
    nodes: u64,
    freed: u64,
}

impl Swept {
    /// Nothing was swept yet.
    pub fn nothing() -> Swept {
        Swept {
            bytes: 0,
            nodes: 0,
            freed: 0,
        }
    }

    /// What these books have now.
    fn of(books: &Books) -> Swept {
        Swept {
            bytes: books.dict.text_bytes() as u64,
            nodes: books.pool.nodes_in_use(),
            freed: 0,
        }
    }

    /// Whether another sweep is worth its time, which goes to all nodes and all numbers: as many bytes of texts
    /// were written as the last one left, or not half of the nodes are left that there were.
    fn is_due(&mut self, books: &Books) -> bool {
        let nodes = books.pool.nodes_in_use();
        if self.freed < FEWEST_FREED && nodes >= self.nodes / 2 {
            return false;
        }
        self.freed = 0;
        let bytes = books.dict.text_bytes() as u64;
        let looks = nodes.saturating_add(books.dict.len() as u64);
        let least = FEWEST_BYTES.max(looks.saturating_mul(BYTES_OF_ONE));
        let written = bytes.saturating_sub(self.bytes);
        written >= self.bytes.max(least) || bytes >= FEWEST_BYTES && nodes < self.nodes / 2
    }
}

/// Marks the terms of the key at which a seat's read stands, if it does.
#[tactic(auto, using(crate::proofs::PlaceMarkLemmas::marks_kept))]
fn mark_place(seat: &Seat, marks: &mut [bool])
    ensures kept { KeepsMarked marks.old marks.new }
    ensures marked { IsMarkedPlace marks.new seat.now }
{
    match seat {
        Seat::Reading(_, Some(key)) => mark_key(*key, marks),
        Seat::ReadingAll(_, Some(place)) => mark_key(place.1, marks),
        _ => {}
    }
}

/// The same, of all seats.
fn mark_places(seats: &[Seat], marks: &mut [bool])
    ensures kept { KeepsMarked marks.old marks.new }
    ensures marked { All (IsMarkedPlace marks.new) seats.now }
{
    for seat in seats {
        mark_place(seat, marks);
    }
}

/// Marks the terms of the keys of all nodes, and of those at which reads stand.
#[tactic(auto, using(gs_keys::proofs::KeyMarkLemmas::kept_both))]
fn mark_needed(books: &Books, seats: &[Seat], marks: &mut [bool])
    ensures kept { KeepsMarked marks.old marks.new }
    ensures nodes { (id : ℕ) → IsMarkedNode books.now.pool marks.new id }
    ensures places { All (IsMarkedPlace marks.new) seats.now }
{
    mark_nodes(&books.pool, marks);
    mark_places(seats, marks);
}

/// Takes from the dictionary the terms that neither a node's key nor the place of a read has. Where memory is
/// wanted for the marks, all terms stay. Whether it was there.
#[tactic(auto, using(crate::proofs::MarkedLemmas::unswept_books))]
fn sweep(books: &mut Books, seats: &[Seat], alloc: Global) -> bool
    ensures { SweepsTerms books.old seats.now books.new }
{
    let count = books.dict.len();
    let marks: Result<Vec<bool>, AllocError> = vec![in alloc; false; count];
    let Ok(mut marks) = marks else {
        return false;
    };
    mark_needed(books, seats, &mut marks);
    books.dict.sweep(&marks, 0, count);
    books.dict.compact();
    true
}

/// After so many nodes and records were freed: where that was all that may go, and it is due, terms that nothing
/// needs are swept.
#[tactic(auto, using(crate::proofs::MarkedLemmas::unswept_books))]
pub fn settle(
    swept: &mut Swept,
    books: &mut Books,
    seats: &[Seat],
    alloc: Global,
    freed: u64,
    are_all: bool,
)
    ensures { SweepsTerms books.old seats.now books.new }
{
    swept.freed = swept.freed.saturating_add(freed);
    if !are_all || !swept.is_due(books) {
        return;
    }
    if sweep(books, seats, alloc) {
        *swept = Swept::of(books);
    }
}
