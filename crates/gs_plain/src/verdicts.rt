//! What becomes of a write, by the books alone.
ghost use Rattle.std.specs.Prelude.{◌≡◌};
ghost use Rattle.gs_event.specs.Verdicts.{DecidesRemoval, place_in};
ghost use Rattle.gs_plain.specs.Books.{dataset_of, held_by, verdict_by, ChangesBy, DecidesBy, IsCounted};

use crate::books::{self, Books};
use gs_event::{Change, Holdings, Place, Verdict, verdict_on};
use gs_graphs::SortedGraph;
use gs_term::Target;

fn holdings(books: &Books) -> Holdings
    requires { IsCounted books.now }
    ensures { result ≡ held_by books.now }
{
    Holdings {
        triples: books.triples,
        names: books.names,
        commit: books.commit,
        limits: books.limits,
    }
}

fn place(books: &Books, target: &Target) -> Place
    ensures { result ≡ place_in (dataset_of books.now.rows.items) target.now }
{
    let rows = books.rows.as_slice();
    Place {
        is_name: matches!(target, Target::Named(_)),
        is_there: books::is_there(rows, target),
        triples: books::size_at(rows, target),
    }
}

/// What becomes of a write that changes its target so.
fn verdict(books: &Books, target: &Target, change: Change) -> Verdict
    requires { IsCounted books.now }
    ensures { result ≡ verdict_by books.now target.now change }
{
    let held = holdings(books);
    let place = place(books, target);
    verdict_on(&held, &place, change)
}

/// What becomes of a write that makes the graph its target's, and may create it.
pub fn verdict_on_store(books: &Books, target: &Target, graph: &SortedGraph) -> Verdict
    requires { IsCounted books.now }
    ensures { DecidesBy books.now target.now graph.now result }
{
    verdict(books, target, Change::Stores(graph.len() as u64, true))
}

/// What becomes of a write that makes the graph its target's, where it has one.
pub fn verdict_on_change(books: &Books, target: &Target, graph: &SortedGraph) -> Verdict
    requires { IsCounted books.now }
    ensures { ChangesBy books.now target.now graph.now result }
{
    verdict(books, target, Change::Stores(graph.len() as u64, false))
}

/// What becomes of a write that takes the target's graph away.
pub fn verdict_on_removal(books: &Books, target: &Target) -> Verdict
    requires { IsCounted books.now }
    ensures { DecidesRemoval (dataset_of books.now.rows.items) books.now.commit target.now result }
{
    verdict(books, target, Change::Removes)
}
