//! What a plain store keeps besides its seats: the numbers given out, the counts, and the rows.
ghost use Rattle.std.specs.Prelude.{◌≡◌, ◌<◌, ◌^◌, length, count_by, vec_len, vec_capacity};
ghost use Rattle.gs_model.specs.Limits.{last_number};
ghost use Rattle.gs_event.specs.Datasets.{is_there as is_there_of, size_at as size_at_of, with_graph, without_graph, triples_in, names_in, records_in};
ghost use Rattle.gs_plain.specs.Books.{dataset_of, will_commit as will_commit_of, IsCounted};
ghost use Rattle.gs_plain.specs.Versions.{PutsVersion, EndsVersion, EndsRow};
ghost use Rattle.gs_plain.specs.Newest.{NewestRow};

use crate::last_writes::{default_after, removal_after};
use gs_event::{Limits, UploadKind};
use gs_graphs::SortedGraph;
use gs_term::Target;

/// A version of a graph. The newest row of a target is its current one, if it is not ended.
#[derive(Debug, Drop)]
pub struct Row {
    pub target: Target,
    pub graph: SortedGraph,
    /// The number of the commit that made it.
    pub birth: u64,
    /// The number of the commit that took its target's graph away while this row was its newest.
    pub ended: Option<u64>,
}

/// What a seat is doing.
#[derive(Debug, Drop)]
pub enum Seat {
    Idle,
    /// An upload: what it will do, its request number, what was staged, and its condition.
    Writing(UploadKind, u64, SortedGraph, Option<u64>),
    /// A patch of this target's graph, its request number, and its condition.
    Patching(Target, u64, Option<u64>),
    /// A read: the row that it reads (none for an empty default graph), how many lines were given,
    /// and the last commit number at its pin.
    Reading(Option<usize>, usize, u64),
    /// A read of all graphs: how many lines were given, and the last commit number at its pin.
    ReadingAll(usize, u64),
}

/// The numbers given out, how much there is, and the versions of all graphs.
#[derive(Debug, Drop)]
pub struct Books {
    /// Names of graphs that the store makes up begin with this.
    pub base: String,
    pub limits: Limits,
    /// The last request number.
    pub request: u64,
    /// The last commit number.
    pub commit: u64,
    /// Triples of current graphs.
    pub triples: u64,
    /// Names of current graphs.
    pub names: u64,
    /// Triples of open uploads.
    pub staged: u64,
    /// The number of the last commit that wrote or deleted the default graph; at first that of the start.
    pub default_write: u64,
    /// The number of the last Delete of a name; at first that of the start.
    pub last_removal: u64,
    /// The oldest first.
    pub rows: Vec<Row>,
}

/// The newest row of a target, where it is not ended. Linear in the rows.
pub fn newest(rows: &[Row], target: &Target) -> Option<usize>
    ensures { NewestRow rows.now target.now result }
{
    let mut found = None;
    for (i, row) in rows.iter().enumerate() {
        if row.target == *target {
            found = if row.ended.is_some() { None } else { Some(i) };
        }
    }
    found
}

/// Whether the target has a graph.
pub fn is_there(rows: &[Row], target: &Target) -> bool
    ensures { result ≡ is_there_of (dataset_of rows.now) target.now }
{
    matches!(target, Target::Default) || newest(rows, target).is_some()
}

/// How many triples the target's graph has.
pub fn size_at(rows: &[Row], target: &Target) -> u64
    ensures { result ≡ size_at_of (dataset_of rows.now) target.now }
{
    match newest(rows, target) {
        None => 0,
        Some(i) => rows[i].graph.len() as u64,
    }
}

/// How many records there are of the current graphs: one for each name, and one for a default graph
/// that has a triple.
pub fn record_count(books: &Books) -> u64
    requires { IsCounted books.now }
    ensures value { result ≡ records_in (dataset_of books.now.rows.items) }
    ensures few { result < 2 ^ 60 }
{
    if size_at(books.rows.as_slice(), &Target::Default) == 0 {
        return books.names;
    }
    books.names + 1
}

/// Whether the seat has an open upload or an open patch.
fn will_commit(seat: &Seat) -> bool
    ensures { result ≡ will_commit_of seat.now }
{
    matches!(seat, Seat::Writing(_, _, _, _) | Seat::Patching(_, _, _))
}

/// How many seats have one.
pub fn open_count(seats: &[Seat]) -> usize
    ensures value { result ≡ count_by will_commit_of seats.now }
    ensures few { result < 2 ^ 60 }
{
    seats.iter().filter(|seat| will_commit(*seat)).count()
}

/// Makes the graph the newest version of its target, under the next commit number; there are so
/// many triples and names then. The row goes where room was made for it, so this takes no memory.
pub fn put_version(books: &mut Books, target: Target, graph: SortedGraph, triples: u64, names: u64)
    requires counted { IsCounted books.old }
    requires triples { triples ≡ triples_in (with_graph (dataset_of books.old.rows.items) target graph) }
    requires names { names ≡ names_in (with_graph (dataset_of books.old.rows.items) target graph) }
    requires room { vec_len books.old.rows < vec_capacity books.old.rows }
    requires number { books.old.commit < last_number }
    ensures { PutsVersion books.old books.new target graph }
{
    books.triples = triples;
    books.names = names;
    books.commit += 1;
    books.default_write = default_after(books.default_write, &target, books.commit);
    books.rows.push_reserved(Row {
        target,
        graph,
        birth: books.commit,
        ended: None,
    });
}

/// Marks a row as ended by the commit of this number.
fn end_row(rows: &mut Vec<Row>, i: usize, commit: u64)
    requires { i < length rows.old.items }
    ensures row { EndsRow rows.old.items rows.new.items i commit }
    ensures len { vec_len rows.new ≡ vec_len rows.old }
    ensures capacity { vec_capacity rows.new ≡ vec_capacity rows.old }
{
    let row = &mut rows[i];
    row.ended = Some(commit);
}

/// Takes the target's graph away, under the next commit number; there are so many triples and
/// names then. Takes no memory.
pub fn end_version(books: &mut Books, target: &Target, triples: u64, names: u64)
    requires counted { IsCounted books.old }
    requires triples { triples ≡ triples_in (without_graph (dataset_of books.old.rows.items) target.now) }
    requires names { names ≡ names_in (without_graph (dataset_of books.old.rows.items) target.now) }
    requires number { books.old.commit < last_number }
    ensures { EndsVersion books.old books.new target.now }
{
    books.triples = triples;
    books.names = names;
    books.commit += 1;
    books.default_write = default_after(books.default_write, target, books.commit);
    books.last_removal = removal_after(books.last_removal, target, books.commit);
    let Some(i) = newest(books.rows.as_slice(), target) else {
        return;
    };
    end_row(&mut books.rows, i, books.commit);
}
