//! What a store is asked, as the generator and a model have it.
use crate::molds::Mold;

/// A graph: the default graph, two names, and those that the store makes up, by a request and a number.
#[derive(Clone, Copy, Drop, PartialEq)]
pub enum Place {
    Default,
    A,
    B,
    Made(u64, u64),
}

/// What a question or a read is about: a graph, or all of them.
#[derive(Clone, Copy, Drop)]
pub enum Scope {
    One(Place),
    All,
}

/// What an upload will do.
#[derive(Clone, Copy, Drop)]
pub enum Kind {
    Put(Place),
    Post(Place),
    New,
}

/// An operation. Lists of triples may have repeats.
#[derive(Drop)]
pub enum Edit {
    Insert(Vec<usize>),
    Remove(Vec<usize>),
    /// What one pattern finds, or two.
    Where(Mold, Option<Mold>),
}

/// What a seat is asked. Some writes have a condition: the commit number since which their graph must not have
/// been written.
#[derive(Drop)]
pub enum Ask {
    Open(Kind, Option<u64>),
    OpenPatch(Place, Option<u64>),
    Stage(Vec<usize>),
    Commit,
    Patch(Vec<Edit>),
    Delete(Place, Option<u64>),
    Head(Scope),
    Pin(Scope),
    Piece(u32),
    Cancel,
}

/// The same without what it brings, by number in the order of `Ask`.
pub fn sort_of(ask: &Ask) -> usize {
    match ask {
        Ask::Open(_, _) => 0,
        Ask::OpenPatch(_, _) => 1,
        Ask::Stage(_) => 2,
        Ask::Commit => 3,
        Ask::Patch(_) => 4,
        Ask::Delete(_, _) => 5,
        Ask::Head(_) => 6,
        Ask::Pin(_) => 7,
        Ask::Piece(_) => 8,
        Ask::Cancel => 9,
    }
}

/// How many sorts there are.
pub const SORTS: usize = 10;

/// Their names.
pub const SORT_NAMES: [&str; SORTS] = [
    "Open",
    "OpenPatch",
    "Stage",
    "Commit",
    "CommitPatch",
    "Delete",
    "Head",
    "Pin",
    "Piece",
    "Cancel",
];
