//! The stores that schedules are played on, of four seats or of all that there may be.
ghost use Rattle.std.specs.Prelude.{◌≤◌};
ghost use Rattle.gs_model.specs.Limits.{last_number};

use gs_core::{MAX_NAMES, MAX_TRIPLES, Store};
use gs_drawn_events::BASE;
use gs_drawn_schedules::{Counts, Subject};
use gs_event::{Answer, Event, Limits};
use gs_model::{LAST_NUMBER, Refusal};
use gs_plain::PlainStore;
use gs_tree_store::{Storage, TreeStore};
use std::alloc::Global;

/// What a store that programs use may hold.
pub const WHOLE: Limits = Limits {
    triples: MAX_TRIPLES,
    names: MAX_NAMES,
};

/// Little, so that writes end in 507.
pub const SMALL: Limits = Limits {
    triples: 22,
    names: 3,
};

/// This number, or the last where it is above that.
fn within(start: u64) -> u64
    ensures { result ≤ last_number }
{
    if start < LAST_NUMBER {
        start
    } else {
        LAST_NUMBER
    }
}

/// A store.
#[derive(Drop)]
pub enum Played {
    /// The store that programs use.
    Whole(Store),
    /// The same below it, which holds little.
    Small(TreeStore),
    /// The plain store.
    Plain(PlainStore),
}

impl Played {
    /// A new store as programs use it, after the commit of this number.
    pub fn whole(alloc: Global, start: u64) -> Result<Played, Refusal> {
        let store = Store::starting_at(alloc, 4, BASE, within(start), 0)?;
        Ok(Played::Whole(store))
    }

    /// The same of 512 seats.
    pub fn with_seats(alloc: Global) -> Result<Played, Refusal> {
        Ok(Played::Whole(Store::new(alloc, 512, BASE)?))
    }

    /// A new plain store of as many, which holds as much.
    pub fn plain_with_seats(alloc: Global) -> Result<Played, Refusal> {
        let store = PlainStore::starting_at(alloc, 512, BASE, WHOLE, 0, 0)?;
        Ok(Played::Plain(store))
    }

    /// A new store of four seats, whose last node and last term have these numbers.
    pub fn with_last(alloc: Global, node: u32, term: u32) -> Result<Played, Refusal> {
        let store = Store::with_last(alloc, 4, BASE, node, term)?;
        Ok(Played::Whole(store))
    }

    /// A new store that holds little, after the commit of this number.
    pub fn small(alloc: Global, start: u64) -> Result<Played, Refusal> {
        let storage = Storage::of_seed(7);
        let store = TreeStore::starting_at(alloc, 4, BASE, SMALL, within(start), 0, storage)?;
        Ok(Played::Small(store))
    }

    /// A new plain store that holds as much as this, after the commit of this number.
    pub fn plain(alloc: Global, limits: Limits, start: u64) -> Result<Played, Refusal> {
        let store = PlainStore::starting_at(alloc, 4, BASE, limits, within(start), 0)?;
        Ok(Played::Plain(store))
    }

    fn nodes(&self) -> u64 {
        match self {
            Played::Whole(store) => store.nodes_in_use(),
            Played::Small(store) => store.nodes_in_use(),
            Played::Plain(store) => store.nodes_in_use(),
        }
    }

    fn triples(&self) -> u64 {
        match self {
            Played::Whole(store) => store.triples_now(),
            Played::Small(store) => store.triples_now(),
            Played::Plain(store) => store.triples_now(),
        }
    }
}

impl Subject for Played {
    fn step(&mut self, event: &Event) -> Answer {
        match self {
            Played::Whole(store) => store.step(event),
            Played::Small(store) => store.step(event),
            Played::Plain(store) => store.step(event),
        }
    }

    fn counts(&self) -> Counts {
        Counts {
            nodes: self.nodes(),
            triples: self.triples(),
        }
    }
}
