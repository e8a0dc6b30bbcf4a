//! Stores, and what is seen of them after a conversation.
use crate::cases::Numbers;
use gs_core::{Action, Answer, Event, Refusal, Scope, Store};
use gs_term::{GraphName, Target};
use std::alloc::Global;

pub const BASE: &str = "http://localhost";

/// The last number of a request, and of a commit.
const LAST_NUMBER: u64 = 999_999_999_999_999_999;

/// A store with one seat.
pub fn new_store(alloc: Global, numbers: Numbers) -> Result<Store, Refusal> {
    match numbers {
        Numbers::All => Store::new(alloc, 1, BASE),
        Numbers::NoRequest => Store::starting_at(alloc, 1, BASE, 0, LAST_NUMBER),
        Numbers::NoCommit => Store::starting_at(alloc, 1, BASE, LAST_NUMBER, 0),
        Numbers::Nodes(last) => Store::with_last(alloc, 1, BASE, last, u32::MAX),
        Numbers::Terms(last) => Store::with_last(alloc, 1, BASE, u32::MAX, last),
    }
}

/// What is seen of a store: its number of triples, and of records, and which of some graphs it has, a bit for
/// each.
#[derive(Clone, Copy, Drop, PartialEq)]
pub struct State {
    triples: u64,
    records: u64,
    graphs: u8,
}

/// Whether no waste is left once a store gives back what it may.
fn gives_all_back(store: &mut Store) -> bool {
    let answer = store.step(&Event::Reclaim(u64::MAX));
    matches!(answer, Answer::Reclaimed(_, false))
}

/// Questions for graphs that conversations make.
#[derive(Drop)]
pub struct Probe {
    heads: Vec<Event>,
}

impl Probe {
    /// Questions for the default graph, and for those that conversations make.
    pub fn new(alloc: Global) -> Result<Probe, Refusal> {
        let mut heads = Vec::new(alloc);
        let default = Event::Seat(0, Action::Head(Scope::One(Target::Default)));
        heads.push(default)?;
        for name in [
            "http://e/g",
            "http://localhost/graphs/h",
            "http://localhost/graphs/n1-0",
        ] {
            let target = Target::Named(GraphName::new(alloc, name)?);
            let head = Event::Seat(0, Action::Head(Scope::One(target)));
            heads.push(head)?;
        }
        Ok(Probe { heads })
    }

    /// The state of a store whose seat is idle, and in which no waste is left once it is given back: then it
    /// has nothing but a node for each triple and the records of its graphs.
    pub fn state_of(&self, store: &mut Store) -> Option<State> {
        if !gives_all_back(store) {
            return None;
        }
        let triples = store.triples_now();
        let records = store.nodes_in_use().checked_sub(triples)?;
        let mut graphs = 0u8;
        for head in &self.heads {
            let Answer::Status(status, _, _) = store.step(head) else {
                return None;
            };
            graphs = graphs.wrapping_mul(2).wrapping_add(u8::from(status == 200));
        }
        Some(State {
            triples,
            records,
            graphs,
        })
    }
}
