//! The store, and the headline as the contract of its run.
ghost use Rattle.std.specs.Prelude.{◌≡◌, ◌≤◌, [], true, IfOk, IfErr, OnErr, length};
ghost use Rattle.gs_model.specs.Bases.{is_base};
ghost use Rattle.gs_model.specs.Limits.{last_number, max_seats};
ghost use Rattle.gs_event.specs.Datasets.{triples_in};
ghost use Rattle.gs_event.specs.Steps.{Steps};
ghost use Rattle.gs_event.specs.Runs.{Runs};
ghost use Rattle.gs_event.specs.Histories.{ShowsStart, HasStartPins};
ghost use Rattle.gs_event.specs.Continuing.{KeepsLegal, ShowsHistory, HasItsPins};
ghost use Rattle.gs_event.specs.Births.{no_births};
ghost use Rattle.gs_event.specs.Waste.{nodes_in};
ghost use Rattle.gs_tree_store.specs.Uses.{UsesNodes, TreeSteps};
ghost use Rattle.gs_core.specs.Settings.{start_at};

use crate::limits::{MAX_NAMES, MAX_TRIPLES};
use gs_event::{Answer, Event, Limits};
use gs_model::Refusal;
use gs_run::{self, EventStore};
use gs_tree_store::{Storage, TreeStore};
use std::alloc::Global;
use std::marker::Model;

/// An in-memory graph store for as many clients at once as it has seats. A contract sees what it
/// shows (the dataset, the numbers given out and what each seat is doing) and its waste.
#[derive(Drop)]
pub struct Store {
    alloc: Global,
    trees: TreeStore,
}

impl Model for Store {
    ghost use Rattle.gs_event.specs.Waste.{Shown};
    ghost use Rattle.gs_event.specs.Codes.{shown_code};

    ghost Value = { Shown };

    ghost coded = { shown_code };

    ghost view = { λ s. s.trees };
}

impl Store {
    /// A store without graphs: 1 to 512 seats, and a base that `is_base` admits, under which it
    /// makes up names of graphs.
    pub fn new(alloc: Global, seats: u16, base: &str) -> Result<Store, Refusal>
        requires some { 1 ≤ seats }
        requires few { seats ≤ max_seats }
        requires base { is_base base.now ≡ true }
        ensures view { IfOk result (ShowsStart (start_at seats base.now 0 0)) }
        ensures pinned { IfOk result (HasStartPins (start_at seats base.now 0 0)) }
        ensures waste { IfOk result (λ store. store.waste ≡ []) }
        ensures births { IfOk result (λ store. store.births ≡ no_births seats) }
        ensures refused { IfErr result (λ refusal. refusal ≡ Refusal.NoMemory) }
    {
        Store::seeded(alloc, seats, base, 0)
    }

    /// The same, whose terms are spread over their table by a seed. It shows in nothing but time: where
    /// strangers choose the terms, it is a random number that is kept from them.
    pub fn seeded(alloc: Global, seats: u16, base: &str, seed: u64) -> Result<Store, Refusal>
        requires some { 1 ≤ seats }
        requires few { seats ≤ max_seats }
        requires base { is_base base.now ≡ true }
        ensures view { IfOk result (ShowsStart (start_at seats base.now 0 0)) }
        ensures pinned { IfOk result (HasStartPins (start_at seats base.now 0 0)) }
        ensures waste { IfOk result (λ store. store.waste ≡ []) }
        ensures births { IfOk result (λ store. store.births ≡ no_births seats) }
        ensures refused { IfErr result (λ refusal. refusal ≡ Refusal.NoMemory) }
    {
        Store::made(alloc, seats, base, 0, 0, Storage::of_seed(seed))
    }

    /// A store like a new one, where the last commit number and the last request number were these.
    pub fn starting_at(
        alloc: Global,
        seats: u16,
        base: &str,
        commit: u64,
        request: u64,
    ) -> Result<Store, Refusal>
        requires some { 1 ≤ seats }
        requires few { seats ≤ max_seats }
        requires base { is_base base.now ≡ true }
        requires last_commit { commit ≤ last_number }
        requires last_request { request ≤ last_number }
        ensures view { IfOk result (ShowsStart (start_at seats base.now request commit)) }
        ensures pinned { IfOk result (HasStartPins (start_at seats base.now request commit)) }
        ensures waste { IfOk result (λ store. store.waste ≡ []) }
        ensures births { IfOk result (λ store. store.births ≡ no_births seats) }
        ensures refused { IfErr result (λ refusal. refusal ≡ Refusal.NoMemory) }
    {
        Store::made(alloc, seats, base, commit, request, Storage::of_seed(0))
    }

    /// A store like a new one, whose nodes and terms have numbers from 0 to these, and at most to
    /// 4,294,967,294. Once all are in use, what wants one more is refused for want of memory. Records have
    /// numbers of their own, from 0 to 4,294,967,294.
    pub fn with_last(
        alloc: Global,
        seats: u16,
        base: &str,
        node: u32,
        term: u32,
    ) -> Result<Store, Refusal>
        requires some { 1 ≤ seats }
        requires few { seats ≤ max_seats }
        requires base { is_base base.now ≡ true }
        ensures view { IfOk result (ShowsStart (start_at seats base.now 0 0)) }
        ensures pinned { IfOk result (HasStartPins (start_at seats base.now 0 0)) }
        ensures waste { IfOk result (λ store. store.waste ≡ []) }
        ensures births { IfOk result (λ store. store.births ≡ no_births seats) }
        ensures refused { IfErr result (λ refusal. refusal ≡ Refusal.NoMemory) }
    {
        let storage = Storage {
            seed: 0,
            last_node: node,
            last_term: term,
        };
        Store::made(alloc, seats, base, 0, 0, storage)
    }

    /// A store that goes on from these numbers, over this storage.
    fn made(
        alloc: Global,
        seats: u16,
        base: &str,
        commit: u64,
        request: u64,
        storage: Storage,
    ) -> Result<Store, Refusal>
        requires base { is_base base.now ≡ true }
        requires last_commit { commit ≤ last_number }
        ensures view { IfOk result (ShowsStart (start_at seats base.now request commit)) }
        ensures pinned { IfOk result (HasStartPins (start_at seats base.now request commit)) }
        ensures waste { IfOk result (λ store. store.waste ≡ []) }
        ensures births { IfOk result (λ store. store.births ≡ no_births seats) }
        ensures refused { IfErr result (λ refusal. refusal ≡ Refusal.NoMemory) }
    {
        let limits = Limits {
            triples: MAX_TRIPLES,
            names: MAX_NAMES,
        };
        let trees = TreeStore::starting_at(alloc, seats, base, limits, commit, request, storage)?;
        Ok(Store { alloc, trees })
    }

    /// Takes one event: the answer fits what the store shows, and the store then shows the next
    /// view. A refused event changes nothing but births. An Open takes a record, an upload's list a node for each
    /// triple that is new to the upload, and every other event nothing, but the commits of a POST and of a
    /// patch that took effect: these take no more than `gs_event::steps_take_few` says. A POST beyond the
    /// limits gives back the nodes of its upload, and a Reclaim the nodes and records that it frees.
    pub fn step(&mut self, event: &Event) -> Answer
        ensures steps { Steps self.old event.now result self.new }
        ensures uses { UsesNodes self.old event.now result self.new }
    {
        self.trees.step(event)
    }

    /// Takes events in any order. On a store that shows what a legal history says, as a new store
    /// does of the empty one, that history with the events and their answers after it is legal:
    /// the answers are those of an abstract graph store that takes each write whole at its commit
    /// and each read whole at its pin; and the store then shows what the whole history says. Each
    /// event is one `step`, which says what becomes of the waste, what a Reclaim answers, and how many
    /// nodes and records are used. Room for all answers is made before the first event, so `NoMemory`
    /// changes nothing.
    pub fn run(&mut self, events: &[Event]) -> Result<Vec<Answer>, Refusal>
        ensures legal { IfOk result (λ answers. KeepsLegal self.old events.now answers.items) }
        ensures answered { IfOk result (λ answers. length answers.items ≡ length events.now) }
        ensures view { IfOk result (λ answers. ShowsHistory self.old events.now answers.items self.new) }
        ensures pinned { IfOk result (λ answers. HasItsPins self.old events.now answers.items self.new) }
        ensures ran { IfOk result (λ answers. Runs Steps self.old events.now answers.items self.new) }
        ensures uses { IfOk result (λ answers. Runs TreeSteps self.old events.now answers.items self.new) }
        ensures refused { IfErr result (λ refusal. refusal ≡ Refusal.NoMemory) }
        ensures kept { OnErr result (self.new ≡ self.old) }
    {
        gs_run::run(self.alloc, self, events)
    }

    /// Nodes and records in use: a node for each triple of a current graph or of an open upload, a record
    /// for each name, for a default graph that has a triple, and for each open upload or patch, and the
    /// waste.
    pub fn nodes_in_use(&self) -> u64
        ensures { result ≡ nodes_in self.now }
    {
        self.trees.nodes_in_use()
    }

    /// Triples of the current graphs.
    pub fn triples_now(&self) -> u64
        ensures { result ≡ triples_in self.now.view.totals.dataset }
    {
        self.trees.triples_now()
    }
}

impl EventStore for Store {
    ghost use Rattle.gs_tree_store.specs.Uses.{TreeSteps};

    ghost Takes = { TreeSteps };

    fn step(&mut self, event: &Event) -> Answer {
        self.step(event)
    }
}
