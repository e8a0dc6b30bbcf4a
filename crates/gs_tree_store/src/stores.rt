//! The store over trees: its books and its seats.
ghost use Rattle.std.specs.Prelude.{◌≡◌, ◌≤◌, [], true, IfOk, IfErr, replicate};
ghost use Rattle.gs_model.specs.Bases.{is_base};
ghost use Rattle.gs_model.specs.Limits.{last_number};
ghost use Rattle.gs_event.specs.Datasets.{triples_in};
ghost use Rattle.gs_event.specs.Views.{Fits, next_view};
ghost use Rattle.gs_event.specs.Steps.{Steps, next_pinned, Wastes};
ghost use Rattle.gs_event.specs.Histories.{start_with, ShowsStart, HasStartPins};
ghost use Rattle.gs_event.specs.Births.{no_births};
ghost use Rattle.gs_event.specs.Waste.{nodes_in};
ghost use Rattle.gs_tree_store.specs.Uses.{UsesNodes};

use crate::actions;
use crate::books::{Books, Seat};
use crate::storage::Storage;
use crate::sweeps::{self, Swept};
use gs_dict::Dict;
use gs_event::{Action, Answer, Event, Limits};
use gs_model::Refusal;
use gs_pool::Pool;
use gs_reclaim::reclaim;
use gs_records::Records;
use gs_run::EventStore;
use gs_versions::Versions;
use std::alloc::{AllocError, Global};
use std::marker::Model;

/// A store that keeps all versions of all graphs as trees over one pool, which share what they have in
/// common. A write costs what it changes, a read holds its version, and nodes and records that no version
/// needs are given back by a Reclaim. A contract sees what it shows, and its waste.
#[derive(Drop)]
pub struct TreeStore {
    alloc: Global,
    books: Books,
    seats: Vec<Seat>,
    /// No clause speaks of it, as nothing rests on when terms are swept.
    swept: Swept,
}

impl Model for TreeStore {
    ghost use Rattle.gs_event.specs.Waste.{Shown};
    ghost use Rattle.gs_event.specs.Codes.{shown_code};

    ghost Value = { Shown };

    ghost coded = { shown_code };

    ghost use Rattle.gs_tree_store.specs.Kept.{shown_of, IsKept};

    ghost view = { shown_of };

    ghost invariant = { IsKept };
}

impl TreeStore {
    /// A store without graphs, of so many seats, whose numbers go on from these, and which holds as much as
    /// the limits and its storage allow. Names that it makes up begin with the base.
    pub fn starting_at(
        alloc: Global,
        seats: u16,
        base: &str,
        limits: Limits,
        commit: u64,
        request: u64,
        storage: Storage,
    ) -> Result<TreeStore, Refusal>
        requires base { is_base base.now ≡ true }
        requires last_commit { commit ≤ last_number }
        ensures view { IfOk result (ShowsStart (start_with seats base.now limits request commit)) }
        ensures pinned { IfOk result (HasStartPins (start_with seats base.now limits request commit)) }
        ensures waste { IfOk result (λ store. store.waste ≡ []) }
        ensures births { IfOk result (λ store. store.births ≡ no_births seats) }
        ensures refused { IfErr result (λ refusal. refusal ≡ Refusal.NoMemory) }
    {
        let swept = Swept::nothing();
        let idle = idle_seats(alloc, seats)?;
        let base = String::from_str(alloc, base)?;
        let dict = Dict::new(alloc, storage.seed, storage.last_term)?;
        let versions = Versions::new(alloc, seats, commit)?;
        let pool = Pool::with_lists(alloc, storage.last_node, usize::from(seats))?;
        let records = Records::new(alloc, seats, u32::MAX, commit)?;
        let books = Books {
            base,
            limits,
            request,
            dict,
            pool,
            versions,
            records,
            default_write: commit,
            last_delete: commit,
        };
        Ok(TreeStore {
            alloc,
            books,
            seats: idle,
            swept,
        })
    }

    /// Takes one event. A refused one changes nothing but births, where the upload of a POST is made again.
    #[tactic(auto, using(crate::proofs::StepLemmas::reclaim_uses))]
    pub fn step(&mut self, event: &Event) -> Answer
        ensures steps { Steps self.old event.now result self.new }
        ensures uses { UsesNodes self.old event.now result self.new }
    {
        match event {
            Event::Reclaim(count) => self.reclaim(*count),
            Event::Seat(seat, action) => self.act(*seat, action),
        }
    }

    /// Nodes and records in use: a node for each triple of a current graph or of an open upload, the records
    /// of the current graphs and of open uploads and patches, and the waste.
    pub fn nodes_in_use(&self) -> u64
        ensures { result ≡ nodes_in self.now }
    {
        self.books.pool.nodes_in_use() + self.books.records.in_use()
    }

    /// Triples of the current graphs.
    pub fn triples_now(&self) -> u64
        ensures { result ≡ triples_in self.now.view.totals.dataset }
    {
        // The triples of all graphs are nodes in use, which are fewer than 2^32.
        let _used = self.books.pool.nodes_in_use();
        self.books.records.triples() as u64
    }

    /// Takes the terms from the dictionary that nothing needs any more, where that is due after so many nodes and
    /// records were freed. It shows in nothing that is asked of the store.
    #[tactic(auto, using(crate::proofs::SweptLemmas::same_shown, crate::proofs::SweptLemmas::still_kept))]
    fn settle_terms(&mut self, freed: u64, are_all: bool)
        ensures { self.new ≡ self.old }
    {
        sweeps::settle(
            &mut self.swept,
            &mut self.books,
            &self.seats,
            self.alloc,
            freed,
            are_all,
        );
    }

    /// Frees nodes that no version needs, and then records.
    fn free(&mut self, count: u64) -> Answer
        ensures steps { Steps self.old (Event.Reclaim count) result self.new }
    {
        // The number of the last commit says that records are listed in order: before some are freed, and
        // after.
        let _before = self.books.records.latest();
        let nodes = reclaim(&mut self.books.pool, &self.books.versions, count);
        let left = count - nodes.freed;
        let records = self.books.records.reclaim(&self.books.versions, left);
        let _after = self.books.records.latest();
        Answer::Reclaimed(nodes.freed + records.freed, nodes.left || records.left)
    }

    /// The same, and then sweeps terms where that is due.
    fn reclaim(&mut self, count: u64) -> Answer
        ensures steps { Steps self.old (Event.Reclaim count) result self.new }
    {
        let answer = self.free(count);
        if let Answer::Reclaimed(freed, _) = answer {
            self.settle_terms(freed, freed < count);
        }
        answer
    }

    fn act(&mut self, number: u16, action: &Action) -> Answer
        ensures steps { Steps self.old (Event.Seat number action.now) result self.new }
        ensures uses { UsesNodes self.old (Event.Seat number action.now) result self.new }
    {
        let place = number as usize;
        if place >= self.seats.len() {
            return Answer::Refused(Refusal::BadSeat);
        }
        // The number of the last commit says that records are listed in order, and the count of which records
        // the numbers in use are: before the action, and after it.
        let _listed = self.books.records.latest();
        let _before = self.books.records.in_use();
        let held = &mut self.seats[place];
        let answer = actions::act(&mut self.books, held, number, self.alloc, action);
        let _still = self.books.records.latest();
        let _after = self.books.records.in_use();
        answer
    }
}

impl EventStore for TreeStore {
    ghost use Rattle.gs_tree_store.specs.Uses.{TreeSteps};

    ghost Takes = { TreeSteps };

    fn step(&mut self, event: &Event) -> Answer {
        self.step(event)
    }
}

fn idle_seats(alloc: Global, count: u16) -> Result<Vec<Seat>, AllocError>
    ensures { IfOk result (λ seats. seats.items ≡ replicate count Seat.Idle) }
{
    let mut seats = Vec::with_capacity(alloc, count as usize)?;
    for _ in 0..count {
        seats.push(Seat::Idle)?;
    }
    Ok(seats)
}
