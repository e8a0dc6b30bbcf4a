//! The plain store: its books and its seats.
ghost use Rattle.std.specs.Prelude.{◌≡◌, [], true, false, IfOk, IfErr, replicate};
ghost use Rattle.gs_model.specs.Bases.{is_base};
ghost use Rattle.gs_event.specs.Datasets.{triples_in};
ghost use Rattle.gs_event.specs.Views.{Fits, next_view};
ghost use Rattle.gs_event.specs.Steps.{Steps, next_pinned};
ghost use Rattle.gs_event.specs.Histories.{start_with, ShowsStart, HasStartPins};
ghost use Rattle.gs_event.specs.Births.{no_births};
ghost use Rattle.gs_event.specs.Waste.{nodes_in};

use crate::actions;
use crate::books::{self, Books, Seat};
use gs_event::{Action, Answer, Event, Limits};
use gs_model::Refusal;
use gs_run::EventStore;
use std::alloc::{AllocError, Global};
use std::marker::Model;

/// A store that keeps each version of a graph as a whole sorted set. A contract sees what it
/// shows, and its waste, of which it has none.
#[derive(Drop)]
pub struct PlainStore {
    alloc: Global,
    books: Books,
    seats: Vec<Seat>,
}

impl Model for PlainStore {
    ghost use Rattle.gs_event.specs.Waste.{Shown};
    ghost use Rattle.gs_event.specs.Codes.{shown_code};

    ghost Value = { Shown };

    ghost coded = { shown_code };

    ghost use Rattle.gs_plain.specs.Kept.{shown_of, IsKept};

    ghost view = { shown_of };

    ghost invariant = { IsKept };
}

impl PlainStore {
    /// A store without graphs, of so many seats, whose numbers go on from these, and which holds
    /// as much as the limits allow. Names that it makes up begin with the base.
    pub fn starting_at(
        alloc: Global,
        seats: u16,
        base: &str,
        limits: Limits,
        commit: u64,
        request: u64,
    ) -> Result<PlainStore, Refusal>
        requires { is_base base.now ≡ true }
        ensures view { IfOk result (ShowsStart (start_with seats base.now limits request commit)) }
        ensures pinned { IfOk result (HasStartPins (start_with seats base.now limits request commit)) }
        ensures waste { IfOk result (λ store. store.waste ≡ []) }
        ensures births { IfOk result (λ store. store.births ≡ no_births 0) }
        ensures refused { IfErr result (λ refusal. refusal ≡ Refusal.NoMemory) }
    {
        let idle = idle_seats(alloc, seats)?;
        let base = String::from_str(alloc, base)?;
        let books = Books {
            base,
            limits,
            request,
            commit,
            triples: 0,
            names: 0,
            staged: 0,
            default_write: commit,
            last_removal: commit,
            rows: Vec::new(alloc),
        };
        Ok(PlainStore {
            alloc,
            books,
            seats: idle,
        })
    }

    /// Takes one event. A refused one changes nothing.
    #[tactic(auto, using(crate::proofs::WasteLemmas::none_wasted, crate::proofs::WasteLemmas::none_freed, crate::proofs::WasteLemmas::none_few))]
    pub fn step(&mut self, event: &Event) -> Answer
        ensures steps { Steps self.old event.now result self.new }
        ensures none { self.new.waste ≡ [] }
        ensures unborn { self.new.births ≡ no_births 0 }
    {
        match event {
            Event::Reclaim(_) => self.reclaim(),
            Event::Seat(seat, action) => self.act(*seat as usize, action),
        }
    }

    /// Nodes and records in use: a node for each triple of a current graph or of an open upload, and a
    /// record for each name, for a default graph that has a triple, and for each open upload or patch.
    pub fn nodes_in_use(&self) -> u64
        ensures { result ≡ nodes_in self.now }
    {
        let nodes = self.books.triples + self.books.staged;
        let records = books::record_count(&self.books);
        nodes + records + books::open_count(self.seats.as_slice()) as u64
    }

    /// Triples of the current graphs.
    pub fn triples_now(&self) -> u64
        ensures { result ≡ triples_in self.now.view.totals.dataset }
    {
        self.books.triples
    }

    /// There is nothing to free.
    fn reclaim(&mut self) -> Answer
        ensures answer { result ≡ Answer.Reclaimed 0 false }
        ensures kept { self.new ≡ self.old }
        ensures none { self.old.waste ≡ [] }
        ensures unborn { self.old.births ≡ no_births 0 }
    {
        let _ = &self.books;
        Answer::Reclaimed(0, false)
    }

    fn act(&mut self, seat: usize, action: &Action) -> Answer
        ensures fits { Fits self.old.view (Event.Seat seat action.now) result }
        ensures view { self.new.view ≡ next_view self.old.view (Event.Seat seat action.now) result }
        ensures pinned { self.new.pinned ≡ next_pinned self.old (Event.Seat seat action.now) result }
        ensures before { self.old.waste ≡ [] }
        ensures none { self.new.waste ≡ [] }
        ensures unborn_before { self.old.births ≡ no_births 0 }
        ensures unborn { self.new.births ≡ no_births 0 }
    {
        if seat >= self.seats.len() {
            return Answer::Refused(Refusal::BadSeat);
        }
        let seats = self.seats.len();
        let held = &mut self.seats[seat];
        actions::act(&mut self.books, held, seats, self.alloc, action)
    }
}

impl EventStore for PlainStore {
    ghost use Rattle.gs_event.specs.Steps.{Steps};

    ghost Takes = { Steps };

    fn step(&mut self, event: &Event) -> Answer {
        self.step(event)
    }
}

fn idle_seats(alloc: Global, count: u16) -> Result<Vec<Seat>, AllocError>
    ensures { IfOk result (λ seats. seats.items ≡ replicate count Seat.Idle) }
{
    let mut seats = Vec::with_capacity(alloc, count as usize)?;
    for _ in 0..count {
        seats.push(Seat::Idle)?;
    }
    Ok(seats)
}
