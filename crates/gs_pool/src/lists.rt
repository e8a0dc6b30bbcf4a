//! The lists of retired nodes: one of those that are looked at, and for each pin one of those held for it.
ghost use Rattle.std.specs.Prelude.{◌≡◌, ◌+◌, ◌<◌, ◌≢◌, length, slice_set, slice_index_or, Option, Some, None, IsSome, MatchOption, true, false};
ghost use Rattle.std.specs.Bool.{Decides};
ghost use Rattle.gs_pool.specs.Pool.{node_at, mark_at, aside_count, retired_count, plain, retired};
ghost use Rattle.gs_pool.specs.Pool.{Marks, TakesRetired, CountsRetired};
ghost use Rattle.gs_pool.specs.Held.{IsNeededBy, AreHeld, let_go, KeepsLists, GivesAll, Exchanges};

use crate::holds::Hold;
use crate::nodes::Retired;
use crate::pools::Pool;
use crate::slots::State;
use gs_versions::lies_in;

impl Pool {
    /// Retires a plain node. Takes no memory.
    pub fn retire(&mut self, entry: Retired)
        requires used { IsSome (node_at self.old entry.id) }
        requires unlisted { mark_at self.old entry.id ≡ plain }
        ensures marks { Marks self.old self.new entry.id (retired entry.death entry.whole) }
        ensures aside { aside_count self.new ≡ aside_count self.old }
        ensures retired { retired_count self.new ≡ retired_count self.old + 1 }
        ensures loose { self.new.loose ≡ self.old.loose + 1 }
        ensures pins { self.new.pins ≡ self.old.pins }
    {
        let state = State::retired(entry.whole);
        self.places
            .list(entry.id, state, entry.death, self.first_retired);
        self.first_retired = Some(entry.id);
        self.loose += 1;
        self.retired += 1;
    }

    /// Retires a plain node alone. Takes no memory.
    pub fn retire_one(&mut self, id: u32, death: u64)
        requires used { IsSome (node_at self.old id) }
        requires unlisted { mark_at self.old id ≡ plain }
        ensures marks { Marks self.old self.new id (retired death false) }
        ensures aside { aside_count self.new ≡ aside_count self.old }
        ensures retired { retired_count self.new ≡ retired_count self.old + 1 }
        ensures loose { self.new.loose ≡ self.old.loose + 1 }
        ensures pins { self.new.pins ≡ self.old.pins }
    {
        self.retire(Retired::alone(id, death));
    }

    /// Retires a plain node with all nodes below it, which stay plain. Takes no memory.
    pub fn retire_tree(&mut self, id: u32, death: u64)
        requires used { IsSome (node_at self.old id) }
        requires unlisted { mark_at self.old id ≡ plain }
        ensures marks { Marks self.old self.new id (retired death true) }
        ensures aside { aside_count self.new ≡ aside_count self.old }
        ensures retired { retired_count self.new ≡ retired_count self.old + 1 }
        ensures loose { self.new.loose ≡ self.old.loose + 1 }
        ensures pins { self.new.pins ≡ self.old.pins }
    {
        self.retire(Retired::tree(id, death));
    }

    /// Takes a retired node off the list of those that are not held: it is plain again. `None` says that
    /// none is there, so that a pin needs each that is retired.
    pub fn next_retired(&mut self) -> Option<Retired>
        ensures takes { TakesRetired self.old self.new result }
        ensures loose { CountsRetired result self.old.loose self.new.loose }
        ensures retired { MatchOption result (Unit {0})
            (λ _. retired_count self.new + 1 ≡ retired_count self.old) }
        ensures held { MatchOption result (AreHeld self.new) (λ _. Unit {0}) }
        ensures pins { self.new.pins ≡ self.old.pins }
        ensures aside { aside_count self.new ≡ aside_count self.old }
    {
        let id = self.first_retired?;
        let (taken, next) = self.places.unlist(id);
        self.first_retired = next;
        self.loose -= 1;
        self.retired -= 1;
        Some(taken)
    }

    /// Whether a node is retired, held or not.
    pub fn has_retired(&self) -> bool
        ensures { Decides result (0 < retired_count self.now) }
    {
        self.retired > 0
    }

    /// For how many pins there are lists.
    pub fn lists(&self) -> usize
        ensures { result ≡ length self.now.pins }
    {
        self.holds.len()
    }

    /// The version that a list is kept for. Where it is kept for none, it has no node.
    pub fn pin_at(&self, list: usize) -> Option<u64>
        ensures pin { result ≡ slice_index_or self.now.pins list None }
        ensures none { result ≡ None → slice_index_or self.now.held list 0 ≡ 0 }
    {
        self.holds.get(list)?.pin
    }

    /// Whether the pin of a list needs the node of a number, if that died at `death`.
    pub fn is_needed_by(&self, list: usize, id: u32, death: u64) -> bool
        ensures { Decides result (IsNeededBy self.now list id death) }
    {
        let Some(version) = self.pin_at(list) else {
            return false;
        };
        if !self.is_in_use(id) {
            return false;
        }
        lies_in(version, self.get(id).birth, death)
    }

    /// Retires a plain node, on the list of a pin that needs it, which `is_needed_by` tests. Takes no
    /// memory.
    pub fn hold(&mut self, entry: Retired, list: usize)
        requires used { IsSome (node_at self.old entry.id) }
        requires unlisted { mark_at self.old entry.id ≡ plain }
        requires needed { IsNeededBy self.old list entry.id entry.death }
        ensures marks { Marks self.old self.new entry.id (retired entry.death entry.whole) }
        ensures aside { aside_count self.new ≡ aside_count self.old }
        ensures loose { self.new.loose ≡ self.old.loose }
        ensures pins { self.new.pins ≡ self.old.pins }
        ensures held { KeepsLists self.old self.new list }
        ensures own { slice_index_or self.new.held list 0 ≡ slice_index_or self.old.held list 0 + 1 }
    {
        let hold = self.holds[list];
        let state = State::retired(entry.whole);
        self.places.list(entry.id, state, entry.death, hold.first);
        self.holds[list] = hold.with_first(entry.id);
        self.retired += 1;
    }

    /// Says what is pinned now where a list is kept. Where that is another version, or none, what the list
    /// has is held no more, all at once. Takes no memory.
    pub fn follow(&mut self, list: usize, pin: Option<u64>)
        requires { list < length self.old.pins }
        ensures nodes { self.new.nodes ≡ self.old.nodes }
        ensures marks { self.new.marks ≡ self.old.marks }
        ensures spare { self.new.spare ≡ self.old.spare }
        ensures limit { self.new.limit ≡ self.old.limit }
        ensures pins { self.new.pins ≡ slice_set self.old.pins list pin }
        ensures loose { self.new.loose ≡ self.old.loose + let_go self.old list pin }
        ensures held { KeepsLists self.old self.new list }
        ensures own { slice_index_or self.new.held list 0 + let_go self.old list pin
            ≡ slice_index_or self.old.held list 0 }
    {
        let hold = self.holds[list];
        if hold.pin == pin {
            return;
        }
        self.holds[list] = Hold::empty(pin);
        let Some(first) = hold.first else {
            return;
        };
        self.places.relink(hold.last, self.first_retired);
        self.first_retired = Some(first);
        self.loose += hold.count;
    }

    /// Gives all that a list has to another list, which is kept for the same version, by one write in a
    /// node. Takes no memory.
    pub fn hand_over(&mut self, list: usize, other: usize)
        requires list { list < length self.old.pins }
        requires other { other < length self.old.pins }
        requires apart { list ≢ other }
        requires same { slice_index_or self.old.pins list None ≡ slice_index_or self.old.pins other None }
        ensures nodes { self.new.nodes ≡ self.old.nodes }
        ensures marks { self.new.marks ≡ self.old.marks }
        ensures spare { self.new.spare ≡ self.old.spare }
        ensures limit { self.new.limit ≡ self.old.limit }
        ensures loose { self.new.loose ≡ self.old.loose }
        ensures pins { self.new.pins ≡ self.old.pins }
        ensures held { GivesAll self.old self.new list other }
    {
        let hold = self.holds[list];
        if hold.first.is_none() {
            return;
        }
        let onto = self.holds[other];
        self.places.relink(hold.last, onto.first);
        self.holds[list] = Hold::empty(hold.pin);
        self.holds[other] = hold.joined(onto);
    }

    /// Has two lists change places, with their pins. Takes no memory.
    pub fn exchange(&mut self, list: usize, other: usize)
        requires list { list < length self.old.pins }
        requires other { other < length self.old.pins }
        requires apart { list ≢ other }
        ensures nodes { self.new.nodes ≡ self.old.nodes }
        ensures marks { self.new.marks ≡ self.old.marks }
        ensures spare { self.new.spare ≡ self.old.spare }
        ensures limit { self.new.limit ≡ self.old.limit }
        ensures loose { self.new.loose ≡ self.old.loose }
        ensures lists { Exchanges self.old self.new list other }
    {
        let hold = self.holds[list];
        let onto = self.holds[other];
        self.holds[list] = onto;
        self.holds[other] = hold;
    }
}
