//! The places of a pool: 32 bytes for each, and a tail while its node is on a list.
ghost use Rattle.std.specs.Prelude.{◌≡◌, ◌+◌, ◌-◌, ◌<◌, ◌≤◌, [], length, is_some, true, false, IsSome, OnOk, OnErr};
ghost use Rattle.gs_pool.specs.declared.slots.State.TheVariants.{Free, Plain};
ghost use Rattle.gs_pool.specs.Places.{place_at, with_place, with_more, plain_place, free_place, listed_place, relinked, entry_of};
ghost use Rattle.gs_pool.specs.Places.{content_of, node_of, next_of, is_plain_state, is_listed};

use crate::nodes::{Node, Retired};
use crate::slots::{Slot, State};
use crate::tails::{Tail, Tails};
use std::alloc::{AllocError, Global};
use std::marker::Model;

/// Places for nodes, in the order of their numbers. A list is a chain of places, each with the number of
/// the next one: a free place has it in its slot, an aside or a retired one in its tail.
#[derive(Drop)]
pub struct Places {
    slots: Vec<Slot>,
    tails: Tails,
    // For how many places both have room.
    room: usize,
}

impl Model for Places {
    ghost use Rattle.std.specs.Prelude.{map, vec_capacity};
    ghost use Rattle.gs_pool.specs.Places.{PlaceList};

    ghost Value = { PlaceList };

    ghost use Rattle.gs_pool.specs.Slots.{place_of, AreLaid};

    ghost view = { λ p. record { items = map (place_of p.tails) p.slots.items; capacity = p.room } };

    ghost invariant = { λ p. AreLaid p.slots.items p.tails p.room (vec_capacity p.slots) };
}

impl Places {
    /// No place.
    pub fn new(alloc: Global) -> Places
        ensures { result ≡ record { items = []; capacity = 0 } }
    {
        Places {
            slots: Vec::new(alloc),
            tails: Tails::new(alloc),
            room: 0,
        }
    }

    /// How many places there are.
    pub fn len(&self) -> usize
        ensures { result ≡ length self.now.items }
    {
        self.slots.len()
    }

    /// How many more there is room for.
    pub fn spare(&self) -> usize
        ensures { result ≡ self.now.capacity - length self.now.items }
    {
        self.room - self.slots.len()
    }

    /// Whether a place is in use and on no list.
    pub fn is_plain(&self, id: u32) -> bool
        ensures { result ≡ is_plain_state (place_at self.now id).state }
    {
        match self.slots.get(id as usize) {
            Some(slot) => matches!(slot.state, State::Plain),
            None => false,
        }
    }

    /// Whether a place has a node, whatever its mark.
    pub fn is_used(&self, id: u32) -> bool
        ensures { result ≡ is_some (node_of (place_at self.now id)) }
    {
        match self.slots.get(id as usize) {
            Some(slot) => !matches!(slot.state, State::Free),
            None => false,
        }
    }

    /// The node of a place in use.
    pub fn node(&self, id: u32) -> Node
        requires { IsSome (node_of (place_at self.now id)) }
        ensures { result ≡ content_of (place_at self.now id) }
    {
        let slot = self.slots[id as usize];
        let birth = if slot.state.is_listed() {
            self.tails.get(slot.birth as usize).birth
        } else {
            slot.birth
        };
        slot.node(birth)
    }

    /// The next one after a free place.
    pub fn next_free(&self, id: u32) -> Option<u32>
        requires within { id < length self.now.items }
        requires free { (place_at self.now id).state ≡ Free }
        ensures { result ≡ next_of (place_at self.now id) }
    {
        self.slots[id as usize].left()
    }

    /// Makes room for so many places more. Where tails are refused, slots give back what they were given.
    pub fn reserve(&mut self, more: usize) -> Result<(), AllocError>
        ensures items { self.new.items ≡ self.old.items }
        ensures ok { OnOk result (length self.new.items + more ≤ self.new.capacity) }
        ensures capacity { self.old.capacity ≤ self.new.capacity }
        ensures kept { OnErr result (self.new ≡ self.old) }
    {
        self.slots.reserve(more)?;
        let room = self.slots.capacity();
        if self.tails.reserve(room).is_err() {
            self.slots.shrink_to(self.room);
            return Err(AllocError);
        }
        self.room = room;
        Ok(())
    }

    /// A place more, with a node. Takes no memory.
    pub fn push(&mut self, node: Node)
        requires { length self.old.items < self.old.capacity }
        ensures { self.new ≡ with_more self.old (plain_place node) }
    {
        self.slots.push_reserved(Slot::plain(node));
    }

    /// A place that is on no list of nodes gets a node.
    pub fn put(&mut self, id: u32, node: Node)
        requires within { id < length self.old.items }
        requires unlisted { is_listed (place_at self.old id).state ≡ false }
        ensures { self.new ≡ with_place self.old id (plain_place node) }
    {
        self.slots[id as usize] = Slot::plain(node);
    }

    /// A place that is on no list of nodes becomes free.
    pub fn free(&mut self, id: u32, next: Option<u32>)
        requires within { id < length self.old.items }
        requires unlisted { is_listed (place_at self.old id).state ≡ false }
        ensures { self.new ≡ with_place self.old id (free_place next) }
    {
        self.slots[id as usize] = Slot::free(next);
    }

    /// A plain place goes to the head of a list. Takes no memory.
    pub fn list(&mut self, id: u32, state: State, death: u64, next: Option<u32>)
        requires within { id < length self.old.items }
        requires plain { (place_at self.old id).state ≡ Plain }
        requires listed { is_listed state ≡ true }
        ensures { self.new
            ≡ with_place self.old id (listed_place state (content_of (place_at self.old id)) death next) }
    {
        let slot = self.slots[id as usize];
        let tail = Tail {
            birth: slot.birth,
            death,
            next,
        };
        let number = self.tails.add(tail);
        self.slots[id as usize] = slot.with_birth(state, number as u64);
    }

    /// The place at the head of a list becomes plain: what the list had of it, and the next one.
    pub fn unlist(&mut self, id: u32) -> (Retired, Option<u32>)
        requires within { id < length self.old.items }
        requires listed { is_listed (place_at self.old id).state ≡ true }
        ensures places { self.new ≡ with_place self.old id (plain_place (content_of (place_at self.old id))) }
        ensures taken { result.0 ≡ entry_of id (place_at self.old id) }
        ensures next { result.1 ≡ next_of (place_at self.old id) }
    {
        let slot = self.slots[id as usize];
        let tail = self.tails.take(slot.birth as usize);
        self.slots[id as usize] = slot.with_birth(State::Plain, tail.birth);
        let taken = Retired {
            id,
            death: tail.death,
            whole: slot.state.is_whole(),
        };
        (taken, tail.next)
    }

    /// A place on a list of nodes has another next one.
    pub fn relink(&mut self, id: u32, next: Option<u32>)
        requires within { id < length self.old.items }
        requires listed { is_listed (place_at self.old id).state ≡ true }
        ensures { self.new ≡ with_place self.old id (relinked (place_at self.old id) next) }
    {
        let number = self.slots[id as usize].birth as usize;
        let tail = self.tails.get(number);
        self.tails.set(number, Tail { next, ..tail });
    }
}
