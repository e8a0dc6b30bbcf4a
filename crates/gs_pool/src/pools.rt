//! Nodes, each under a number.
ghost use Rattle.std.specs.Prelude.{◌≡◌, ℕ, ◌+◌, ◌<◌, ◌≤◌, [], length, replicate, slice_set, Option, Some, None, IsSome, MatchOption, IsOk, OnOk, OnErr, IfOk, min, true, false};
ghost use Rattle.std.specs.Bool.{Decides};
ghost use Rattle.gs_model.specs.Limits.{last_node};
ghost use Rattle.gs_pool.specs.Pool.{node_at, mark_at, free_count, in_use, room, aside_count, retired_count, plain, aside, replaced, retired};
ghost use Rattle.gs_pool.specs.Pool.{IsPlain, IsParted, Updates, Marks, KeepsMarks, Fills, Replaces, TakesAside, TakesRetired, CountsRetired};
ghost use Rattle.gs_pool.specs.Held.{IsNeededBy, AreHeld, let_go, KeepsLists};
ghost use Rattle.gs_pool.specs.Lists.{empty_hold};

use crate::holds::Hold;
use crate::nodes::{Node, Retired};
use crate::places::Places;
use crate::slots::State;
use gs_model::LAST_NODE;
use std::alloc::{AllocError, Global};
use std::marker::Model;

/// Nodes, each under a number. A number is free, or in use and then plain, set aside or retired. Free,
/// aside and retired ones are on lists, which run through the nodes. Of the retired ones those are held
/// apart that the version of a pin was seen to need: there is a list for each pin, and `next_retired`
/// gives none of them until `follow` says that the pin has ended.
#[derive(Drop)]
pub struct Pool {
    pub(crate) places: Places,
    first_free: Option<u32>,
    first_aside: Option<u32>,
    pub(crate) first_retired: Option<u32>,
    pub(crate) holds: Vec<Hold>,
    free: usize,
    // How many retired nodes are not held, and how many there are in all.
    pub(crate) loose: usize,
    pub(crate) retired: usize,
    // How many numbers there are at most.
    limit: usize,
}

impl Model for Pool {
    ghost use Rattle.std.specs.Prelude.{◌-◌, map, min, length};
    ghost use Rattle.gs_pool.specs.Pool.{Nodes};

    ghost Value = { Nodes };

    ghost use Rattle.gs_pool.specs.Places.{node_of, mark_of};
    ghost use Rattle.gs_pool.specs.Lists.{pin_of, hold_count, AreSoundLists};

    ghost view = { λ p. record {
      nodes = map node_of p.places.items;
      marks = map mark_of p.places.items;
      spare = min p.places.capacity p.limit - length p.places.items;
      limit = p.limit;
      loose = p.loose;
      pins = map pin_of p.holds.items;
      held = map hold_count p.holds.items;
    } };

    ghost invariant = { λ p. AreSoundLists p.places.items p.first_free p.first_aside p.first_retired p.holds.items p.free p.loose p.retired p.limit };
}

impl Pool {
    /// A pool with no node, whose numbers go from 0 to `last`, or to the greatest number of a node. It has
    /// no list for a pin.
    pub fn new(alloc: Global, last: u32) -> Self
        ensures nodes { result.nodes ≡ [] }
        ensures marks { result.marks ≡ [] }
        ensures spare { result.spare ≡ 0 }
        ensures limit { result.limit ≡ min last last_node + 1 }
        ensures loose { result.loose ≡ 0 }
        ensures pins { result.pins ≡ [] }
    {
        Pool::of_holds(alloc, last, Vec::new(alloc))
    }

    /// The same, with a list for each of so many pins.
    pub fn with_lists(alloc: Global, last: u32, lists: usize) -> Result<Self, AllocError>
        ensures nodes { IfOk result (λ p. p.nodes ≡ []) }
        ensures marks { IfOk result (λ p. p.marks ≡ []) }
        ensures limit { IfOk result (λ p. p.limit ≡ min last last_node + 1) }
        ensures loose { IfOk result (λ p. p.loose ≡ 0) }
        ensures pins { IfOk result (λ p. p.pins ≡ replicate lists None) }
    {
        let holds = vec![in alloc; Hold::empty(None); lists]?;
        Ok(Pool::of_holds(alloc, last, holds))
    }

    // A pool with no node and these lists, which are empty.
    fn of_holds(alloc: Global, last: u32, holds: Vec<Hold>) -> Self
        requires { holds.items ≡ replicate (length holds.items) (empty_hold None) }
        ensures nodes { result.nodes ≡ [] }
        ensures marks { result.marks ≡ [] }
        ensures spare { result.spare ≡ 0 }
        ensures limit { result.limit ≡ min last last_node + 1 }
        ensures loose { result.loose ≡ 0 }
        ensures pins { result.pins ≡ replicate (length holds.items) None }
    {
        Pool {
            places: Places::new(alloc),
            first_free: None,
            first_aside: None,
            first_retired: None,
            holds,
            free: 0,
            loose: 0,
            retired: 0,
            limit: u64::from(last).min(LAST_NODE) as usize + 1,
        }
    }

    /// How many nodes are in use, retired ones included.
    pub fn nodes_in_use(&self) -> u64
        ensures value { result ≡ in_use self.now }
        ensures parted { result + free_count self.now ≡ length self.now.nodes }
        ensures unmarked { IsParted self.now }
        ensures fits { length self.now.nodes + self.now.spare ≤ self.now.limit }
        ensures small { self.now.limit ≤ last_node + 1 }
    {
        (self.places.len() - self.free) as u64
    }

    /// Whether a number's node is in use and on no list.
    pub fn is_plain(&self, id: u32) -> bool
        ensures { Decides result (IsPlain self.now id) }
    {
        self.places.is_plain(id)
    }

    /// Whether a number's node is in use, whatever its mark.
    pub fn is_in_use(&self, id: u32) -> bool
        ensures { Decides result (IsSome (node_at self.now id)) }
    {
        self.places.is_used(id)
    }

    /// The node of a number, whatever its mark.
    pub fn get(&self, id: u32) -> Node
        requires { IsSome (node_at self.now id) }
        ensures { node_at self.now id ≡ Some result }
    {
        self.places.node(id)
    }

    /// Makes room for `more` nodes. Where there is room already, nothing changes; memory is asked for
    /// only where too few are free or reserved, and numbers are left.
    pub fn reserve(&mut self, more: usize) -> Result<(), AllocError>
        ensures ok { OnOk result (more ≤ room self.new) }
        ensures had_room { more ≤ room self.old → IsOk result × (self.new ≡ self.old) }
        ensures kept { OnErr result (self.new ≡ self.old) }
        ensures room { room self.old ≤ room self.new }
        ensures nodes { self.new.nodes ≡ self.old.nodes }
        ensures marks { self.new.marks ≡ self.old.marks }
        ensures limit { self.new.limit ≡ self.old.limit }
        ensures fits { length self.new.nodes + self.new.spare ≤ self.new.limit }
        ensures small { self.new.limit ≤ last_node + 1 }
    {
        if more <= self.free {
            return Ok(());
        }
        let missing = more - self.free;
        if self.limit - self.places.len() < missing {
            return Err(AllocError);
        }
        if missing <= self.places.spare() {
            return Ok(());
        }
        self.places.reserve(missing)
    }

    /// Stores a node under a number that was free. The pool grows only where none is, and wants
    /// memory only where none is reserved either.
    pub fn alloc(&mut self, node: Node) -> Result<u32, AllocError>
        ensures ok { IfOk result (λ id. Fills self.old self.new id node) }
        ensures succeeds { 0 < room self.old → IsOk result }
        ensures kept { OnErr result (self.new ≡ self.old) }
        ensures room { 0 < room self.old → room self.new + 1 ≡ room self.old }
        ensures limit { self.new.limit ≡ self.old.limit }
    {
        self.reserve(1)?;
        Ok(self.alloc_reserved(node))
    }

    /// Stores a node under a number that was free. Takes no memory.
    pub fn alloc_reserved(&mut self, node: Node) -> u32
        requires { 0 < room self.old }
        ensures fills { Fills self.old self.new result node }
        ensures room { room self.new + 1 ≡ room self.old }
        ensures limit { self.new.limit ≡ self.old.limit }
    {
        match self.first_free {
            Some(id) => {
                self.first_free = self.places.next_free(id);
                self.places.put(id, node);
                self.free -= 1;
                id
            }
            None => {
                let id = self.places.len() as u32;
                self.places.push(node);
                id
            }
        }
    }

    /// Changes a plain node.
    pub fn set(&mut self, id: u32, node: Node)
        requires used { IsSome (node_at self.old id) }
        requires unlisted { mark_at self.old id ≡ plain }
        ensures updates { Updates self.old self.new id (Some node) }
        ensures marks { self.new.marks ≡ self.old.marks }
        ensures numbers { length self.new.nodes ≡ length self.old.nodes }
        ensures room { room self.new ≡ room self.old }
        ensures in_use { in_use self.new ≡ in_use self.old }
        ensures limit { self.new.limit ≡ self.old.limit }
    {
        self.places.put(id, node);
    }

    /// Gives the number of a plain node back. Takes no memory.
    pub fn free(&mut self, id: u32)
        requires used { IsSome (node_at self.old id) }
        requires unlisted { mark_at self.old id ≡ plain }
        ensures updates { Updates self.old self.new id None }
        ensures marks { KeepsMarks self.old self.new }
        ensures numbers { length self.new.nodes ≡ length self.old.nodes }
        ensures free { free_count self.new ≡ free_count self.old + 1 }
        ensures room { room self.new ≡ room self.old + 1 }
        ensures in_use { in_use self.new + 1 ≡ in_use self.old }
        ensures limit { self.new.limit ≡ self.old.limit }
        ensures loose { self.new.loose ≡ self.old.loose }
        ensures pins { self.new.pins ≡ self.old.pins }
    {
        self.places.free(id, self.first_free);
        self.first_free = Some(id);
        self.free += 1;
    }

    /// Sets a plain node aside, which puts it on a list of its own until the call is over that set it
    /// aside. Takes no memory.
    pub fn set_aside(&mut self, entry: Retired)
        requires used { IsSome (node_at self.old entry.id) }
        requires unlisted { mark_at self.old entry.id ≡ plain }
        ensures marks { Marks self.old self.new entry.id (aside entry.death entry.whole) }
        ensures aside { aside_count self.new ≡ aside_count self.old + 1 }
        ensures retired { retired_count self.new ≡ retired_count self.old }
        ensures loose { self.new.loose ≡ self.old.loose }
        ensures pins { self.new.pins ≡ self.old.pins }
    {
        let state = State::aside(entry.whole);
        self.places
            .list(entry.id, state, entry.death, self.first_aside);
        self.first_aside = Some(entry.id);
    }

    /// Sets a plain node aside that is out of its tree. Its death is given where it is retired.
    /// Takes no memory.
    pub fn mark_replaced(&mut self, id: u32)
        requires used { IsSome (node_at self.old id) }
        requires unlisted { mark_at self.old id ≡ plain }
        ensures marks { Marks self.old self.new id replaced }
        ensures aside { aside_count self.new ≡ aside_count self.old + 1 }
        ensures retired { retired_count self.new ≡ retired_count self.old }
    {
        self.set_aside(Retired::alone(id, 0));
    }

    /// Stores a node in place of another, which is set aside. Takes no memory.
    pub fn replace(&mut self, id: u32, node: Node) -> u32
        requires used { IsSome (node_at self.old id) }
        requires unlisted { mark_at self.old id ≡ plain }
        requires room { 0 < room self.old }
        ensures replaces { Replaces self.old self.new id result node }
        ensures room { room self.new + 1 ≡ room self.old }
        ensures limit { self.new.limit ≡ self.old.limit }
    {
        self.mark_replaced(id);
        self.alloc_reserved(node)
    }

    /// Takes a node that was set aside off its list: it is plain again. `None` says that none is there.
    pub fn next_aside(&mut self) -> Option<Retired>
        ensures takes { TakesAside self.old self.new result }
        ensures none { CountsRetired result (aside_count self.old) (aside_count self.new) }
        ensures retired { retired_count self.new ≡ retired_count self.old }
        ensures loose { self.new.loose ≡ self.old.loose }
        ensures pins { self.new.pins ≡ self.old.pins }
    {
        let id = self.first_aside?;
        let (taken, next) = self.places.unlist(id);
        self.first_aside = next;
        Some(taken)
    }
}
