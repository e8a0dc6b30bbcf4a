//! What only nodes on a list have, each under a number of its own.
ghost use Rattle.std.specs.Prelude.{◌≡◌, ◌+◌, ◌<◌, ◌≤◌, [], Some, None, IsSome, OnOk, OnErr};
ghost use Rattle.gs_pool.specs.Tails.{tail_at, used_tails, SetsTail, tail_in, free_after};

use std::alloc::{AllocError, Global};
use std::marker::Model;

/// What a node on a list has besides: its birth, in whose place its slot has the number of this tail; its
/// death; and the next node of the list.
#[derive(Clone, Copy)]
pub struct Tail {
    pub birth: u64,
    pub death: u64,
    pub next: Option<u32>,
}

/// A tail in 24 bytes. A free one has the number of the next free one in place of a birth.
#[derive(Clone, Copy)]
pub struct Entry {
    pub birth: u64,
    pub death: u64,
    pub next: u32,
    pub has_next: bool,
    pub is_free: bool,
}

impl Entry {
    // An entry that is used.
    fn used(tail: Tail) -> Entry
        ensures { tail_in result ≡ Some tail }
    {
        Entry {
            birth: tail.birth,
            death: tail.death,
            next: tail.next.unwrap_or(0),
            has_next: tail.next.is_some(),
            is_free: false,
        }
    }

    // A free one, and the next.
    fn free(next: Option<usize>) -> Entry
        ensures tail { tail_in result ≡ None }
        ensures next { free_after result ≡ next }
    {
        Entry {
            birth: next.unwrap_or(0) as u64,
            death: 0,
            next: 0,
            has_next: next.is_some(),
            is_free: true,
        }
    }

    // The tail of an entry that is used.
    fn tail(self) -> Tail
        requires { IsSome (tail_in self) }
        ensures { tail_in self ≡ Some result }
    {
        Tail {
            birth: self.birth,
            death: self.death,
            next: if self.has_next { Some(self.next) } else { None },
        }
    }

    // The next free entry, after a free one.
    fn next_free(self) -> Option<usize>
        ensures { result ≡ free_after self }
    {
        if self.has_next {
            Some(self.birth as usize)
        } else {
            None
        }
    }
}

/// Tails, each under a number. There are as many as nodes were ever on lists at once, since a number that
/// was given back is used again before a new one.
#[derive(Drop)]
pub struct Tails {
    entries: Vec<Entry>,
    first_free: Option<usize>,
}

impl Model for Tails {
    ghost use Rattle.std.specs.Prelude.{map, vec_capacity};
    ghost use Rattle.gs_pool.specs.Tails.{TailList};

    ghost Value = { TailList };

    ghost use Rattle.gs_pool.specs.Tails.{tail_in, free_after, is_free_entry};
    ghost use Rattle.gs_pool.specs.Lists.{IsListOf};

    ghost view = { λ t. record { items = map tail_in t.entries.items; capacity = vec_capacity t.entries } };

    ghost invariant = { λ t. IsListOf free_after is_free_entry t.entries.items t.first_free };
}

impl Tails {
    /// No tail.
    pub fn new(alloc: Global) -> Tails
        ensures items { result.items ≡ [] }
        ensures capacity { result.capacity ≡ 0 }
    {
        Tails {
            entries: Vec::new(alloc),
            first_free: None,
        }
    }

    /// Makes room for so many tails in all.
    pub fn reserve(&mut self, total: usize) -> Result<(), AllocError>
        ensures items { self.new.items ≡ self.old.items }
        ensures ok { OnOk result (total ≤ self.new.capacity) }
        ensures capacity { self.old.capacity ≤ self.new.capacity }
    {
        self.entries
            .reserve(total.saturating_sub(self.entries.len()))
    }

    /// Keeps a tail under a number that was free. Takes no memory.
    pub fn add(&mut self, tail: Tail) -> usize
        requires { used_tails self.old < self.old.capacity }
        ensures was_free { tail_at self.old result ≡ None }
        ensures sets { SetsTail self.old self.new result (Some tail) }
        ensures used { used_tails self.new ≡ used_tails self.old + 1 }
    {
        match self.first_free {
            Some(number) => {
                self.first_free = self.entries[number].next_free();
                self.entries[number] = Entry::used(tail);
                number
            }
            None => {
                let number = self.entries.len();
                self.entries.push_reserved(Entry::used(tail));
                number
            }
        }
    }

    /// The tail of a number.
    pub fn get(&self, number: usize) -> Tail
        requires { IsSome (tail_at self.now number) }
        ensures { tail_at self.now number ≡ Some result }
    {
        self.entries[number].tail()
    }

    /// Changes the tail of a number.
    pub fn set(&mut self, number: usize, tail: Tail)
        requires { IsSome (tail_at self.old number) }
        ensures sets { SetsTail self.old self.new number (Some tail) }
        ensures used { used_tails self.new ≡ used_tails self.old }
    {
        self.entries[number] = Entry::used(tail);
    }

    /// Gives a number back, with the tail that it had. Takes no memory.
    pub fn take(&mut self, number: usize) -> Tail
        requires { IsSome (tail_at self.old number) }
        ensures was { tail_at self.old number ≡ Some result }
        ensures sets { SetsTail self.old self.new number None }
        ensures used { used_tails self.new + 1 ≡ used_tails self.old }
    {
        let tail = self.get(number);
        self.entries[number] = Entry::free(self.first_free);
        self.first_free = Some(number);
        tail
    }
}
