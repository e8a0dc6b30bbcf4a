//! The reclaim: numbers are freed one after another, whose records no pinned version needs.
ghost use Rattle.std.specs.Prelude.{◌≡◌, ◌⊎◌, ◌+◌, ◌<◌, ◌≤◌, IsSome, length, true, false};
ghost use Rattle.gs_pool.specs.Pool.{node_at, mark_at, aside_count, plain};
ghost use Rattle.gs_pool.specs.Held.{AreHeld};
ghost use Rattle.gs_reclaim.specs.Holders.{Agrees, HasLists, let_go_by, KeepsDead};
ghost use Rattle.gs_reclaim.specs.Reclaims.{IsNeededFor};
ghost use Rattle.gs_records.specs.Stored.{ListsMade};
ghost use Rattle.gs_records.specs.Sweeps.{AreStored, Blanks, Lets, Stays, SettlesNumber, Sweeps, Swept};

use gs_index::Index;
use gs_pool::{Pool, Retired};
use gs_reclaim::follow_pins;
use gs_versions::Versions;

/// How many records a reclaim freed, whether it left any that have ended or were given up, and how many
/// numbers it looked at.
#[derive(Clone, Copy)]
pub struct Reclaimed {
    pub freed: u64,
    pub left: bool,
    pub looked: u64,
}

// How many numbers were freed, and how many were looked at.
#[derive(Clone, Copy)]
struct Sweep {
    freed: u64,
    looked: u64,
}

// Holds a node for a seat whose pin needs it; sets it aside where the pool has no list for the seat.
fn keep(pool: &mut Pool, versions: &Versions, entry: Retired, seat: usize)
    requires used { IsSome (node_at pool.old entry.id) }
    requires unlisted { mark_at pool.old entry.id ≡ plain }
    requires agrees { Agrees pool.old versions.now }
    requires needed { IsNeededFor versions.now pool.old seat entry }
    ensures stays { Stays versions.now.seats pool.old pool.new entry }
    ensures limit { pool.new.limit ≡ pool.old.limit }
    ensures pins { pool.new.pins ≡ pool.old.pins }
    ensures loose { pool.new.loose ≡ pool.old.loose }
    ensures aside { HasLists pool.old versions.now → aside_count pool.new ≡ aside_count pool.old }
{
    if seat < pool.lists() {
        pool.hold(entry, seat);
    } else {
        pool.set_aside(entry);
    }
}

// Takes a number off the list, where it is listed: what a commit made is.
fn blank(index: &mut Index, number: u32)
    requires lists { ListsMade index.old }
    requires within { number < length index.old.entries }
    ensures { Blanks index.old index.new number }
{
    if index.entry(number).birth > 0 {
        index.unlist(number);
    }
}

// Gives a number back whose node is plain.
fn let_go(index: &mut Index, pool: &mut Pool, number: u32)
    requires used { IsSome (node_at pool.old number) }
    requires unlisted { mark_at pool.old number ≡ plain }
    requires lists { ListsMade index.old }
    requires within { number < length index.old.entries }
    ensures lets { Lets index.old index.new pool.old pool.new number }
    ensures limit { pool.new.limit ≡ pool.old.limit }
    ensures pins { pool.new.pins ≡ pool.old.pins }
    ensures loose { pool.new.loose ≡ pool.old.loose }
{
    pool.free(number);
    blank(index, number);
}

// Frees a number whose node was taken off the list, or keeps it where a pin needs it; says which.
fn settle(index: &mut Index, pool: &mut Pool, versions: &Versions, entry: Retired) -> bool
    requires used { IsSome (node_at pool.old entry.id) }
    requires unlisted { mark_at pool.old entry.id ≡ plain }
    requires agrees { Agrees pool.old versions.now }
    requires lists { ListsMade index.old }
    requires within { entry.id < length index.old.entries }
    ensures settles { SettlesNumber versions.now.seats index.old index.new pool.old pool.new entry result }
    ensures limit { pool.new.limit ≡ pool.old.limit }
    ensures pins { pool.new.pins ≡ pool.old.pins }
    ensures loose { pool.new.loose ≡ pool.old.loose }
    ensures aside { HasLists pool.old versions.now → result ≡ false
        → aside_count pool.new ≡ aside_count pool.old }
{
    let birth = pool.get(entry.id).birth;
    let Some(seat) = versions.needing(birth, entry.death) else {
        let_go(index, pool, entry.id);
        return true;
    };
    keep(pool, versions, entry, seat);
    false
}

// Frees at most n numbers that no pin needs, and keeps those that it met and that a pin needs.
fn free_unneeded(index: &mut Index, pool: &mut Pool, versions: &Versions, n: u64) -> Sweep
    requires stored { AreStored index.old pool.old }
    requires none_aside { aside_count pool.old ≡ 0 }
    requires agrees { Agrees pool.old versions.now }
    ensures sweeps { Sweeps versions.now.seats result.freed index.old index.new pool.old pool.new }
    ensures most { result.freed ≤ n }
    ensures all { (result.freed ≡ n) ⊎ AreHeld pool.new }
    ensures limit { pool.new.limit ≡ pool.old.limit }
    ensures pins { pool.new.pins ≡ pool.old.pins }
    ensures cost { result.looked + pool.new.loose ≤ pool.old.loose }
    ensures least { result.freed ≤ result.looked }
    ensures rest { (result.freed ≡ n) ⊎ (pool.new.loose ≡ 0) }
    ensures aside { HasLists pool.old versions.now → aside_count pool.new ≡ 0 }
{
    let mut freed = 0;
    let mut looked = 0u64;
    while freed < n {
        let Some(entry) = pool.next_retired() else {
            return Sweep { freed, looked };
        };
        looked = looked.saturating_add(1);
        if settle(index, pool, versions, entry) {
            freed += 1;
        }
    }
    Sweep { freed, looked }
}

// Retires what was set aside.
fn restore(pool: &mut Pool)
    ensures dead { KeepsDead pool.old pool.new }
    ensures none_aside { aside_count pool.new ≡ 0 }
    ensures limit { pool.new.limit ≡ pool.old.limit }
    ensures pins { pool.new.pins ≡ pool.old.pins }
    ensures loose { pool.new.loose ≡ pool.old.loose + aside_count pool.old }
{
    while let Some(entry) = pool.next_aside() {
        pool.retire(entry);
    }
}

/// Frees as many numbers as no pin needs the records of, at most n. Takes no memory. It looks at what
/// ended since it was looked at last, and at what was held for pins that have ended, and at nothing else
/// that is held.
pub fn reclaim(index: &mut Index, pool: &mut Pool, versions: &Versions, n: u64) -> Reclaimed
    requires stored { AreStored index.old pool.old }
    requires none_aside { aside_count pool.old ≡ 0 }
    ensures swept { Swept versions.now.seats n result.freed result.left
        index.old index.new pool.old pool.new }
    ensures limit { pool.new.limit ≡ pool.old.limit }
    ensures cost { result.looked ≤ pool.old.loose + let_go_by pool.old versions.now }
    ensures spent { HasLists pool.old versions.now
        → result.looked + pool.new.loose ≤ pool.old.loose + let_go_by pool.old versions.now }
    ensures least { result.freed ≤ result.looked }
    ensures lists { length pool.new.pins ≡ length pool.old.pins }
    ensures rest { HasLists pool.old versions.now → result.freed < n → pool.new.loose ≡ 0 }
{
    follow_pins(pool, versions);
    let sweep = free_unneeded(index, pool, versions, n);
    restore(pool);
    // The count says of free numbers that they are not marked.
    let _all = pool.nodes_in_use();
    let left = pool.has_retired();
    Reclaimed {
        freed: sweep.freed,
        left,
        looked: sweep.looked,
    }
}
