//! The reclaim: retired nodes are freed one after another, as long as no version needs them.
ghost use Rattle.std.specs.Prelude.{◌≡◌, ◌⊎◌, ℕ, ◌+◌, ◌*◌, ◌≤◌, ◌<◌, length, Some, None, Option};
ghost use Rattle.gs_pool.specs.Pool.{in_use, aside_count};
ghost use Rattle.gs_pool.specs.Held.{AreHeld};
ghost use Rattle.gs_event.specs.Steps.{Frees};
ghost use Rattle.gs_ledger.specs.Marks.{waste_at};
ghost use Rattle.gs_reclaim.specs.Reclaims.{HasMarkedLedger, KeepsLedgers, CanFree, IsNeededFor, NodeStays, SettlesNode, Reclaims};
ghost use Rattle.gs_reclaim.specs.Holders.{Agrees, HasLists, let_go_by, KeepsDead};

use crate::holders::follow_pins;
use crate::retiring::free_top;
use gs_pool::{Pool, Retired};
use gs_versions::Versions;

/// How many nodes a reclaim freed, whether it left waste, and how many nodes it looked at.
#[derive(Clone, Copy)]
pub struct Reclaimed {
    pub freed: u64,
    pub left: bool,
    pub looked: u64,
}

// How many nodes were freed, and how many were looked at.
#[derive(Clone, Copy)]
struct Swept {
    freed: u64,
    looked: u64,
}

// Holds a node for a seat whose pin needs it; sets it aside where the pool has no list for the seat.
fn keep(pool: &mut Pool, versions: &Versions, entry: Retired, seat: usize)
    requires agrees { Agrees pool.old versions.now }
    requires can { CanFree pool.old entry.id entry.whole }
    requires needed { IsNeededFor versions.now pool.old seat entry }
    ensures stays { NodeStays versions.now pool.old pool.new entry }
    ensures pins { pool.new.pins ≡ pool.old.pins }
    ensures loose { pool.new.loose ≡ pool.old.loose }
    ensures aside { HasLists pool.old versions.now → aside_count pool.new ≡ aside_count pool.old }
{
    if seat < pool.lists() {
        pool.hold(entry, seat);
    } else {
        pool.set_aside(entry);
    }
}

// Frees a node that was taken off the list, or keeps it where a version needs it; says which.
fn settle(pool: &mut Pool, versions: &Versions, entry: Retired) -> bool
    requires agrees { Agrees pool.old versions.now }
    requires can { CanFree pool.old entry.id entry.whole }
    requires died { entry.death ≤ versions.now.commit }
    ensures settles { SettlesNode versions.now pool.old pool.new entry result }
    ensures pins { pool.new.pins ≡ pool.old.pins }
    ensures counted { 2 * in_use pool.new + pool.new.loose ≤ 2 * in_use pool.old + pool.old.loose }
    ensures aside { HasLists pool.old versions.now → aside_count pool.new ≡ aside_count pool.old }
{
    let birth = pool.get(entry.id).birth;
    let Some(seat) = versions.needing(birth, entry.death) else {
        free_top(pool, entry);
        return true;
    };
    keep(pool, versions, entry, seat);
    false
}

// Frees at most n retired nodes that no version needs, and keeps those that it met and that a version
// needs.
fn free_unneeded(pool: &mut Pool, versions: &Versions, n: u64) -> Swept
    requires ledger { HasMarkedLedger pool.old versions.now }
    requires none_aside { aside_count pool.old ≡ 0 }
    requires agrees { Agrees pool.old versions.now }
    ensures reclaims { Reclaims versions.now pool.old pool.new result.freed }
    ensures most { result.freed ≤ n }
    ensures all { (result.freed ≡ n) ⊎ AreHeld pool.new }
    ensures pins { pool.new.pins ≡ pool.old.pins }
    ensures cost { result.looked + pool.new.loose ≤ pool.old.loose + 2 * result.freed }
    ensures least { result.freed ≤ result.looked }
    ensures rest { (result.freed ≡ n) ⊎ (pool.new.loose ≡ 0) }
    ensures aside { HasLists pool.old versions.now → aside_count pool.new ≡ 0 }
{
    let mut freed = 0;
    let mut looked = 0u64;
    while freed < n {
        let Some(entry) = pool.next_retired() else {
            return Swept { freed, looked };
        };
        looked = looked.saturating_add(1);
        if settle(pool, versions, entry) {
            freed += 1;
        }
    }
    Swept { freed, looked }
}

// Retires what was set aside.
fn restore(pool: &mut Pool)
    ensures dead { KeepsDead pool.old pool.new }
    ensures none_aside { aside_count pool.new ≡ 0 }
    ensures loose { pool.new.loose ≡ pool.old.loose + aside_count pool.old }
    ensures pins { pool.new.pins ≡ pool.old.pins }
{
    while let Some(entry) = pool.next_aside() {
        pool.retire(entry);
    }
}

/// Frees as many of the wasted nodes as no version needs, at most n. A tree that was retired whole is
/// freed node by node. Takes no memory. It looks at what was retired since it was looked at last, and at
/// what was held for pins that have ended, and at nothing else that is held.
pub fn reclaim(pool: &mut Pool, versions: &Versions, n: u64) -> Reclaimed
    requires ledger { HasMarkedLedger pool.old versions.now }
    requires none_aside { aside_count pool.old ≡ 0 }
    ensures waste { Frees versions.now.seats n result.freed result.left
        (waste_at pool.old) (waste_at pool.new) }
    ensures ledgers { KeepsLedgers versions.now pool.old pool.new }
    ensures in_use { in_use pool.new + result.freed ≡ in_use pool.old }
    ensures none_aside { aside_count pool.new ≡ 0 }
    ensures cost { result.looked ≤ pool.old.loose + let_go_by pool.old versions.now + 2 * result.freed }
    ensures spent { HasLists pool.old versions.now
        → result.looked + pool.new.loose ≤ pool.old.loose + let_go_by pool.old versions.now + 2 * result.freed }
    ensures least { result.freed ≤ result.looked }
    ensures lists { length pool.new.pins ≡ length pool.old.pins }
    ensures rest { HasLists pool.old versions.now → result.freed < n → pool.new.loose ≡ 0 }
{
    follow_pins(pool, versions);
    let swept = free_unneeded(pool, versions, n);
    restore(pool);
    let left = pool.has_retired();
    Reclaimed {
        freed: swept.freed,
        left,
        looked: swept.looked,
    }
}
