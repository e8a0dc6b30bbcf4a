//! For which pin each list of held nodes is kept: the lists follow the pins of their seats.
ghost use Rattle.std.specs.Prelude.{◌≡◌, ◌+◌, ◌<◌, length};
ghost use Rattle.gs_reclaim.specs.Holders.{AgreesAt, Agrees, IsHolder, FindsHolder, let_go_by, FollowsPin};

use gs_pool::Pool;
use gs_versions::Versions;

// A seat that has pinned what a list is kept for, and that the pool has a list for.
fn holder_of(pool: &Pool, versions: &Versions, list: usize) -> Option<usize>
    ensures { FindsHolder versions.now pool.now list result }
{
    let version = pool.pin_at(list)?;
    versions.seat_of(version, pool.lists())
}

// Gives what a list holds for an ended pin to the list of a seat that has the same version pinned. Where
// that list is kept for another version still, the two change places.
fn pass_on(pool: &mut Pool, versions: &Versions, list: usize, other: usize) -> bool
    requires list { list < length pool.old.pins }
    requires stale { AgreesAt pool.old versions.now list → ⊥ }
    requires holder { IsHolder versions.now pool.old list other }
    ensures { FollowsPin versions.now pool.old pool.new list result }
{
    if pool.pin_at(other) == pool.pin_at(list) {
        pool.hand_over(list, other);
        pool.follow(list, versions.pin_at(list));
        return true;
    }
    pool.exchange(list, other);
    false
}

// Has a list follow the pin of its seat, or another one, where the two changed places.
fn follow_pin(pool: &mut Pool, versions: &Versions, list: usize) -> bool
    requires { list < length pool.old.pins }
    ensures { FollowsPin versions.now pool.old pool.new list result }
{
    let pin = versions.pin_at(list);
    if pool.pin_at(list) == pin {
        return true;
    }
    match holder_of(pool, versions, list) {
        Some(other) => pass_on(pool, versions, list, other),
        None => {
            pool.follow(list, pin);
            true
        }
    }
}

/// Has the lists of the pool follow the pins. What is held for a pin that has ended goes to a seat that has
/// its version pinned; where no seat has, it is looked at again.
pub fn follow_pins(pool: &mut Pool, versions: &Versions)
    ensures nodes { pool.new.nodes ≡ pool.old.nodes }
    ensures marks { pool.new.marks ≡ pool.old.marks }
    ensures spare { pool.new.spare ≡ pool.old.spare }
    ensures limit { pool.new.limit ≡ pool.old.limit }
    ensures agrees { Agrees pool.new versions.now }
    ensures lists { length pool.new.pins ≡ length pool.old.pins }
    ensures loose { pool.new.loose ≡ pool.old.loose + let_go_by pool.old versions.now }
{
    let mut list = 0;
    while list < pool.lists() {
        if follow_pin(pool, versions, list) {
            list += 1;
        }
    }
}
