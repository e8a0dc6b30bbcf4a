//! Numbers in sets: into one and out of one, in place, and those past a place.
ghost use Rattle.std.specs.Prelude.{◌≡◌, ◌<◌, map, take, IfOk};
ghost use Rattle.gs_pool.specs.Pool.{room};
ghost use Rattle.gs_tree.specs.Keys.{HasKey};
ghost use Rattle.gs_tree.specs.Reading.{IsReadableAt, keys_at, keys_from, first_key};
ghost use Rattle.gs_tree.specs.Sets.{IsSetAt};
ghost use Rattle.gs_index.specs.Ages.{aged_key_cmp, age_among, age_in};
ghost use Rattle.gs_index.specs.Indexes.{is_listed};
ghost use Rattle.gs_index.specs.Kept.{number_key as key_with, key_if as key_where, key_number, number_if, numbers_at, keys_past, GainsNumber, LosesNumber};

use crate::ages::ByAge;
use crate::entries::Entry;
use gs_pool::{Key, Pool};
use gs_term::Target;
use gs_tree::{after, contains, next_keys, remove, union};
use std::alloc::{AllocError, Global};

/// The key of a number.
pub fn key_of(number: u32) -> Key
    ensures { result ≡ key_with number }
{
    Key {
        subject: number,
        predicate: 0,
        object: 0,
    }
}

/// The key of a number, where there is one.
pub fn key_if(number: Option<u32>) -> Option<Key>
    ensures { result ≡ key_where number }
{
    match number {
        None => None,
        Some(number) => Some(key_of(number)),
    }
}

/// Puts a number into the set of some entries' numbers. Takes no memory: no version has the set, so its
/// nodes are written in place, and there is room for one more.
pub fn put(pool: &mut Pool, entries: &[Entry], root: Option<u32>, number: u32) -> Option<u32>
    requires set { IsSetAt (aged_key_cmp (age_in entries.now)) pool.old root }
    requires room { 0 < room pool.old }
    ensures { GainsNumber (age_in entries.now) pool.old pool.new root result number }
{
    let order = ByAge::new(entries, &Target::Default, 0);
    match union(pool, &order, root, &[key_of(number)], 0, 0) {
        Ok(merged) => merged.root,
        Err(_) => unreachable!(),
    }
}

/// Takes a number out of the set of some entries' numbers, which has it. Takes no memory, and no room.
pub fn take(pool: &mut Pool, entries: &[Entry], root: Option<u32>, number: u32) -> Option<u32>
    requires set { IsSetAt (aged_key_cmp (age_in entries.now)) pool.old root }
    requires has { HasKey (aged_key_cmp (age_in entries.now)) (key_with number) (keys_at pool.old root) }
    ensures { LosesNumber (age_in entries.now) pool.old pool.new root result number }
{
    let order = ByAge::new(entries, &Target::Default, 0);
    match remove(pool, &order, root, key_of(number), 0, 0) {
        Ok(rest) => rest,
        Err(_) => unreachable!(),
    }
}

/// Whether the set of some entries' numbers has a number.
pub fn has(pool: &Pool, entries: &[Entry], root: Option<u32>, number: u32) -> bool
    requires { IsReadableAt (aged_key_cmp (age_in entries.now)) pool.now root }
    ensures { result ≡ is_listed number (numbers_at pool.now root) }
{
    let order = ByAge::new(entries, &Target::Default, 0);
    contains(pool, &order, root, key_of(number))
}

/// The first number past a target at a birth.
pub fn seek(
    pool: &Pool,
    entries: &[Entry],
    root: Option<u32>,
    target: &Target,
    birth: u64,
) -> Option<u32>
    requires { IsReadableAt (aged_key_cmp (age_among entries.now target.now birth)) pool.now root }
    ensures { result ≡ number_if
        (first_key (keys_past (age_among entries.now target.now birth) (keys_at pool.now root))) }
{
    let order = ByAge::new(entries, target, birth);
    // No entry has this number, so it stands for what is sought, before all of its age.
    let key = after(pool, &order, root, key_of(u32::MAX))?;
    Some(key.subject)
}

/// The next keys of the set of some entries' numbers, and `most` of them at most.
pub fn keys_after(
    alloc: Global,
    pool: &Pool,
    entries: &[Entry],
    root: Option<u32>,
    from: Option<u32>,
    most: usize,
) -> Result<Vec<Key>, AllocError>
    requires { IsReadableAt (aged_key_cmp (age_in entries.now)) pool.now root }
    ensures { IfOk result (λ keys. keys.items ≡ take most
        (keys_from (aged_key_cmp (age_in entries.now)) (key_where from) (keys_at pool.now root))) }
{
    let order = ByAge::new(entries, &Target::Default, 0);
    let mut keys = Vec::new(alloc);
    next_keys(pool, &order, root, key_if(from), most, &mut keys)?;
    Ok(keys)
}

/// The numbers of some keys, in one reserved list.
pub fn numbers_of(alloc: Global, keys: &[Key]) -> Result<Vec<u32>, AllocError>
    ensures { IfOk result (λ numbers. numbers.items ≡ map key_number keys.now) }
{
    let mut numbers = Vec::with_capacity(alloc, keys.len())?;
    for key in keys {
        numbers.push_reserved(key.subject);
    }
    Ok(numbers)
}
