//! The keys of a root that may be instances of one pattern.
ghost use Rattle.std.specs.Prelude.{◌≡◌, ◌≤◌, length, true, [], ◌∷◌, Some, OnOk, IfOk};
ghost use Rattle.std.specs.List.{All};
ghost use Rattle.gs_dict.specs.Numbering.{IsDistinct};
ghost use Rattle.gs_keys.specs.Roots.{IsGraphAt};
ghost use Rattle.gs_tree.specs.Reading.{keys_at};
ghost use Rattle.gs_joins.specs.Numbers.{no_number};
ghost use Rattle.gs_joins.specs.Lots.{IsLot};
ghost use Rattle.gs_match.specs.Candidates.{Sifts, instances_in, ListsBy, ListsThem, HasNoSolution};

use crate::ranges::{Keys, first_in, is_in_range, range_of};
use crate::seeds::seed_for;
use gs_joins::{Bound, Item, Lot, NO_NUMBER, Sought, Turn, choose, first_number};
use gs_pool::Key;
use gs_term::VariableName;
use gs_tree::{after, next_keys};
use std::alloc::{AllocError, Global};

/// How many keys are read at once.
const CHUNK: usize = 1_024;

/// Appends a key, where it is the pattern's instance under what is bound.
fn sift<'a>(
    bound: &mut Vec<Bound<'a>>,
    sought: &Sought<'a>,
    key: Key,
    to: &mut Vec<Key>,
) -> Result<(), AllocError>
    ensures { OnOk result
        (Sifts bound.old.items bound.new.items sought.now (key ∷ []) to.old.items to.new.items) }
{
    let before = bound.len();
    if choose(bound, sought, key)? {
        bound.truncate(before);
        to.push(key)?;
    }
    Ok(())
}

/// Appends those of the keys that are the pattern's instances under what is bound.
fn sift_all<'a>(
    bound: &mut Vec<Bound<'a>>,
    sought: &Sought<'a>,
    keys: &[Key],
    to: &mut Vec<Key>,
) -> Result<(), AllocError>
    ensures { OnOk result
        (Sifts bound.old.items bound.new.items sought.now keys.now to.old.items to.new.items) }
{
    for key in keys {
        sift(bound, sought, *key, to)?;
    }
    Ok(())
}

/// Appends the instances under what is bound, by a walk over the keys that begin with what is known.
fn append_range<'a>(
    keys: &Keys,
    bound: &mut Vec<Bound<'a>>,
    sought: &Sought<'a>,
    to: &mut Vec<Key>,
) -> Result<(), AllocError>
    requires graph { IsGraphAt keys.now.order.dict.now.terms keys.now.pool.now keys.now.root }
    requires distinct { IsDistinct keys.now.order.dict.now.terms }
    requires few { length keys.now.order.dict.now.terms ≤ no_number }
    ensures { OnOk result (Sifts bound.old.items bound.new.items sought.now
        (keys_at keys.now.pool.now keys.now.root) to.old.items to.new.items) }
{
    let range = range_of(sought, bound.as_slice());
    let mut next = first_in(keys, range);
    'keys: while let Some(key) = next {
        if !is_in_range(range, key) {
            return Ok(());
        }
        sift(bound, sought, key, to)?;
        next = after(keys.pool, &keys.order, keys.root, key);
    }
    Ok(())
}

/// Appends the instances under what is bound, by a walk over all keys.
fn append_all<'a>(
    alloc: Global,
    keys: &Keys,
    bound: &mut Vec<Bound<'a>>,
    sought: &Sought<'a>,
    to: &mut Vec<Key>,
) -> Result<(), AllocError>
    requires graph { IsGraphAt keys.now.order.dict.now.terms keys.now.pool.now keys.now.root }
    ensures { OnOk result (Sifts bound.old.items bound.new.items sought.now
        (keys_at keys.now.pool.now keys.now.root) to.old.items to.new.items) }
{
    let mut chunk = Vec::with_capacity(alloc, CHUNK)?;
    let mut from = None;
    'chunks: loop {
        chunk.clear();
        next_keys(keys.pool, &keys.order, keys.root, from, CHUNK, &mut chunk)?;
        sift_all(bound, sought, chunk.as_slice(), to)?;
        if chunk.len() < CHUNK {
            return Ok(());
        }
        from = Some(chunk[CHUNK - 1]);
    }
}

/// Whether a number is the last one.
fn is_last(last: Option<u32>, number: u32) -> bool
    ensures { result ≡ true → last ≡ Some number }
{
    match last {
        None => false,
        Some(other) => other == number,
    }
}

/// The instances that have one of a list's numbers for a variable, each number looked up once.
fn by_numbers<'a>(
    alloc: Global,
    keys: &Keys,
    lot: &Lot<'a>,
    turn: Turn,
    name: &'a VariableName,
    sought: &Sought<'a>,
) -> Result<Vec<Key>, AllocError>
    requires graph { IsGraphAt keys.now.order.dict.now.terms keys.now.pool.now keys.now.root }
    requires distinct { IsDistinct keys.now.order.dict.now.terms }
    requires few { length keys.now.order.dict.now.terms ≤ no_number }
    requires lot { IsLot lot.now }
    ensures { IfOk result (λ found. ListsBy (keys_at keys.now.pool.now keys.now.root) sought.now turn name.now
        lot.now.keys.items found.items) }
{
    let mut found = Vec::new(alloc);
    let mut bound = Vec::new(alloc);
    let mut last = None;
    for key in lot.table(turn) {
        let number = first_number(turn, *key);
        if !is_last(last, number) {
            bound.clear();
            bound.push(Bound { name, number })?;
            append_range(keys, &mut bound, sought, &mut found)?;
            last = Some(number);
        }
    }
    Ok(found)
}

/// The keys of a root that are instances of a pattern.
pub fn instances(alloc: Global, keys: &Keys, sought: &Sought) -> Result<Vec<Key>, AllocError>
    requires graph { IsGraphAt keys.now.order.dict.now.terms keys.now.pool.now keys.now.root }
    requires distinct { IsDistinct keys.now.order.dict.now.terms }
    requires few { length keys.now.order.dict.now.terms ≤ no_number }
    ensures { IfOk result (λ found. found.items
        ≡ instances_in [] sought.now (keys_at keys.now.pool.now keys.now.root)) }
{
    let mut found = Vec::new(alloc);
    let mut bound = Vec::new(alloc);
    if range_of(sought, &[]).subject == NO_NUMBER {
        append_all(alloc, keys, &mut bound, sought, &mut found)?;
    } else {
        append_range(keys, &mut bound, sought, &mut found)?;
    }
    Ok(found)
}

/// Whether one of the lists has no key: then no values solve them.
fn has_empty(lots: &[Lot]) -> bool
    ensures { result ≡ true → HasNoSolution lots.now }
{
    for lot in lots {
        if lot.keys.is_empty() {
            return true;
        }
    }
    false
}

/// Keys of a root that may be instances of a pattern under a solution of these lists. Where one of
/// them leaves few numbers for the subject, the keys that begin with these are walked.
pub fn candidates<'a>(
    alloc: Global,
    keys: &Keys,
    lots: &[Lot<'a>],
    sought: &Sought<'a>,
) -> Result<Vec<Key>, AllocError>
    requires graph { IsGraphAt keys.now.order.dict.now.terms keys.now.pool.now keys.now.root }
    requires distinct { IsDistinct keys.now.order.dict.now.terms }
    requires few { length keys.now.order.dict.now.terms ≤ no_number }
    requires lots { All IsLot lots.now }
    ensures { IfOk result (λ found.
        ListsThem (keys_at keys.now.pool.now keys.now.root) lots.now sought.now found.items) }
{
    if has_empty(lots) {
        return Ok(Vec::new(alloc));
    }
    if let Item::Variable(name) = &sought.subject {
        if let Some(seed) = seed_for(lots, name) {
            return by_numbers(alloc, keys, &lots[seed.at], seed.turn, name, sought);
        }
    }
    instances(alloc, keys, sought)
}
