//! The search for instances: a key of a list is one where the other lists have keys that go with it.
ghost use Rattle.std.specs.Prelude.{◌≡◌, ◌≤◌, length, map, IfOk, MatchResult};
ghost use Rattle.std.specs.List.{All};
ghost use Rattle.gs_model.specs.declared.refusals.Refusal.TheVariants.{NoMemory};
ghost use Rattle.gs_event.specs.Solutions.{ListsInstances};
ghost use Rattle.gs_dict.specs.Numbering.{IsDistinct};
ghost use Rattle.gs_keys.specs.Texts.{triple_at};
ghost use Rattle.gs_keys.specs.Roots.{graph_of_root, IsGraphAt};
ghost use Rattle.gs_joins.specs.Numbers.{no_number};
ghost use Rattle.gs_joins.specs.Lots.{IsLot};
ghost use Rattle.gs_match.specs.Instances.{instance_keys};
ghost use Rattle.gs_match.specs.Solving.{AreLots, Collects};
ghost use Rattle.gs_tree.specs.Reading.{keys_at};

use crate::arrangement::known_first;
use crate::candidates::{candidates, instances};
use crate::found::Found;
use crate::ranges::Keys;
use crate::solved::Solved;
use crate::sought::all_sought;
use gs_dict::Dict;
use gs_joins::{Lot, Sought, kept_at, reduce};
use gs_keys::ByText;
use gs_model::Refusal;
use gs_pool::{Key, Pool};
use gs_term::Pattern;
use std::alloc::{AllocError, Global};

/// Lists of the patterns, in an order in which few keys are read: the keys of a root that may be
/// instances of each.
fn lots_of<'a>(
    alloc: Global,
    keys: &Keys,
    sought: &[Sought<'a>],
) -> Result<Vec<Lot<'a>>, AllocError>
    requires graph { IsGraphAt keys.now.order.dict.now.terms keys.now.pool.now keys.now.root }
    requires distinct { IsDistinct keys.now.order.dict.now.terms }
    requires few { length keys.now.order.dict.now.terms ≤ no_number }
    ensures { IfOk result (λ lots. AreLots (keys_at keys.now.pool.now keys.now.root) sought.now lots.items) }
{
    let arranged = known_first(alloc, sought)?;
    let mut lots = Vec::new(alloc);
    for one in &arranged {
        let list = candidates(alloc, keys, lots.as_slice(), one)?;
        lots.push(Lot::new(alloc, *one, list)?)?;
    }
    Ok(lots)
}

/// The keys of all lists that go with keys of all others.
fn collect(
    alloc: Global,
    order: &ByText,
    lots: &[Lot],
    looked: &mut u64,
) -> Result<Found, AllocError>
    requires { All IsLot lots.now }
    ensures { IfOk result (λ found. Collects order.now.dict.now.terms lots.now found) }
{
    let mut found = Found::new(alloc);
    for i in 0..lots.len() {
        let list = kept_at(alloc, lots, i, looked)?;
        found.add_all(order, list.as_slice())?;
    }
    Ok(found)
}

/// The keys of a root whose triples are instances of the patterns under a solution of all of them,
/// in the root's order and each once, and how many keys their join looked at, 0 where one pattern stands
/// alone.
pub fn solve_counted(
    alloc: Global,
    pool: &Pool,
    root: Option<u32>,
    dict: &Dict,
    patterns: &[Pattern],
) -> Result<Solved, Refusal>
    requires { IsGraphAt dict.now.terms pool.now root }
    ensures value { MatchResult result
        (λ solved. solved.keys.items ≡ instance_keys dict.now.terms pool.now root patterns.now)
        (λ e. e ≡ NoMemory) }
    ensures instances { IfOk result (λ solved. ListsInstances (graph_of_root dict.now.terms pool.now root)
        patterns.now (map (triple_at dict.now.terms) solved.keys.items)) }
{
    // That no term has two numbers, and none the last one of 32 bits.
    let _terms = dict.len();
    let Some(sought) = all_sought(alloc, dict, patterns)? else {
        return Ok(Solved {
            keys: Vec::new(alloc),
            looked: 0,
        });
    };
    let order = ByText::new(dict);
    let keys = Keys { pool, root, order };
    if sought.len() == 1 {
        let keys = instances(alloc, &keys, &sought[0])?;
        return Ok(Solved { keys, looked: 0 });
    }
    let mut lots = lots_of(alloc, &keys, sought.as_slice())?;
    let mut looked = 0;
    reduce(alloc, &mut lots, &mut looked)?;
    let found = collect(alloc, &order, lots.as_slice(), &mut looked)?;
    let keys = found.list(alloc, &order)?;
    Ok(Solved { keys, looked })
}

/// The keys of a root whose triples are instances of the patterns under a solution of all of them,
/// in the root's order and each once.
pub fn solve(
    alloc: Global,
    pool: &Pool,
    root: Option<u32>,
    dict: &Dict,
    patterns: &[Pattern],
) -> Result<Vec<Key>, Refusal>
    requires { IsGraphAt dict.now.terms pool.now root }
    ensures value { MatchResult result
        (λ found. found.items ≡ instance_keys dict.now.terms pool.now root patterns.now)
        (λ e. e ≡ NoMemory) }
    ensures instances { IfOk result (λ found. ListsInstances (graph_of_root dict.now.terms pool.now root)
        patterns.now (map (triple_at dict.now.terms) found.items)) }
{
    let Solved { keys, looked: _ } = solve_counted(alloc, pool, root, dict, patterns)?;
    Ok(keys)
}
