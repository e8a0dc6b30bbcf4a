//! The next keys of all graphs of a version, in the order of the graphs.
ghost use Rattle.std.specs.Prelude.{◌≡◌, ◌<◌, [], true, None, take, IfOk, IfSome, OnOk};
ghost use Rattle.std.specs.List.{All};
ghost use Rattle.gs_index.specs.Indexes.{is_listed};
ghost use Rattle.gs_records.specs.Order.{AreListed};
ghost use Rattle.gs_quads.specs.Places.{number_at as number_in, places_left};
ghost use Rattle.gs_quads.specs.Found.{one_graph, all_graphs, own_graph, AreReadable, IsQuadPlaceOf, places_found, AreFound, FindsMore, IsGraphOf, numbers_past, AreNext};

use crate::runs::{Found, Run, Source};
use gs_lines::{add_keys, room_for_keys};
use gs_pool::Key;
use gs_records::Records;
use std::alloc::{AllocError, Global};

// So many numbers are looked at in one walk over the records.
const NUMBERS: usize = 256;

/// Adds the keys of a record's graph above `from`, or all where it is `None`, until there are `most`.
fn add_graph(
    source: &Source,
    number: u32,
    from: Option<Key>,
    most: usize,
    found: &mut Found,
) -> Result<(), AllocError>
    requires graph { IsGraphOf source.now number }
    requires found { AreFound source.now most found.old }
    ensures { OnOk result (FindsMore source.now most found.old found.new
        (one_graph source.now from number)) }
{
    let before = found.keys.len();
    let root = source.records.record(number).version.root;
    let room = most - before;
    add_keys(source.dict, source.pool, root, from, room, &mut found.keys)?;
    let keys = found.keys.len() - before;
    if 0 < keys {
        found.runs.push(Run { number, keys })?;
    }
    Ok(())
}

/// Adds all keys of a record's graph, until there are `most`.
fn add_all(source: &Source, number: u32, most: usize, found: &mut Found) -> Result<(), AllocError>
    requires graph { IsGraphOf source.now number }
    requires found { AreFound source.now most found.old }
    ensures { OnOk result (FindsMore source.now most found.old found.new
        (one_graph source.now None number)) }
{
    add_graph(source, number, None, most, found)
}

/// Adds the keys of the graphs of records, until there are `most`.
fn add_graphs(
    source: &Source,
    numbers: &[u32],
    most: usize,
    found: &mut Found,
) -> Result<(), AllocError>
    requires graphs { All (IsGraphOf source.now) numbers.now }
    requires found { AreFound source.now most found.old }
    ensures { OnOk result (FindsMore source.now most found.old found.new
        (all_graphs source.now numbers.now)) }
{
    for number in numbers {
        if found.keys.len() >= most {
            return Ok(());
        }
        add_all(source, *number, most, found)?;
    }
    Ok(())
}

/// The next numbers that a version has after `from`, or from the first one on, and where to go on.
fn next_numbers(
    alloc: Global,
    records: &Records,
    version: u64,
    from: Option<u32>,
) -> Result<(Vec<u32>, Option<u32>), AllocError>
    requires { IfSome from (λ n. is_listed n records.now.listed ≡ true) }
    ensures { IfOk result (λ p. AreNext version records.now from p.0.items p.1) }
{
    match records.next_at(alloc, version, from, NUMBERS) {
        Ok(next) => Ok(next),
        Err(_) => Err(AllocError),
    }
}

/// Adds the keys of the graphs that a version has after the number `from`, or of all, until there are
/// `most`.
fn add_after(
    alloc: Global,
    source: &Source,
    version: u64,
    from: Option<u32>,
    most: usize,
    found: &mut Found,
) -> Result<(), AllocError>
    requires from { IfSome from (λ n. is_listed n source.now.records.now.listed ≡ true) }
    requires graphs { AreReadable source.now version }
    requires found { AreFound source.now most found.old }
    ensures { OnOk result (FindsMore source.now most found.old found.new
        (all_graphs source.now (numbers_past version source.now.records.now from))) }
{
    let mut after = from;
    'walk: while found.keys.len() < most {
        let (numbers, on) = next_numbers(alloc, source.records, version, after)?;
        add_graphs(source, &numbers, most, found)?;
        let Some(last) = on else {
            return Ok(());
        };
        after = Some(last);
    }
    Ok(())
}

/// The number of a place.
fn number_at(from: Option<(u32, Key)>) -> Option<u32>
    ensures { result ≡ number_in from }
{
    match from {
        None => None,
        Some((number, _)) => Some(number),
    }
}

/// Adds the keys after a place in the graph of its own record, until there are `most`.
fn add_own(
    source: &Source,
    from: Option<(u32, Key)>,
    most: usize,
    found: &mut Found,
) -> Result<(), AllocError>
    requires graph { IfSome from (λ x. IsGraphOf source.now x.0) }
    requires found { AreFound source.now most found.old }
    ensures { OnOk result (FindsMore source.now most found.old found.new
        (own_graph source.now from)) }
{
    match from {
        None => Ok(()),
        Some((number, key)) => add_graph(source, number, Some(key), most, found),
    }
}

/// Nothing found yet, with room for keys, `most` of them at most.
fn none_found(alloc: Global, most: usize) -> Result<Found, AllocError>
    ensures { IfOk result (λ f. (f.keys.items ≡ []) × (f.runs.items ≡ [])) }
{
    let keys = room_for_keys(alloc, most)?;
    Ok(Found {
        runs: Vec::new(alloc),
        keys,
    })
}

/// The keys of all graphs of a version after a place, or from the beginning, and `most` of them at most.
pub fn find_places(
    alloc: Global,
    source: &Source,
    version: u64,
    from: Option<(u32, Key)>,
    most: usize,
) -> Result<Found, AllocError>
    requires graphs { AreReadable source.now version }
    requires place { IsQuadPlaceOf source.now version from }
    ensures found { IfOk result (AreFound source.now most) }
    ensures places { IfOk result (λ f. places_found f ≡ take most
        (places_left source.now.dict.now.terms source.now.pool.now version source.now.records.now from)) }
    ensures listed { AreListed source.now.records.now.records source.now.records.now.listed }
{
    // The number of the last commit says that what is kept is listed, and in order.
    let _last = source.records.latest();
    let mut found = none_found(alloc, most)?;
    add_own(source, from, most, &mut found)?;
    add_after(alloc, source, version, number_at(from), most, &mut found)?;
    Ok(found)
}
