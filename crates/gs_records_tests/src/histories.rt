//! What becomes of one graph, call by call, and what each earlier version has of it afterwards.
use crate::calls::{gives_up, has_now, opens, puts, removes, walks};
use gs_model::Refusal;
use gs_records::Records;
use std::alloc::Global;

/// A call: numbers are of records, and a put has its triples and its commit, as a removal has.
enum Call {
    Open(u32),
    GiveUp(u32),
    Put(u32, u64, u64),
    Remove(u64),
}

/// The graph `http://e/g`: a call, the numbers of its current version, and how many triples it has.
const NAMED: [(Call, &[u32], Option<u64>); 9] = [
    (Call::Open(0), &[], None),
    (Call::Put(0, 3, 1), &[0], Some(3)),
    (Call::Open(1), &[0], Some(3)),
    (Call::Open(2), &[0], Some(3)),
    (Call::GiveUp(1), &[0], Some(3)),
    (Call::Put(2, 0, 2), &[2], Some(0)),
    (Call::Remove(3), &[], None),
    (Call::Remove(4), &[], None),
    (Call::Open(3), &[], None),
];

/// Its versions: the numbers that each has.
const NAMED_AT: [(u64, &[u32]); 6] = [
    (0, &[]),
    (1, &[0]),
    (2, &[2]),
    (3, &[]),
    (4, &[]),
    (u64::MAX, &[]),
];

/// The default graph, the same. It is never missing, and no record is kept of it where it is empty.
const DEFAULT: [(Call, &[u32], Option<u64>); 8] = [
    (Call::Open(0), &[], Some(0)),
    (Call::Put(0, 3, 1), &[0], Some(3)),
    (Call::Open(1), &[0], Some(3)),
    (Call::Put(1, 0, 2), &[], Some(0)),
    (Call::Open(2), &[], Some(0)),
    (Call::Put(2, 5, 3), &[2], Some(5)),
    (Call::Remove(4), &[], Some(0)),
    (Call::Remove(5), &[], Some(0)),
];

/// Its versions: the numbers that each has.
const DEFAULT_AT: [(u64, &[u32]); 6] = [
    (0, &[]),
    (1, &[0]),
    (2, &[]),
    (3, &[2]),
    (4, &[]),
    (u64::MAX, &[]),
];

/// Makes a call for a name: whether it does what it should.
fn is_made(alloc: Global, records: &mut Records, name: &str, call: &Call) -> Result<bool, Refusal> {
    match call {
        Call::Open(number) => opens(records, *number),
        Call::GiveUp(number) => Ok(gives_up(records, *number)),
        Call::Put(number, triples, commit) => {
            puts(alloc, records, *number, name, *triples, *commit)
        }
        Call::Remove(commit) => removes(alloc, records, name, *commit),
    }
}

/// Makes the calls for a name: whether after each the graph is as it should be.
fn all_made(
    alloc: Global,
    records: &mut Records,
    name: &str,
    rows: &[(Call, &[u32], Option<u64>)],
) -> Result<bool, Refusal> {
    for (call, now, triples) in rows {
        if !is_made(alloc, records, name, call)? {
            return Ok(false);
        }
        if !has_now(alloc, records, name, now.first().copied(), *triples)? {
            return Ok(false);
        }
        if records.triples() != u128::from(triples.unwrap_or(0)) {
            return Ok(false);
        }
        if !walks(alloc, records, records.latest(), None, 99, now, None)? {
            return Ok(false);
        }
    }
    Ok(true)
}

/// Whether each version has its numbers.
fn all_had(alloc: Global, records: &Records, rows: &[(u64, &[u32])]) -> Result<bool, Refusal> {
    for (version, wanted) in rows {
        if !walks(alloc, records, *version, None, 99, wanted, None)? {
            return Ok(false);
        }
    }
    Ok(true)
}

/// Whether the graph `http://e/g` is as it should be, then and afterwards.
fn named_goes(alloc: Global, records: &mut Records) -> Result<bool, Refusal> {
    Ok(all_made(alloc, records, "http://e/g", &NAMED)? && all_had(alloc, records, &NAMED_AT)?)
}

/// Whether the default graph is.
fn default_goes(alloc: Global, records: &mut Records) -> Result<bool, Refusal> {
    Ok(all_made(alloc, records, "", &DEFAULT)? && all_had(alloc, records, &DEFAULT_AT)?)
}

/// A name that is put twice and removed has each of its versions from its commit to the next one.
#[test]
fn earlier_versions_keep_what_a_name_had(rt: HostRuntime) -> Result<(), Refusal> {
    let mut records = Records::new(rt.alloc(), 1, 9, 0)?;
    let holds = named_goes(rt.alloc(), &mut records);
    drop(records);
    assert_eq!(&rt; holds?, true);
    Ok(())
}

/// The default graph is empty where it has no record, and a put of an empty one leaves none.
#[test]
fn an_empty_default_graph_has_no_record(rt: HostRuntime) -> Result<(), Refusal> {
    let mut records = Records::new(rt.alloc(), 1, 9, 0)?;
    let holds = default_goes(rt.alloc(), &mut records);
    drop(records);
    assert_eq!(&rt; holds?, true);
    Ok(())
}
