//! How many numbers there are and are in use, and how many triples.
use crate::calls::{opens, puts, removes};
use gs_model::Refusal;
use gs_records::Records;
use gs_versions::Versions;
use std::alloc::Global;

/// With 0 as the last number one record can be open, and no second one, which counts as want of memory.
#[test]
fn no_number_is_opened_past_the_last(rt: HostRuntime) -> Result<(), Refusal> {
    let mut records = Records::new(rt.alloc(), 1, 0, 0)?;
    let first = opens(&mut records, 0);
    let second = records.open();
    let is_still_open = records.is_open(0) && !records.is_open(1);
    drop(records);
    assert_eq!(&rt; first?, true);
    assert_eq!(&rt; second == Err(Refusal::NoMemory), true);
    assert_eq!(&rt; is_still_open, true);
    Ok(())
}

/// Puts two graphs, each with the greatest count of triples: whether both are put.
fn both_put(alloc: Global, records: &mut Records) -> Result<bool, Refusal> {
    let first = opens(records, 0)? && puts(alloc, records, 0, "http://e/a", u64::MAX, 1)?;
    Ok(first && opens(records, 1)? && puts(alloc, records, 1, "http://e/b", u64::MAX, 2)?)
}

/// The sum of two counts of 2^64 - 1 is 2^65 - 2.
#[test]
fn all_triples_may_be_more_than_those_of_a_u64(rt: HostRuntime) -> Result<(), Refusal> {
    let mut records = Records::new(rt.alloc(), 1, 9, 0)?;
    let holds = both_put(rt.alloc(), &mut records);
    let is_sum = records.triples() == 36_893_488_147_419_103_230;
    drop(records);
    assert_eq!(&rt; holds?, true);
    assert_eq!(&rt; is_sum, true);
    Ok(())
}

/// Reclaims where no seat has pinned a version: whether one record goes, and none is left.
fn one_goes(alloc: Global, records: &mut Records) -> Result<bool, Refusal> {
    let versions = Versions::new(alloc, 1, 2)?;
    let gone = records.reclaim(&versions, 9);
    Ok(gone.freed == 1 && !gone.left)
}

/// Opens a record, puts a named graph, ends it and reclaims: whether so many numbers are in use after each.
fn are_counted(alloc: Global, records: &mut Records) -> Result<bool, Refusal> {
    let none = records.in_use() == 0;
    let opened = opens(records, 0)? && records.in_use() == 1;
    let put = puts(alloc, records, 0, "http://e/g", 3, 1)? && records.in_use() == 1;
    let ended = removes(alloc, records, "http://e/g", 2)? && records.in_use() == 1;
    let reclaimed = one_goes(alloc, records)? && records.in_use() == 0;
    Ok(none && opened && put && ended && reclaimed)
}

/// A number is in use from the open of its record to the reclaim of the record that ended.
#[test]
fn a_number_is_in_use_until_its_record_is_reclaimed(rt: HostRuntime) -> Result<(), Refusal> {
    let mut records = Records::new(rt.alloc(), 1, 9, 0)?;
    let holds = are_counted(rt.alloc(), &mut records);
    drop(records);
    assert_eq!(&rt; holds?, true);
    Ok(())
}
