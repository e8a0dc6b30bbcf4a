//! The events of the worked schedules, given whole to `Store::run`, and to `run` over a plain store.
use gs_core::{Event, MAX_NAMES, MAX_TRIPLES, Refusal, Store};
use gs_event::Limits;
use gs_plain::PlainStore;
use gs_run::run;
use gs_schedules::{CONDITIONS, DATASETS, ROWS, Row};
use gs_test_events::{answered, events, printed};
use std::alloc::{AllocError, Global};
use std::test::Fail;

/// The base of a schedule's store.
pub const BASE: &str = "http://localhost";

/// The store of a schedule: that of its first line, where this says one.
fn store(alloc: Global, input: &str) -> Result<Store, Refusal> {
    match input {
        _ if input.starts_with("store 4 999999999999999999 999999999999999998") => {
            Store::starting_at(
                alloc,
                4,
                BASE,
                999_999_999_999_999_999,
                999_999_999_999_999_998,
            )
        }
        _ if input.starts_with("store 4 999999999999999998 0") => {
            Store::starting_at(alloc, 4, BASE, 999_999_999_999_999_998, 0)
        }
        _ if input.starts_with("store 4 999999999999999999 0") => {
            Store::starting_at(alloc, 4, BASE, 999_999_999_999_999_999, 0)
        }
        _ if input.starts_with("store 4 5 0") => Store::starting_at(alloc, 4, BASE, 5, 0),
        _ if input.starts_with("store 4 0 999999999999999999") => {
            Store::starting_at(alloc, 4, BASE, 0, 999_999_999_999_999_999)
        }
        _ => Store::new(alloc, 4, BASE),
    }
}

/// The numbers of a first line that begins a store: its seats, the last commit number and the last
/// request number.
fn numbers(input: &str) -> (u16, u64, u64) {
    let line = input.lines().next().unwrap_or_default();
    let mut words = line.split(' ');
    if words.next() != Some("store") {
        return (4, 0, 0);
    }
    let seats = words.next().unwrap_or_default();
    let commit = words.next().unwrap_or_default();
    let request = words.next().unwrap_or_default();
    (
        seats.parse::<u16>().unwrap_or_default(),
        commit.parse::<u64>().unwrap_or_default(),
        request.parse::<u64>().unwrap_or_default(),
    )
}

/// The same store, as a plain one.
fn plain_store(alloc: Global, input: &str) -> Result<PlainStore, Refusal> {
    let limits = Limits {
        triples: MAX_TRIPLES,
        names: MAX_NAMES,
    };
    let (seats, commit, request) = numbers(input);
    PlainStore::starting_at(alloc, seats, BASE, limits, commit, request)
}

/// What events print over a store.
fn printed_by(alloc: Global, mut store: Store, events: &[Event]) -> Result<String, Refusal> {
    let answers = store.run(events);
    drop(store);
    let answers = answers?;
    Ok(printed(alloc, answers)?)
}

/// The same over a plain store.
fn printed_by_plain(
    alloc: Global,
    mut store: PlainStore,
    events: &[Event],
) -> Result<String, Refusal> {
    let answers = run(alloc, &mut store, events);
    drop(store);
    let answers = answers?;
    Ok(printed(alloc, answers)?)
}

/// Whether events print the one over the store of a schedule, and the other over a plain one.
pub fn print_both(
    alloc: Global,
    input: &str,
    events: &[Event],
    want: &str,
    plain_want: &str,
) -> Result<bool, Refusal> {
    let got = printed_by(alloc, store(alloc, input)?, events)?;
    let is_so = got.as_str() == want;
    drop(got);
    let plain = printed_by_plain(alloc, plain_store(alloc, input)?, events)?;
    Ok(is_so && plain.as_str() == plain_want)
}

/// The same answers over a plain store, which has no waste: a Reclaim frees nothing, and leaves none.
fn without_waste(alloc: Global, want: &str) -> Result<String, AllocError> {
    let mut text = String::new(alloc);
    for line in want.lines() {
        let is_reclaim = line.starts_with("reclaimed ");
        text.push_str(if is_reclaim { "reclaimed 0 done" } else { line })?;
        text.push('\n')?;
    }
    Ok(text)
}

/// Whether the events of a schedule print this over its store, and over a plain one, the waste aside.
pub fn prints(alloc: Global, input: &str, want: &str) -> Result<bool, Refusal> {
    let plain_want = without_waste(alloc, want)?;
    let events = events(alloc, input)?;
    let answer = print_both(alloc, input, events.as_slice(), want, plain_want.as_str());
    drop(events);
    answer
}

/// The first of these schedules that does not print what it must, but for the counts, over one of
/// the two stores.
pub fn wrong_row(alloc: Global, rows: &[Row]) -> Result<Option<&'static str>, Refusal> {
    for (name, input, want) in rows {
        let want = answered(alloc, want)?;
        if !prints(alloc, input, want.as_str())? {
            return Ok(Some(name));
        }
    }
    Ok(None)
}

#[test]
fn a_run_over_each_store_answers_as_the_schedule_does(rt: HostRuntime) -> Result<(), Fail> {
    assert_eq!(rt; wrong_row(rt.alloc(), &ROWS)?, None);
    Ok(())
}

#[test]
fn a_run_over_each_store_reads_all_graphs_as_the_schedule_does(
    rt: HostRuntime,
) -> Result<(), Fail> {
    assert_eq!(rt; wrong_row(rt.alloc(), &DATASETS)?, None);
    Ok(())
}

#[test]
fn a_run_over_each_store_writes_on_condition_as_the_schedule_does(
    rt: HostRuntime,
) -> Result<(), Fail> {
    assert_eq!(rt; wrong_row(rt.alloc(), &CONDITIONS)?, None);
    Ok(())
}
