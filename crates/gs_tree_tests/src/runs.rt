//! A run of many keys into sets of 0, 1, 2 and of many numbers, beside a list.
use crate::number_sets::{NumberSet, key};
use crate::outcome::none_wrong;
use gs_model::Refusal;
use gs_pool::Key;
use std::alloc::Global;
use std::test::Fail;

/// All numbers are below this one.
const NUMBERS: u32 = 2_000;

/// The set that a run goes into.
#[derive(Clone, Copy)]
enum Start {
    Empty,
    One,
    Two,
    Thirds,
}

/// Whether the set has a number before the run.
fn has(start: Start, number: u32) -> bool {
    match start {
        Start::Empty => false,
        Start::One => number == 501,
        Start::Two => number == 500 || number == 777,
        Start::Thirds => number % 3 == 0,
    }
}

/// Whether the run has a number: it has the even ones from 100 on, which are 950.
fn in_run(number: u32) -> bool {
    number >= 100 && number % 2 == 0
}

/// Whether the keys rise, and are so many numbers of the set or the run.
fn are_numbers(keys: &[Key], start: Start, total: usize) -> bool {
    let mut least = 0u32;
    for found in keys {
        if found.object < least || !(has(start, found.object) || in_run(found.object)) {
            return false;
        }
        least = found.object.saturating_add(1);
    }
    keys.len() == total
}

/// Whether the set says of each number that it has it exactly where it had it, or the run has it.
fn says_so(set: &NumberSet, start: Start) -> bool {
    for number in 0..NUMBERS {
        if set.contains(number) != (has(start, number) || in_run(number)) {
            return false;
        }
    }
    true
}

/// Whether the set has the numbers that it had and those of the run, and no other.
fn is_united(alloc: Global, set: &NumberSet, start: Start, total: usize) -> Result<bool, Refusal> {
    let mut keys: Vec<Key> = Vec::new(alloc);
    let walked = set.next_keys(None, NUMBERS as usize, &mut keys);
    let is_right = are_numbers(&keys, start, total);
    drop(keys);
    walked?;
    Ok(is_right && says_so(set, start))
}

/// Makes the set and the run. Whether each number of the set was new.
fn begin(set: &mut NumberSet, run: &mut Vec<Key>, start: Start) -> Result<bool, Refusal> {
    for number in 0..NUMBERS {
        if has(start, number) && !set.insert(number, 1)? {
            return Ok(false);
        }
        if in_run(number) {
            run.push(key(number))?;
        }
    }
    Ok(true)
}

/// Whether nothing is added when the run goes into the set once more.
fn is_known(set: &mut NumberSet, run: &[Key]) -> Result<bool, Refusal> {
    let used = set.nodes_in_use();
    Ok(set.add_run(run, 3)? == Some(0) && set.nodes_in_use() == used)
}

/// Whether a run goes into a set that lacks so many of its numbers, and that then has so many in all.
fn goes_in(
    alloc: Global,
    set: &mut NumberSet,
    run: &mut Vec<Key>,
    start: Start,
    lacked: usize,
    total: usize,
) -> Result<bool, Refusal> {
    Ok(
        begin(set, run, start)?
            && set.add_run(run, 2)? == Some(lacked)
            && is_united(alloc, set, start, total)?
            && is_known(set, run)?
            && is_united(alloc, set, start, total)?,
    )
}

/// A row is the numbers of a new set, how many of the run it lacks, and how many it has then. Of the 667
/// multiples of 3, the 317 multiples of 6 from 102 to 1,998 are in the run.
const STARTS: &str = "
none 950 950
one 950 951
two 949 951
thirds 633 1300
";

/// The set of a name.
fn start_of(name: &str) -> Option<Start> {
    match name {
        "none" => Some(Start::Empty),
        "one" => Some(Start::One),
        "two" => Some(Start::Two),
        "thirds" => Some(Start::Thirds),
        _ => None,
    }
}

/// The number that a word is.
fn number(word: &str) -> usize {
    word.parse::<usize>().unwrap_or_default()
}

/// Whether a row is so, with a new run.
fn is_so(alloc: Global, row: &str) -> Result<bool, Refusal> {
    let mut words = row.split(' ');
    let Some(start) = start_of(words.next().unwrap_or_default()) else {
        return Ok(false);
    };
    let lacked = number(words.next().unwrap_or_default());
    let total = number(words.next().unwrap_or_default());
    let mut set = NumberSet::new(alloc);
    let mut run: Vec<Key> = Vec::new(alloc);
    let answer = goes_in(alloc, &mut set, &mut run, start, lacked, total);
    drop(run);
    drop(set);
    answer
}

/// The first row that is not so, or `rows` where they are not four.
fn wrong_start(alloc: Global) -> Result<Option<&'static str>, Refusal> {
    let mut right = 0usize;
    for row in STARTS.trim().lines() {
        if !is_so(alloc, row)? {
            return Ok(Some(row));
        }
        right = right.saturating_add(1);
    }
    Ok(if right == 4 { None } else { Some("rows") })
}

#[test]
fn a_run_goes_into_a_set_of_numbers(rt: HostRuntime) -> Result<(), Fail> {
    none_wrong(wrong_start(rt.alloc()))
}

/// Runs that come one after another into a set that has 7: a name, the run, how many of its numbers are
/// added, which is none where it does not rise, and how many the set has then.
const RUNS: &str = "
no number | | 0 | 1
a number twice | 3 3 | none | 1
a number that falls | 4 3 | none | 1
a last number that falls | 1 2 5 4 | none | 1
numbers that rise | 1 2 4 5 | 4 | 5
";

/// Adds the keys of numbers to a run.
fn push_numbers(run: &mut Vec<Key>, numbers: &str) -> Result<(), Refusal> {
    for word in numbers.split(' ') {
        if let Ok(number) = word.parse::<u32>() {
            run.push(key(number))?;
        }
    }
    Ok(())
}

/// Whether so many numbers of a run are added, or none where that is no number.
fn adds(alloc: Global, set: &mut NumberSet, numbers: &str, added: &str) -> Result<bool, Refusal> {
    let mut run: Vec<Key> = Vec::new(alloc);
    let pushed = push_numbers(&mut run, numbers);
    let answer = set.add_run(&run, 0);
    drop(run);
    pushed?;
    Ok(answer? == added.parse::<usize>().ok())
}

/// Whether a row of runs is so.
fn is_run_so(alloc: Global, set: &mut NumberSet, row: &str) -> Result<bool, Refusal> {
    let mut columns = row.split('|');
    let _name = columns.next();
    let numbers = columns.next().unwrap_or_default();
    let added = columns.next().unwrap_or_default();
    let count = number(columns.next().unwrap_or_default().trim());
    Ok(adds(alloc, set, numbers, added.trim())? && set.count() == count)
}

/// The first run that is not so, or `rows` where they are not five, or 7 was not new.
fn wrong_run(alloc: Global, set: &mut NumberSet) -> Result<Option<&'static str>, Refusal> {
    let is_new = set.insert(7, 0)?;
    let mut right = 0usize;
    for row in RUNS.trim().lines() {
        if !is_run_so(alloc, set, row)? {
            return Ok(Some(row));
        }
        right = right.saturating_add(1);
    }
    Ok(if is_new && right == 5 {
        None
    } else {
        Some("rows")
    })
}

#[test]
fn a_run_adds_what_is_new_where_it_rises(rt: HostRuntime) -> Result<(), Fail> {
    let mut set = NumberSet::new(rt.alloc());
    let wrong = wrong_run(rt.alloc(), &mut set);
    drop(set);
    none_wrong(wrong)
}
