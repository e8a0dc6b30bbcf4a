//! Plays schedules of events on a store, which are drawn by a seed, beside a plain store and a plain model,
//! and prints what is found to be otherwise, and totals.
#![tactic(auto)]

mod stores;

use crate::stores::{Played, SMALL, WHOLE};
use gs_drawn_schedules::{Judge, Play, Stop, Totals, start_of};
use gs_event::Limits;
use gs_fixed_schedules::{
    Lines, beside_kept_writes, beside_writes, large_lines, last_node_lines, last_node_posts,
    last_term_lines, on_condition, seat_lines, slow_reader_lines, two_versions, without_lines,
};
use gs_version_models::Lie;
use std::alloc::Global;
use std::env;
use std::io::{self, Write};
use std::rt::Env;

/// The last schedule that asks of single graphs alone, the last without conditions, and the last of all.
const LAST_NARROW: u64 = 200;

const LAST_WIDE: u64 = 300;

const LAST: u64 = 360;

/// How many of each sort are played again by a model that is wrong on purpose.
const WRONG_SCHEDULES: u64 = 4;

/// The same of those with conditions.
const WRONG_ON_CONDITION: u64 = 12;

const LIES: [Lie; 6] = [
    Lie::NewestPinAlone,
    Lie::PutLosesTree,
    Lie::ReadsMoveOn,
    Lie::RepeatsTakeNodes,
    Lie::EndsLate,
    Lie::BeginsLate,
];

/// What it is told wrongly where all graphs are read too.
const WIDE_LIES: [Lie; 3] = [Lie::ReadsMoveOn, Lie::AllNeedNothing, Lie::BareNames];

/// What it is told wrongly where some writes have conditions.
const CONDITION_LIES: [Lie; 4] = [
    Lie::NeverLate,
    Lie::LateByOpen,
    Lie::DeletesForgotten,
    Lie::LateCounts,
];

/// Plays a schedule on a store, beside a plain one that holds as much and begins after the same commit.
fn play_on(
    alloc: Global,
    limits: Limits,
    start: u64,
    play: &mut Play,
    store: &mut Played,
    totals: &mut Totals,
) -> Result<(), Stop> {
    let mut plain = Played::plain(alloc, limits, start)?;
    let done = play.play(store, &mut plain, totals);
    drop(plain);
    done
}

/// Plays the schedule with this number. Every fourth is played on a store that holds little.
fn play(alloc: Global, number: u64, lie: Lie, totals: &mut Totals) -> Result<(), Stop> {
    let is_small = number % 4 == 3;
    let limits = if is_small { SMALL } else { WHOLE };
    let start = start_of(number);
    let mut store = if is_small {
        Played::small(alloc, start)?
    } else {
        Played::whole(alloc, start)?
    };
    let mut play = Play::new(alloc, number, limits, lie);
    let done = play_on(alloc, limits, start, &mut play, &mut store, totals);
    drop(store);
    done
}

/// Plays so many schedules after this one with a model that is wrong, and prints what is found first, and in how many.
fn play_wrong<W: Write>(
    alloc: Global,
    before: u64,
    most: u64,
    lie: Lie,
    out: &mut W,
) -> io::Result<()> {
    let mut totals = Totals::new();
    let mut count = 0u64;
    for place in 1..=most {
        let number = before.saturating_add(place);
        if let Err(stop) = play(alloc, number, lie, &mut totals) {
            if count == 0 {
                write!(out, "wrong on purpose, {}: ", lie.text())?;
                stop.print(number, out)?;
            }
            count = count.saturating_add(1);
        }
    }
    writeln!(
        out,
        "wrong on purpose, {}: found in {count} of {most} schedules",
        lie.text(),
    )
}

/// Plays the schedules from one on to another.
fn play_drawn<W: Write>(alloc: Global, first: u64, last: u64, out: &mut W) -> io::Result<()> {
    let mut totals = Totals::new();
    let mut findings = 0u64;
    for number in first..=last {
        if let Err(stop) = play(alloc, number, Lie::Nothing, &mut totals) {
            findings = findings.saturating_add(1);
            stop.print(number, out)?;
        }
    }
    totals.print(out)?;
    writeln!(out, "{findings} findings")
}

/// Plays a run that is the same each time on a store of its own.
fn play_lines(lines: &Lines, mut store: Played) -> Result<(), Stop> {
    let done = lines.play(&mut store);
    drop(store);
    done
}

/// Plays one beside a plain store and a model. In an exact run each commit gives a graph a tree of its own.
fn play_judged(alloc: Global, lines: &Lines, is_exact: bool) -> Result<(), Stop> {
    let mut judge = Judge::new(alloc, is_exact, 0, WHOLE, Lie::Nothing);
    let mut store = Played::whole(alloc, 0)?;
    let done = play_judged_on(alloc, lines, &mut judge, &mut store);
    drop(store);
    done
}

fn play_judged_on(
    alloc: Global,
    lines: &Lines,
    judge: &mut Judge,
    store: &mut Played,
) -> Result<(), Stop> {
    let mut plain = Played::plain(alloc, WHOLE, 0)?;
    let done = lines.play_judged(judge, store, &mut plain);
    drop(plain);
    done
}

fn play_beside_writes(alloc: Global) -> Result<(), Stop> {
    play_judged(alloc, &beside_writes(alloc)?, false)
}

fn play_beside_kept_writes(alloc: Global) -> Result<(), Stop> {
    play_judged(alloc, &beside_kept_writes(alloc)?, false)
}

fn play_two_versions(alloc: Global) -> Result<(), Stop> {
    play_judged(alloc, &two_versions(alloc)?, true)
}

fn play_without_lines(alloc: Global) -> Result<(), Stop> {
    play_judged(alloc, &without_lines(alloc)?, false)
}

fn play_on_condition(alloc: Global) -> Result<(), Stop> {
    play_judged(alloc, &on_condition(alloc)?, false)
}

/// Plays that of all seats beside a plain store.
fn play_seats(alloc: Global) -> Result<(), Stop> {
    let lines = seat_lines(alloc)?;
    let mut store = Played::with_seats(alloc)?;
    let done = play_seats_on(alloc, &lines, &mut store);
    drop(store);
    done
}

fn play_seats_on(alloc: Global, lines: &Lines, store: &mut Played) -> Result<(), Stop> {
    let mut plain = Played::plain_with_seats(alloc)?;
    let done = lines.play_beside(store, &mut plain);
    drop(plain);
    done
}

/// Plays a run where memory may be refused, on a store of its own.
fn play_again(lines: &Lines, mut store: Played) -> Result<(), Stop> {
    let done = lines.play_again(&mut store);
    drop(store);
    done
}

fn play_large(alloc: Global) -> Result<(), Stop> {
    play_lines(&large_lines(alloc)?, Played::whole(alloc, 0)?)
}

fn play_slow(alloc: Global) -> Result<(), Stop> {
    play_lines(&slow_reader_lines(alloc)?, Played::whole(alloc, 0)?)
}

fn play_last_node(alloc: Global) -> Result<(), Stop> {
    play_lines(&last_node_lines(alloc)?, Played::with_last(alloc, 3, 99)?)
}

fn play_last_posts(alloc: Global) -> Result<(), Stop> {
    play_lines(&last_node_posts(alloc)?, Played::with_last(alloc, 3, 99)?)
}

fn play_last_term(alloc: Global) -> Result<(), Stop> {
    play_lines(&last_term_lines(alloc)?, Played::with_last(alloc, 99, 2)?)
}

/// Prints what is found first of a run that is the same each time.
fn print_fixed<W: Write>(name: &str, found: Result<(), Stop>, out: &mut W) -> io::Result<()> {
    match found {
        Ok(()) => writeln!(out, "{name}: as it is to be"),
        Err(stop) => {
            write!(out, "{name}: ")?;
            stop.print(0, out)
        }
    }
}

/// Plays those that are the same each time.
fn play_fixed<W: Write>(alloc: Global, out: &mut W) -> io::Result<()> {
    let large = play_large(alloc);
    print_fixed("a POST of 1,000 triples under a read", large, out)?;
    let slow = play_slow(alloc);
    print_fixed(
        "a thousand POSTs beside a reader that has stopped",
        slow,
        out,
    )?;
    print_fixed("the last node", play_last_node(alloc), out)?;
    print_fixed("a POST to the last node", play_last_posts(alloc), out)?;
    print_fixed("the last term", play_last_term(alloc), out)?;
    let beside = play_beside_writes(alloc);
    print_fixed("a read of all graphs beside writes", beside, out)?;
    let kept = play_beside_kept_writes(alloc);
    print_fixed("the same where nothing is freed", kept, out)?;
    let two = play_two_versions(alloc);
    print_fixed("reads of two versions of all graphs", two, out)?;
    let without = play_without_lines(alloc);
    print_fixed("graphs without lines", without, out)?;
    let conditions = play_on_condition(alloc);
    print_fixed("writes on condition", conditions, out)?;
    print_fixed("a version for each of 512 seats", play_seats(alloc), out)
}

/// Plays the worked runs of reads of all graphs, and that of writes on condition, where memory may be refused.
fn play_refused<W: Write>(alloc: Global, out: &mut W) -> io::Result<()> {
    let beside = play_beside_again(alloc);
    print_fixed("a read of all graphs beside writes", beside, out)?;
    let two = play_two_again(alloc);
    print_fixed("reads of two versions of all graphs", two, out)?;
    print_fixed("graphs without lines", play_without_again(alloc), out)?;
    print_fixed("writes on condition", play_on_condition_again(alloc), out)
}

fn play_beside_again(alloc: Global) -> Result<(), Stop> {
    play_again(&beside_writes(alloc)?, Played::whole(alloc, 0)?)
}

fn play_two_again(alloc: Global) -> Result<(), Stop> {
    play_again(&two_versions(alloc)?, Played::whole(alloc, 0)?)
}

fn play_without_again(alloc: Global) -> Result<(), Stop> {
    play_again(&without_lines(alloc)?, Played::whole(alloc, 0)?)
}

fn play_on_condition_again(alloc: Global) -> Result<(), Stop> {
    play_again(&on_condition(alloc)?, Played::whole(alloc, 0)?)
}

fn play_all<W: Write>(alloc: Global, out: &mut W) -> io::Result<()> {
    for lie in &LIES {
        play_wrong(alloc, 0, WRONG_SCHEDULES, *lie, out)?;
    }
    play_drawn(alloc, 1, LAST_NARROW, out)?;
    for lie in &WIDE_LIES {
        play_wrong(alloc, LAST_NARROW, WRONG_SCHEDULES, *lie, out)?;
    }
    play_drawn(alloc, LAST_NARROW.saturating_add(1), LAST_WIDE, out)?;
    for lie in &CONDITION_LIES {
        play_wrong(alloc, LAST_WIDE, WRONG_ON_CONDITION, *lie, out)?;
    }
    play_drawn(alloc, LAST_WIDE.saturating_add(1), LAST, out)?;
    play_fixed(alloc, out)
}

/// Whether the argument `refused` is given.
fn is_refused(rt: &(impl Env + AllocGlobal)) -> io::Result<bool> {
    match env::args(rt)?.nth(1) {
        Some(word) => Ok(word.as_str() == "refused"),
        None => Ok(false),
    }
}

fn main(rt: HostRuntime) -> io::Result<()> {
    let alloc = rt.alloc();
    if is_refused(&rt)? {
        return play_refused(alloc, &mut io::writer(&rt));
    }
    play_all(alloc, &mut io::writer(&rt))
}
