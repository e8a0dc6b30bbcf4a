//! Plays schedules of many connections on one store, which a seeded generator makes, judges each step
//! by a plain model of the protocol, and prints what is found to be otherwise, and totals.
#![tactic(auto)]

mod clients;
mod conditions;
mod findings;
mod judging;
mod plays;
mod totals;
mod wires;
mod witnesses;

use crate::findings::Stop;
use crate::plays::play_schedule;
use crate::totals::Totals;
use gs_world_models::Lie;
use std::alloc::Global;
use std::io::{self, Write};

/// The last schedule without conditions, and the last of all.
const LAST_PLAIN: u64 = 500;

const LAST: u64 = 560;

/// How many of each sort are played again by a model that is wrong on purpose.
const WRONG_SCHEDULES: u64 = 20;

const LIES: [Lie; 6] = [
    Lie::PostReplaces,
    Lie::ReadsMoveOn,
    Lie::DroppedUploadsCount,
    Lie::FaultsRemove,
    Lie::LinesHaveNoName,
    Lie::NeighboursAnswer,
];

/// What it is told wrongly where some requests have conditions.
const CONDITION_LIES: [Lie; 2] = [Lie::NeverLate, Lie::FaultyConditionsHold];

/// Plays schedules after this one with a model that is wrong, and prints what is found first, and in how many.
fn play_wrong<W: Write>(alloc: Global, before: u64, lie: Lie, out: &mut W) -> io::Result<()> {
    let mut totals = Totals::new();
    let mut count = 0u64;
    for place in 1..=WRONG_SCHEDULES {
        let number = before.saturating_add(place);
        if let Err(stop) = play_schedule(alloc, number, lie, &mut totals) {
            if count == 0 {
                write!(out, "wrong on purpose, {}: ", lie.text())?;
                print_stop(&stop, number, out)?;
            }
            count = count.saturating_add(1);
        }
    }
    writeln!(
        out,
        "wrong on purpose, {}: found in {count} of {WRONG_SCHEDULES} schedules",
        lie.text(),
    )
}

fn print_stop<W: Write>(stop: &Stop, number: u64, out: &mut W) -> io::Result<()> {
    match stop {
        Stop::NoMemory => writeln!(out, "schedule {number}: no memory"),
        Stop::Found(finding) => finding.print(number, out),
    }
}

/// Plays the schedules from one on to another.
fn play_drawn<W: Write>(alloc: Global, first: u64, last: u64, out: &mut W) -> io::Result<()> {
    let mut totals = Totals::new();
    let mut findings = 0u64;
    for number in first..=last {
        if let Err(stop) = play_schedule(alloc, number, Lie::Nothing, &mut totals) {
            findings = findings.saturating_add(1);
            print_stop(&stop, number, out)?;
        }
    }
    totals.print(out)?;
    writeln!(out, "{findings} findings")
}

/// Plays all schedules.
fn play_all<W: Write>(alloc: Global, out: &mut W) -> io::Result<()> {
    for lie in &LIES {
        play_wrong(alloc, 0, *lie, out)?;
    }
    play_drawn(alloc, 1, LAST_PLAIN, out)?;
    for lie in &CONDITION_LIES {
        play_wrong(alloc, LAST_PLAIN, *lie, out)?;
    }
    play_drawn(alloc, LAST_PLAIN.saturating_add(1), LAST, out)
}

fn main(rt: HostRuntime) -> io::Result<()> {
    play_all(rt.alloc(), &mut io::writer(&rt))
}
