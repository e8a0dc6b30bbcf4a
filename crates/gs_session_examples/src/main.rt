//! Reads conversations from standard input, holds each of them again and again, whole, in pieces and
//! broken off, and prints which is not as it says, and how many there were.
#![tactic(auto)]

mod cases;
mod clients;
mod endings;
mod findings;
mod manners;
mod probes;
mod receivers;
mod trials;

use crate::cases::Case;
use crate::probes::Probe;
use crate::trials::try_case;
use std::alloc::Global;
use std::io::{self, Read, Write};

/// Tries a conversation if it has a line; how many were tried.
fn try_begun<W: Write>(
    alloc: Global,
    probe: &Probe,
    case: &Case<'_>,
    out: &mut W,
) -> io::Result<u64> {
    if !case.is_begun() {
        return Ok(0);
    }
    try_case(alloc, probe, case, out)?;
    Ok(1)
}

/// Tries each conversation of the input. The last one ends where the input ends.
fn try_all<W: Write>(alloc: Global, input: &str, out: &mut W) -> io::Result<()> {
    let Ok(probe) = Probe::new(alloc) else {
        return writeln!(out, "no memory");
    };
    let mut case = Case::new(alloc);
    let mut cases = 0u64;
    for line in input.split('\n') {
        if !line.is_empty() {
            case.take(line)?;
            continue;
        }
        cases = cases.saturating_add(try_begun(alloc, &probe, &case, out)?);
        case = Case::new(alloc);
    }
    cases = cases.saturating_add(try_begun(alloc, &probe, &case, out)?);
    writeln!(out, "{cases} conversations")
}

fn main(rt: HostRuntime) -> io::Result<()> {
    let input = io::read_to_string(rt.alloc(), rt.reader())?;
    try_all(rt.alloc(), input.as_str(), &mut io::writer(&rt))
}
