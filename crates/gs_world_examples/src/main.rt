//! Reads cases from standard input, plays each of them in a world of its own again and again, and
//! prints which do not go as they say, and how many there were.
#![tactic(auto)]

mod cases;
mod findings;
mod numbers;
mod plays;
mod rounds;
mod shows;
mod trials;
mod worlds;

use crate::cases::Case;
use crate::trials::try_case;
use std::alloc::Global;
use std::io::{self, Read, Write};

/// Tries a case if it has a line; how many were tried.
fn try_begun<W: Write>(case: &Case<'_>, out: &mut W) -> io::Result<u64> {
    if !case.is_begun() {
        return Ok(0);
    }
    try_case(case, out)?;
    Ok(1)
}

/// Tries each case of the input. The last one ends where the input ends.
fn try_all<W: Write>(alloc: Global, input: &str, out: &mut W) -> io::Result<()> {
    let mut case = Case::new(alloc);
    let mut cases = 0u64;
    for line in input.split('\n') {
        if !line.is_empty() {
            case.take(line)?;
            continue;
        }
        cases = cases.saturating_add(try_begun(&case, out)?);
        case = Case::new(alloc);
    }
    cases = cases.saturating_add(try_begun(&case, out)?);
    writeln!(out, "{cases} cases")
}

fn main(rt: HostRuntime) -> io::Result<()> {
    let input = io::read_to_string(rt.alloc(), rt.reader())?;
    try_all(rt.alloc(), input.as_str(), &mut io::writer(&rt))
}
