//! Reads texts of updates from standard input, with what is expected of each, and prints of which it
//! is not so, and how many there were.
#![tactic(auto)]

mod cases;
mod notation;
mod operations;
mod readings;

use crate::cases::{Case, Expected};
use crate::operations::are_as_wanted;
use crate::readings::operations_as_read;
use gs_model::Refusal;
use std::alloc::Global;
use std::io::{self, Read, Write};

/// Whether the text of a case has what is expected of it.
fn is_so(alloc: Global, case: &Case) -> bool {
    let read = operations_as_read(alloc, case.base.as_str(), case.text.as_slice());
    match (read, case.expected) {
        (Ok(found), Expected::Update) => {
            are_as_wanted(found.as_slice(), case.operations.as_slice())
        }
        (Err(Refusal::Syntax(at)), Expected::Broken(place)) => at == place,
        (Err(Refusal::NoMemory), Expected::TooMuch) => true,
        (Err(Refusal::TermTooLong), Expected::TooLong) => true,
        (Err(Refusal::NotInProfile), Expected::OutOfProfile) => true,
        _ => false,
    }
}

/// Checks each case of the input.
fn check_all<W: Write>(alloc: Global, input: &str, out: &mut W) -> io::Result<()> {
    let mut case = Case::new(alloc)?;
    let mut updates = 0u64;
    let mut others = 0u64;
    for line in input.split('\n') {
        case.take(line)?;
        match case.expected {
            Expected::Nothing => continue,
            Expected::Update | Expected::TooMuch => updates = updates.saturating_add(1),
            _ => others = others.saturating_add(1),
        }
        if !is_so(alloc, &case) {
            writeln!(out, "{}: not so", case.name)?;
        }
        case = Case::new(alloc)?;
    }
    writeln!(out, "{updates} updates, {others} texts that are none")
}

fn main(rt: HostRuntime) -> io::Result<()> {
    let input = io::read_to_string(rt.alloc(), rt.reader())?;
    check_all(rt.alloc(), input.as_str(), &mut io::writer(&rt))
}
