//! Reads documents of Turtle from standard input, with what is expected of each, and prints of
//! which it is not so, and how many there were.
#![tactic(auto)]

mod cases;
mod readings;

use crate::cases::{Case, Expected};
use crate::readings::lines_as_read;
use gs_model::Refusal;
use std::alloc::Global;
use std::io::{self, Read, Write};

/// How a text is cut: whole, and in pieces of so many bytes.
const CUTS: [(&str, usize); 4] = [
    ("whole", usize::MAX),
    ("in pieces of 1", 1),
    ("in pieces of 2", 2),
    ("in pieces of 3", 3),
];

/// Whether the text of a case has what is expected of it, cut so.
fn is_so(alloc: Global, case: &Case, size: usize) -> bool {
    let read = lines_as_read(alloc, case.base.as_str(), case.text.as_bytes(), size);
    match (read, case.expected) {
        (Ok(lines), Expected::Document) => lines.as_slice() == case.lines.as_slice(),
        (Err(Refusal::Syntax(at)), Expected::Fault(place)) => at == place,
        _ => false,
    }
}

/// Prints in which cuts a case is not so.
fn check<W: Write>(alloc: Global, case: &Case, out: &mut W) -> io::Result<()> {
    for row in &CUTS {
        let (cut, size) = *row;
        if !is_so(alloc, case, size) {
            writeln!(out, "{}: not so, {cut}", case.name)?;
        }
    }
    Ok(())
}

/// Checks each case of the input.
fn check_all<W: Write>(alloc: Global, input: &str, out: &mut W) -> io::Result<()> {
    let mut case = Case::new(alloc)?;
    let mut documents = 0u64;
    let mut faults = 0u64;
    for line in input.split('\n') {
        case.take(line)?;
        match case.expected {
            Expected::Nothing => continue,
            Expected::Document => documents = documents.saturating_add(1),
            Expected::Fault(_) => faults = faults.saturating_add(1),
        }
        check(alloc, &case, out)?;
        case = Case::new(alloc)?;
    }
    writeln!(out, "{documents} documents, {faults} texts that are none")
}

fn main(rt: HostRuntime) -> io::Result<()> {
    let input = io::read_to_string(rt.alloc(), rt.reader())?;
    check_all(rt.alloc(), input.as_str(), &mut io::writer(&rt))
}
