//! Reads documents of N-Triples and of Turtle from standard input, one a line, and prints the graph of
//! each, or its fault.
#![tactic(auto)]

mod answers;
mod cases;

use crate::answers::answer;
use crate::cases::Case;
use std::alloc::Global;
use std::io::{self, BufRead, BufReader, BufWriter, Read, Write};

/// Prints what is said of the case of a line, which a line with a dot ends.
fn answer_line<W: Write>(alloc: Global, line: &str, out: &mut W) -> io::Result<()> {
    match Case::read(alloc, line)? {
        Some(case) => answer(alloc, &case, out)?,
        None => writeln!(out, "no case")?,
    }
    writeln!(out, ".")
}

/// Prints what is said of each case of the input.
fn answer_all<R: Read + Drop, W: Write>(
    alloc: Global,
    input: BufReader<R, Global>,
    out: &mut W,
) -> io::Result<()> {
    for line in input.lines(alloc) {
        answer_line(alloc, line?.as_str(), out)?;
    }
    out.flush()
}

fn main(rt: HostRuntime) -> io::Result<()> {
    let alloc = rt.alloc();
    let input = BufReader::new(alloc, rt.reader())?;
    let mut out = BufWriter::new(alloc, io::writer(&rt))?;
    answer_all(alloc, input, &mut out)
}
