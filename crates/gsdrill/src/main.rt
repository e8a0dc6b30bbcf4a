//! Replays a schedule: reads it from standard input, and prints what a graph store answers.
#![tactic(auto)]

use gs_drill::drill;
use std::io::{self, BufWriter};
use std::process::ExitCode;

fn main(rt: HostRuntime) -> ExitCode {
    let mut err = rt.stderr();
    match BufWriter::new(rt.alloc(), io::writer(&rt)) {
        Ok(mut out) => ExitCode::from(drill(rt.alloc(), &mut rt.reader(), &mut out, &mut err)),
        Err(_) => ExitCode::from(drill(
            rt.alloc(),
            &mut rt.reader(),
            &mut io::writer(&rt),
            &mut err,
        )),
    }
}
