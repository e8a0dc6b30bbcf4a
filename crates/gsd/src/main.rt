//! Serves a graph store over HTTP: at an address, or one connection from standard input to standard output.
#![tactic(auto)]

mod listening;

use gs_once::{Stop, Task, perform, read_task, report};
use listening::listen;
use std::alloc::{AllocError, Global};
use std::env;
use std::io::{self, ErrorKind};
use std::process::ExitCode;

/// The same words, lent.
fn lent<'a>(alloc: Global, words: &'a [String]) -> Result<Vec<&'a str>, AllocError> {
    let mut texts = Vec::with_capacity(alloc, words.len())?;
    for word in words {
        texts.push(word.as_str())?;
    }
    Ok(texts)
}

/// The words of the command line. One that is not text is a bad argument.
fn words(rt: &HostRuntime) -> Result<Vec<String>, Stop> {
    match env::args(rt) {
        Ok(words) => match words.collect(rt.alloc()) {
            Ok(words) => Ok(words),
            Err(_) => Err(Stop::NoMemory),
        },
        Err(error) => Err(if error.kind() == ErrorKind::OutOfMemory {
            Stop::NoMemory
        } else {
            Stop::BadArguments
        }),
    }
}

// Where the words ask for listening, it is done here; all else is done by `perform`, which has no network.
fn main(rt: HostRuntime) -> ExitCode {
    let alloc = rt.alloc();
    let mut err = rt.stderr();
    let words = match words(&rt) {
        Ok(words) => words,
        Err(stop) => return ExitCode::from(report(&mut err, stop)),
    };
    let Ok(texts) = lent(alloc, words.as_slice()) else {
        return ExitCode::from(report(&mut err, Stop::NoMemory));
    };
    let status = match read_task(alloc, texts.as_slice()) {
        Ok(
            Task::Listen {
                address,
                base,
                workers,
                piece,
            },
        ) => match listen(&rt, alloc, err, address, base, workers, piece) {
            Ok(()) => 0,
            Err(stop) => report(&mut err, stop),
        },
        Ok(task) => perform(
            alloc,
            task,
            &mut rt.reader(),
            &mut io::writer(&rt),
            &mut err,
        ),
        Err(stop) => report(&mut err, stop),
    };
    ExitCode::from(status)
}
