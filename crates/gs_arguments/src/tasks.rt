//! What the words ask for.
ghost use Rattle.std.specs.Prelude.{◌≡◌, ◌≤◌, MatchOption, None, codes, map, option_map, true};
ghost use Rattle.clap.specs.Words.{found_of, first_value};
ghost use Rattle.gs_model.specs.Bases.{is_base as is_base_text};
ghost use Rattle.gs_arguments.specs.Options.{ReadsWorkers, ReadsPiece};
ghost use Rattle.gs_arguments.specs.Asked.{IsTask, ReadsWords, SaysOptionNumber, asked_by, asked_by_found, asked_way, nothing};

use crate::stops::Stop;
use crate::words::matches;
use clap::ArgMatches;
use clap::error::ErrorKind;
use gs_core::is_base;
use std::alloc::Global;

/// What a run is to do.
#[derive(Clone, Copy, Debug)]
pub enum Task<'a> {
    /// Show the text of help.
    Help,
    /// Serve one connection, under this base and with pieces of so many lines.
    Connection(&'a str, u32),
    /// Serve the connections to an address.
    Listen {
        /// Where to listen: a text for `TcpListener::bind`, which may take it or not.
        address: &'a str,
        /// What the names of graphs begin with that the store makes up.
        base: &'a str,
        /// How many connections are served at once.
        workers: u16,
        /// The lines of a piece of a reply.
        piece: u32,
    },
}

/// One connection or the connections to an address, whichever the words have.
fn way<'a>(
    once: bool,
    listen: Option<&'a str>,
    base: &'a str,
    workers: u16,
    piece: u32,
) -> Option<Task<'a>>
    requires base { is_base_text base.now ≡ true }
    requires some { (1 ≤ workers) × (1 ≤ piece) }
    requires few { (workers ≤ 256) × (piece ≤ 4096) }
    ensures { MatchOption result
        (asked_way once (option_map (λ w. w.now) listen.entry) base.now workers piece ≡ nothing)
        (IsTask (asked_way once (option_map (λ w. w.now) listen.entry) base.now workers piece)) }
{
    match (once, listen) {
        (true, None) => Some(Task::Connection(base, piece)),
        (false, Some(address)) => Some(Task::Listen {
            address,
            base,
            workers,
            piece,
        }),
        _ => None,
    }
}

fn workers_of(matches: &ArgMatches) -> Option<u16>
    requires { ReadsWorkers (found_of matches.now) }
    ensures { MatchOption result (first_value (found_of matches.now) (codes "workers") ≡ None)
        (SaysOptionNumber (codes "workers") 256 (found_of matches.now)) }
{
    matches.get_one("workers")
}

fn piece_of(matches: &ArgMatches) -> Option<u32>
    requires { ReadsPiece (found_of matches.now) }
    ensures { MatchOption result (first_value (found_of matches.now) (codes "piece") ≡ None)
        (SaysOptionNumber (codes "piece") 4096 (found_of matches.now)) }
{
    matches.get_one("piece")
}

/// What the options ask for.
fn task_of<'a>(matches: &ArgMatches<'a>) -> Option<Task<'a>>
    requires workers { ReadsWorkers (found_of matches.now) }
    requires piece { ReadsPiece (found_of matches.now) }
    ensures { MatchOption result (asked_by_found (found_of matches.now) ≡ nothing)
        (IsTask (asked_by_found (found_of matches.now))) }
{
    let listen = matches.get_str("listen");
    let once = matches.get_str("once")?;
    let base = matches.get_str("base")?;
    let workers = workers_of(matches)?;
    let piece = piece_of(matches)?;
    if is_base(base) {
        way(once == "true", listen, base, workers, piece)
    } else {
        None
    }
}

/// Reads the words, of which the first is the program's name. Words that ask for nothing are
/// `BadArguments`; memory may be wanted, `NoMemory`; there is no other refusal.
pub fn read_task<'a>(alloc: Global, words: &'a [&'a str]) -> Result<Task<'a>, Stop>
    ensures { ReadsWords (asked_by (map (λ w. w.now) words.now)) result }
{
    match matches(alloc, words) {
        Ok(matches) => match task_of(&matches) {
            Some(task) => Ok(task),
            None => Err(Stop::BadArguments),
        },
        Err(error) => match error.kind() {
            ErrorKind::DisplayHelp => Ok(Task::Help),
            ErrorKind::OutOfMemory => Err(Stop::NoMemory),
            _ => Err(Stop::BadArguments),
        },
    }
}
