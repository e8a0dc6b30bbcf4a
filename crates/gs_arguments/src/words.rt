//! The command line.
ghost use Rattle.std.specs.Prelude.{◌≡◌, IfOk, map, codes};
ghost use Rattle.clap.specs.Words.{app_of, new_app, with_rule, matches_of, found_of, rows_of, FailsBy, fault_of};
ghost use Rattle.gs_arguments.specs.Options.{ReadsWorkers, ReadsPiece, gsd};
ghost use Rattle.gs_arguments.specs.Options as spec;

use crate::options::{base, listen, once, piece, workers};
use clap::{ArgMatches, Command, Error};
use std::alloc::{AllocError, Global};

/// The program with the two ways to run.
fn ways<'a>(alloc: Global) -> Result<Command<'a>, AllocError>
    ensures { IfOk result (λ command. app_of command
        ≡ with_rule (with_rule (new_app (codes "gsd")) spec.listen) spec.once) }
{
    Command::new(alloc, "gsd")
        .arg(listen(alloc))?
        .arg(once(alloc))
}

fn command<'a>(alloc: Global) -> Result<Command<'a>, AllocError>
    ensures { IfOk result (λ command. app_of command ≡ gsd) }
{
    ways(alloc)?
        .arg(base(alloc))?
        .arg(workers(alloc))?
        .arg(piece(alloc))
}

/// What clap finds in the words, of which the first is the program's name.
pub fn matches<'a>(alloc: Global, words: &'a [&'a str]) -> Result<ArgMatches<'a>, Error>
    ensures ok { IfOk result (λ m. rows_of (found_of m) ≡ matches_of gsd (map (λ w. w.now) words.now)) }
    ensures workers { IfOk result (λ m. ReadsWorkers (found_of m)) }
    ensures piece { IfOk result (λ m. ReadsPiece (found_of m)) }
    ensures kinds { FailsBy (fault_of gsd (map (λ w. w.now) words.now)) result }
{
    let command = command(alloc)?;
    command.try_get_matches_from(words)
}
