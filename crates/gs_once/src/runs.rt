//! One run of the program.
ghost use Rattle.std.specs.Prelude.{◌≡◌, ◌≤◌, ℕ, List, Option, true, map};
ghost use Rattle.gs_model.specs.Bases.{is_base};
ghost use Rattle.gs_arguments.specs.Asked.{asked_by, asked_for, IsAllowed, help as asks_help, connection};
ghost use Rattle.gs_once.specs.Stops.{stop_of as stop_by};
ghost use Rattle.gs_once.specs.Runs.{traffic, Performs, Exits};

use crate::stops::report;
use gs_arguments::{Stop, Task, help, read_task};
use gs_core::Store;
use gs_session::{ServeFault, serve, write_text};
use std::alloc::Global;
use std::io::{Read, Write};

/// Writes the text of help, and flushes it.
fn show_help<W: Write>(out: &mut W) -> Result<(), Stop>
    ensures { (unread : Option (List ℕ)) → Performs asks_help
        (traffic unread unread (W.contents out.old) (W.contents out.new)) result }
{
    if !write_text(out, help().as_bytes()) {
        return Err(Stop::WriteFailed);
    }
    match out.flush() {
        Ok(()) => Ok(()),
        Err(_) => Err(Stop::WriteFailed),
    }
}

fn stop_of(fault: ServeFault) -> Stop
    ensures { result ≡ stop_by fault }
{
    match fault {
        ServeFault::Read => Stop::ReadFailed,
        ServeFault::Write => Stop::WriteFailed,
        ServeFault::NoMemory => Stop::NoMemory,
    }
}

/// Serves one connection over a new store of one seat.
fn serve_one<R: Read, W: Write>(
    alloc: Global,
    base: &str,
    piece: u32,
    reader: &mut R,
    out: &mut W,
) -> Result<(), Stop>
    requires base { is_base base.now ≡ true }
    requires some { 1 ≤ piece }
    requires few { piece ≤ 4096 }
    ensures { Performs (connection base.now piece)
        (traffic (R.remaining reader.old) (R.remaining reader.new) (W.contents out.old) (W.contents out.new)) result }
{
    let Ok(mut store) = Store::new(alloc, 1, base) else {
        return Err(Stop::NoMemory);
    };
    match serve(alloc, 0, base, piece, reader, out, &mut store) {
        Ok(()) => Ok(()),
        Err(fault) => Err(stop_of(fault)),
    }
}

/// Does the task. What is listened at is reached through a network, of which a run has none.
fn run<R: Read, W: Write>(
    alloc: Global,
    task: Task,
    reader: &mut R,
    out: &mut W,
) -> Result<(), Stop>
    requires { IsAllowed task }
    ensures { Performs (asked_for task.entry)
        (traffic (R.remaining reader.old) (R.remaining reader.new) (W.contents out.old) (W.contents out.new)) result }
{
    match task {
        Task::Help => show_help(out),
        Task::Connection(base, piece) => serve_one(alloc, base, piece, reader, out),
        Task::Listen { .. } => Err(Stop::CannotListen),
    }
}

/// Does the task, and gives the status: it is 0 at the end of a connection that was served and after
/// help, 1 where a read, a write or a flush failed, 3 where the task is to listen, which a caller with a
/// network does itself, and 4 where memory was wanted. A status that is not 0 has its line on `err`;
/// where that cannot be written, the status is the same.
pub fn perform<R: Read, W: Write, E: Write>(
    alloc: Global,
    task: Task,
    reader: &mut R,
    out: &mut W,
    err: &mut E,
) -> u8
    requires { IsAllowed task }
    ensures { Exits (asked_for task.entry)
        (traffic (R.remaining reader.old) (R.remaining reader.new) (W.contents out.old) (W.contents out.new))
        (E.contents err.old) (E.contents err.new) result }
{
    match run(alloc, task, reader, out) {
        Ok(()) => 0,
        Err(stop) => report(err, stop),
    }
}

/// Does what the words ask for, of which the first is the program's name, and gives the status: that of
/// `perform`, or 2 where the words ask for nothing, and 4 where memory was wanted to read them; these
/// have their lines on `err` too.
pub fn once<R: Read, W: Write, E: Write>(
    alloc: Global,
    words: &[&str],
    reader: &mut R,
    out: &mut W,
    err: &mut E,
) -> u8
    ensures { Exits (asked_by (map (λ w. w.now) words.now))
        (traffic (R.remaining reader.old) (R.remaining reader.new) (W.contents out.old) (W.contents out.new))
        (E.contents err.old) (E.contents err.new) result }
{
    match read_task(alloc, words) {
        Ok(task) => perform(alloc, task, reader, out, err),
        Err(refused) => report(err, refused),
    }
}
