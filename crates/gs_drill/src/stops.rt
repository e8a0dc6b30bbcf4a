//! Why a run of a schedule ends early, and what is said of that.
ghost use Rattle.std.specs.Prelude.{◌≡◌, ◌≤◌, true};
ghost use Rattle.std.specs.Io.KnownBytes.{Appends};
ghost use Rattle.gs_drill.specs.Printing.{Writes, WritesFront, no_command_text, no_memory_text};
ghost use Rattle.gs_drill.specs.Taking.{stop_text};

use crate::printing::{print_no_command, print_no_memory};
use std::io::{self, Write};

/// Why a run ends before its last line.
#[derive(Debug, Drop)]
pub enum Stop {
    /// A line is no command where it stands.
    NoCommand,
    /// Memory was wanted and not given.
    NoMemory,
    /// A read or a write failed.
    Failed,
}

/// Says why a run ended early. Of a failed read or write nothing is said.
fn say<E: Write>(err: &mut E, stop: &Stop, line: u64) -> io::Result<()>
    ensures { Writes (E.contents err.old) (E.contents err.new) (stop_text stop.now line) result }
{
    match stop {
        Stop::NoCommand => print_no_command(err, line),
        Stop::NoMemory => print_no_memory(err),
        Stop::Failed => Ok(()),
    }
}

/// Says it, and flushes what was said: whether all of it was written.
fn say_whole<E: Write>(err: &mut E, stop: &Stop, line: u64) -> bool
    ensures front { WritesFront (E.contents err.old) (E.contents err.new) (stop_text stop.now line) }
    ensures whole { result ≡ true
        → Appends (E.contents err.old) (E.contents err.new) (stop_text stop.now line) }
{
    let said = say(err, stop, line);
    let flushed = err.flush();
    match (said, flushed) {
        (Ok(()), Ok(())) => true,
        _ => false,
    }
}

/// Says why a run ended early, and gives its status.
pub fn report<E: Write>(err: &mut E, stop: Stop, line: u64) -> u8
    ensures no_command { result ≡ 2 → (stop ≡ Stop.NoCommand)
        × Appends (E.contents err.old) (E.contents err.new) (no_command_text line) }
    ensures no_memory { result ≡ 3 → (stop ≡ Stop.NoMemory)
        × Appends (E.contents err.old) (E.contents err.new) no_memory_text }
    ensures failed { result ≡ 1
        → WritesFront (E.contents err.old) (E.contents err.new) (stop_text stop line) }
    ensures status { (1 ≤ result) × (result ≤ 3) }
{
    if !say_whole(err, &stop, line) {
        return 1;
    }
    match stop {
        Stop::NoCommand => 2,
        Stop::NoMemory => 3,
        Stop::Failed => 1,
    }
}
