//! The run of a schedule: each line in turn, and what it prints.
ghost use Rattle.std.specs.Prelude.{◌≡◌, ◌≢◌, ◌≤◌, ℕ, IfOk, IfErr, OnOk, MatchOption, Some, []};
ghost use Rattle.std.specs.Io.KnownBytes.{Appends, IsAtEnd};
ghost use Rattle.gs_model.specs.Limits.{last_number, max_seats};
ghost use Rattle.gs_event.specs.Datasets.{triples_in};
ghost use Rattle.gs_event.specs.Waste.{nodes_in};
ghost use Rattle.gs_drill.specs.Printing.{reply_text, counts_text, no_memory_text};
ghost use Rattle.gs_drill.specs.Drills.{drill_start, new_store as new_store_of, FinishesRun, SaysStop, Halts, BreaksOff, FailsRun};
ghost use Rattle.gs_drill.specs.Taking.{IsInRange, Prints, RepliesText, RepliesFrom, DoesCommand, TakesLine, EndsRun};
ghost use Rattle.gs_drill.specs.Feeds.{DoesFeed};
ghost use Rattle.gs_drill.specs.Commits.{Asks, DoesEvent};
ghost use Rattle.gs_drill.specs.Patches.{DoesPatch};
ghost use Rattle.gs_drill.specs.Standing.{Standing, desk_of, run_state, BeginsStore};

use crate::feeds::{answer, commit, feed};
use crate::patches::patch;
use crate::printing::{Reply, print_answer, print_counts, print_reply};
use crate::stops::{Stop, report};
use crate::uploads::Uploads;
use gs_commands::{Command, read_command, split};
use gs_core::Store;
use gs_event::{Action, Event};
use gs_upload::Language;
use std::alloc::Global;
use std::io::{self, ErrorKind, Read, Write};

/// The base of the store of a schedule.
const BASE: &str = "http://localhost";

/// A store of so many seats, where the last commit number and the last request number were these.
fn new_store(alloc: Global, seats: u16, commit: u64, request: u64) -> Result<Store, Stop>
    requires some { 1 ≤ seats }
    requires few { seats ≤ max_seats }
    requires last_commit { commit ≤ last_number }
    requires last_request { request ≤ last_number }
    ensures store { IfOk result (λ store. store ≡ new_store_of (drill_start seats commit request)) }
    ensures refused { IfErr result (λ stop. stop ≡ Stop.NoMemory) }
{
    match Store::starting_at(alloc, seats, BASE, commit, request) {
        Ok(store) => Ok(store),
        Err(_) => Err(Stop::NoMemory),
    }
}

/// A store of so many seats, to which nothing was fed.
fn begin(alloc: Global, seats: u16, commit: u64, request: u64) -> Result<(Store, Uploads), Stop>
    requires some { 1 ≤ seats }
    requires few { seats ≤ max_seats }
    requires last_commit { commit ≤ last_number }
    requires last_request { request ≤ last_number }
    ensures begins { IfOk result (λ made. BeginsStore made.0 made.1 (drill_start seats commit request)) }
    ensures refused { IfErr result (λ stop. stop ≡ Stop.NoMemory) }
{
    let store = new_store(alloc, seats, commit, request)?;
    match Uploads::new(alloc, seats) {
        Ok(uploads) => Ok((store, uploads)),
        Err(_) => Err(Stop::NoMemory),
    }
}

/// Asks the store, and prints its answer.
fn ask<W: Write>(
    store: &mut Store,
    uploads: &mut Uploads,
    event: Event,
    out: &mut W,
) -> io::Result<()>
    ensures does { (st : Standing store.old uploads.old)
        → Prints (λ text. (en : Standing store.new uploads.new) × Asks (desk_of st) event text (desk_of en))
        (W.contents out.old) (W.contents out.new) result }
    ensures cut { uploads.new.cut ≡ uploads.old.cut }
{
    let answer = answer(store, uploads, event);
    print_answer(out, answer)
}

/// Prints a reply.
fn write_reply<W: Write>(reply: Reply, out: &mut W) -> Result<(), Stop>
    ensures { RepliesText (reply_text reply) (W.contents out.old) (W.contents out.new) result }
{
    match print_reply(out, reply) {
        Ok(()) => Ok(()),
        Err(_) => Err(Stop::Failed),
    }
}

/// The seat that commits, where an event is a commit.
fn committing(event: &Event) -> Option<u16>
    ensures { MatchOption result ((s : ℕ) → event.now ≢ Event.Seat s Action.Commit)
        (λ s. event.now ≡ Event.Seat s Action.Commit) }
{
    match event {
        Event::Seat(seat, Action::Commit) => Some(*seat),
        _ => None,
    }
}

/// Asks the store, or commits, and prints what that answers.
fn do_event<W: Write>(
    alloc: Global,
    store: &mut Store,
    uploads: &mut Uploads,
    event: Event,
    out: &mut W,
) -> Result<(), Stop>
    ensures does { RepliesFrom store.old uploads.old store.new uploads.new (λ d. DoesEvent d event)
        (W.contents out.old) (W.contents out.new) result }
    ensures cut { uploads.new.cut ≡ uploads.old.cut }
{
    match committing(&event) {
        Some(seat) => match commit(alloc, store, uploads, seat) {
            Ok(reply) => write_reply(reply, out),
            Err(_) => Err(Stop::NoMemory),
        },
        None => match ask(store, uploads, event, out) {
            Ok(()) => Ok(()),
            Err(_) => Err(Stop::Failed),
        },
    }
}

/// Feeds a text, and prints what that answers.
fn do_feed<W: Write>(
    alloc: Global,
    store: &mut Store,
    uploads: &mut Uploads,
    seat: u16,
    language: Language,
    text: &[u8],
    out: &mut W,
) -> Result<(), Stop>
    ensures does { RepliesFrom store.old uploads.old store.new uploads.new
        (λ d. DoesFeed uploads.old.cut d seat language text.now)
        (W.contents out.old) (W.contents out.new) result }
    ensures cut { uploads.new.cut ≡ uploads.old.cut }
{
    match feed(alloc, store, uploads, seat, language, text) {
        Ok(reply) => write_reply(reply, out),
        Err(_) => Err(Stop::NoMemory),
    }
}

/// Gives the text of an update to a patch, and prints what that answers.
fn do_patch<W: Write>(
    alloc: Global,
    store: &mut Store,
    uploads: &mut Uploads,
    seat: u16,
    text: &[u8],
    out: &mut W,
) -> Result<(), Stop>
    ensures does { RepliesFrom store.old uploads.old store.new uploads.new
        (λ d. DoesPatch d seat text.now) (W.contents out.old) (W.contents out.new) result }
    ensures cut { uploads.new.cut ≡ uploads.old.cut }
{
    match patch(alloc, store, uploads, seat, text) {
        Ok(reply) => write_reply(reply, out),
        Err(_) => Err(Stop::NoMemory),
    }
}

/// Prints the two counts.
fn do_count<W: Write>(store: &Store, out: &mut W) -> Result<(), Stop>
    ensures { RepliesText (counts_text (nodes_in store.now) (triples_in store.now.view.totals.dataset))
        (W.contents out.old) (W.contents out.new) result }
{
    match print_counts(out, store.nodes_in_use(), store.triples_now()) {
        Ok(()) => Ok(()),
        Err(_) => Err(Stop::Failed),
    }
}

/// Does a command, and prints what it answers.
fn do_command<W: Write>(
    alloc: Global,
    begun: &mut bool,
    store: &mut Store,
    uploads: &mut Uploads,
    command: Command,
    out: &mut W,
) -> Result<(), Stop>
    requires { IsInRange command }
    ensures { (st : Standing store.old uploads.old)
        → DoesCommand (run_state begun.old st) command {T = Standing store.new uploads.new} (run_state begun.new)
        (W.contents out.old) (W.contents out.new) result }
{
    match command {
        Command::Nothing => Ok(()),
        Command::Begin(seats, commit, request) => {
            if *begun {
                return Err(Stop::NoCommand);
            }
            let (made, idle) = begin(alloc, seats, commit, request)?;
            *store = made;
            *uploads = idle;
            *begun = true;
            Ok(())
        }
        Command::Ask(event) => {
            *begun = true;
            do_event(alloc, store, uploads, event, out)
        }
        Command::Count => {
            *begun = true;
            do_count(store, out)
        }
        Command::Feed(seat, language, text) => {
            *begun = true;
            if !uploads.takes(seat, language) {
                return Err(Stop::NoCommand);
            }
            do_feed(alloc, store, uploads, seat, language, text.as_slice(), out)
        }
        Command::Patch(seat, text) => {
            *begun = true;
            do_patch(alloc, store, uploads, seat, text.as_slice(), out)
        }
        Command::Cut(length) => {
            *begun = true;
            uploads.cut = length;
            Ok(())
        }
    }
}

/// Takes one line: does what it says.
fn take_line<W: Write>(
    alloc: Global,
    begun: &mut bool,
    store: &mut Store,
    uploads: &mut Uploads,
    line: &[u8],
    out: &mut W,
) -> Result<(), Stop>
    ensures { (st : Standing store.old uploads.old)
        → TakesLine (run_state begun.old st) line.now {T = Standing store.new uploads.new} (run_state begun.new)
        (W.contents out.old) (W.contents out.new) result }
{
    match read_command(alloc, line) {
        Ok(Some(command)) => do_command(alloc, begun, store, uploads, command, out),
        Ok(None) => Err(Stop::NoCommand),
        Err(_) => Err(Stop::NoMemory),
    }
}

/// Takes each line of an input. An early end has the number of its line.
fn play<W: Write>(alloc: Global, input: &[u8], out: &mut W) -> Result<(), (Stop, u64)>
    ensures { EndsRun (Some input.now) (W.contents out.old) (W.contents out.new) result }
{
    let (mut store, mut uploads) = match begin(alloc, 4, 0, 0) {
        Ok(made) => made,
        Err(_) => return Err((Stop::NoMemory, 0)),
    };
    let mut begun = false;
    let mut number = 0u64;
    let mut rest = input;
    while !rest.is_empty() {
        let (line, after) = split(rest, b'\n');
        number += 1;
        if let Err(stop) = take_line(alloc, &mut begun, &mut store, &mut uploads, line, out) {
            drop(uploads);
            drop(store);
            return Err((stop, number));
        }
        rest = after;
    }
    drop(uploads);
    drop(store);
    Ok(())
}

/// Reads an input whole, and takes each of its lines.
fn read_and_play<R: Read, W: Write>(
    alloc: Global,
    reader: &mut R,
    out: &mut W,
) -> Result<(), (Stop, u64)>
    ensures ends { EndsRun (R.remaining reader.old) (W.contents out.old) (W.contents out.new) result }
    ensures at_end { OnOk result (IsAtEnd (R.remaining reader.new)) }
{
    let mut input = Vec::new(alloc);
    match reader.read_to_end(&mut input) {
        Ok(_) => play(alloc, input.as_slice(), out),
        Err(error) => {
            if error.kind() == ErrorKind::OutOfMemory {
                Err((Stop::NoMemory, 0))
            } else {
                Err((Stop::Failed, 0))
            }
        }
    }
}

/// Runs a schedule: reads it whole, takes its lines in order and writes what they print. What was
/// written is flushed before a status is given. The status is 0 at the end of the input, where each
/// line is a command; 2 where one is not, which is then said on `err`; 3 for want of memory outside
/// an event, which is said too; and 1 where a read, a write or a flush failed, of `err` too.
pub fn drill<R: Read, W: Write, E: Write>(
    alloc: Global,
    reader: &mut R,
    out: &mut W,
    err: &mut E,
) -> u8
    ensures front { BreaksOff (R.remaining reader.old) (W.contents out.old) (W.contents out.new) }
    ensures finished { result ≡ 0
        → FinishesRun (R.remaining reader.old) (W.contents out.old) (W.contents out.new)
        × Appends (E.contents err.old) (E.contents err.new) [] }
    ensures at_end { result ≡ 0 → IsAtEnd (R.remaining reader.new) }
    ensures failed { result ≡ 1 → FailsRun (R.remaining reader.old) (W.contents out.old) (W.contents out.new)
        (E.contents err.old) (E.contents err.new) }
    ensures no_command { result ≡ 2
        → SaysStop (R.remaining reader.old) (W.contents out.old) (W.contents out.new)
        (E.contents err.old) (E.contents err.new) }
    ensures no_memory { result ≡ 3
        → Halts (R.remaining reader.old) (W.contents out.old) (W.contents out.new)
        × Appends (E.contents err.old) (E.contents err.new) no_memory_text }
    ensures status { result ≤ 3 }
{
    let ended = read_and_play(alloc, reader, out);
    let flushed = out.flush();
    match (ended, flushed) {
        (_, Err(_)) => 1,
        (Ok(()), Ok(())) => 0,
        (Err((stop, line)), Ok(())) => report(err, stop, line),
    }
}
