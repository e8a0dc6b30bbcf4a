//! One connection over a reader and a writer.
ghost use Rattle.std.specs.Prelude.{◌≡◌, ℕ, List, Option, Bool, true, false, Ok, OnOk, OnErr};
ghost use Rattle.std.specs.Io.KnownBytes.{Keeps};
ghost use Rattle.gs_model.specs.Bases.{is_base};
ghost use Rattle.gs_talk.specs.Logs.{Server};
ghost use Rattle.gs_session.specs.Connections.{Connection, IsFinished, Quit};
ghost use Rattle.gs_session.specs.Rounds.{Comes, Goes, ReadsInput, Loses};

use crate::sessions::{Session, Turn};
use crate::writing::write_text;
use gs_door::Door;
use std::alloc::Global;
use std::io::{ErrorKind, Read, Write};

/// Why a connection ended before its input or a reply ended it.
#[derive(Clone, Copy, Debug, PartialEq)]
pub enum ServeFault {
    /// A read failed, or there were 2^64 - 1 turns and reads.
    Read,
    /// A write or a flush failed, or a write took nothing, or a text took 2^64 - 1 writes.
    Write,
    /// There was no memory for the session, or for what was read.
    NoMemory,
}

/// The most bytes of one read.
const READ_BYTES: usize = 8_192;

/// The room for one read, which is made once for a connection. What an earlier read left there is not looked at.
type Space = [u8; READ_BYTES];

/// Gives the session what a read gives. One that was interrupted gives nothing.
fn read_more<R: Read>(
    session: &mut Session,
    reader: &mut R,
    space: &mut Space,
) -> Result<(), ServeFault>
    requires { session.old.ended ≡ false }
    ensures ok { OnOk result (ReadsInput session.old session.new (R.remaining reader.old)
        (R.remaining reader.new)) }
    ensures err { OnErr result (Loses session.old session.new (R.remaining reader.old)
        (R.remaining reader.new)) }
{
    match reader.read(space) {
        Ok(0) => session.end_of_input(),
        Ok(count) => match session.give(&space[..count]) {
            Ok(()) => {}
            Err(_) => return Err(ServeFault::NoMemory),
        },
        Err(error) => {
            if error.kind() != ErrorKind::Interrupted {
                return Err(ServeFault::Read);
            }
        }
    }
    Ok(())
}

/// Waits for more input. What was written is flushed first.
fn await_input<R: Read, W: Write>(
    session: &mut Session,
    reader: &mut R,
    writer: &mut W,
    space: &mut Space,
) -> Result<(), ServeFault>
    requires { session.old.ended ≡ false }
    ensures ok { OnOk result (ReadsInput session.old session.new (R.remaining reader.old)
        (R.remaining reader.new)) }
    ensures err { OnErr result (Loses session.old session.new (R.remaining reader.old)
        (R.remaining reader.new)) }
    ensures keeps { Keeps (W.contents writer.old) (W.contents writer.new) }
{
    match writer.flush() {
        Ok(()) => read_more(session, reader, space),
        Err(_) => Err(ServeFault::Write),
    }
}

/// One turn, with what it writes or reads; whether the connection has ended.
fn round<R: Read, W: Write, D: Door>(
    session: &mut Session,
    reader: &mut R,
    writer: &mut W,
    space: &mut Space,
    door: &mut D,
) -> Result<bool, ServeFault>
    ensures goes { result ≡ Ok false → Comes D.Gives session.old
        (R.remaining reader.old) (W.contents writer.old) door.old
        (R.remaining reader.new) (W.contents writer.new) door.new
        (λ p seat. Goes p seat session.new (R.remaining reader.new)) }
    ensures over { result ≡ Ok true → Comes D.Gives session.old
        (R.remaining reader.old) (W.contents writer.old) door.old
        (R.remaining reader.new) (W.contents writer.new) door.new
        (λ p seat. IsFinished p (R.remaining reader.new)) }
    ensures fault { OnErr result (Comes D.Gives session.old
        (R.remaining reader.old) (W.contents writer.old) door.old
        (R.remaining reader.new) (W.contents writer.new) door.new
        (λ p seat. Quit p (R.remaining reader.new))) }
{
    match session.turn(door) {
        Turn::Over => match writer.flush() {
            Ok(()) => Ok(true),
            Err(_) => Err(ServeFault::Write),
        },
        Turn::Made => Ok(false),
        Turn::Output(text) => {
            if write_text(writer, text.as_slice()) {
                Ok(false)
            } else {
                session.abandon(door);
                Err(ServeFault::Write)
            }
        }
        Turn::NeedInput => match await_input(session, reader, writer, space) {
            Ok(()) => Ok(false),
            Err(fault) => {
                session.abandon(door);
                Err(fault)
            }
        },
    }
}

/// One round after the other, to the end of the connection.
fn rounds<R: Read, W: Write, D: Door>(
    session: &mut Session,
    reader: &mut R,
    writer: &mut W,
    door: &mut D,
) -> Result<(), ServeFault>
    ensures over { OnOk result (Comes D.Gives session.old
        (R.remaining reader.old) (W.contents writer.old) door.old
        (R.remaining reader.new) (W.contents writer.new) door.new
        (λ p seat. IsFinished p (R.remaining reader.new))) }
    ensures fault { OnErr result (Comes D.Gives session.old
        (R.remaining reader.old) (W.contents writer.old) door.old
        (R.remaining reader.new) (W.contents writer.new) door.new
        (λ p seat. Quit p (R.remaining reader.new))) }
{
    let mut space = [0u8; READ_BYTES];
    for _ in 0..u64::MAX {
        match round(session, reader, writer, &mut space, door) {
            Ok(true) => return Ok(()),
            Ok(false) => {}
            Err(fault) => return Err(fault),
        }
    }
    session.abandon(door);
    Err(ServeFault::Read)
}

/// Reads requests, answers them and writes the replies, to the end of the input or to a reply that
/// closes or stops. The seat is the connection's own, and idle at its start; `gs_core::is_base` tests a
/// base; a piece of a read has so many lines, at least one. What was written is flushed before each
/// read, and at the end.
///
/// # Errors
///
/// `Read`, `Write` or `NoMemory`, where that failed. What was written is then a prefix of what is to be
/// said, and what was open is cancelled.
pub fn serve<R: Read, W: Write, D: Door>(
    alloc: Global,
    seat: u16,
    base: &str,
    piece: u32,
    reader: &mut R,
    writer: &mut W,
    door: &mut D,
) -> Result<(), ServeFault>
    requires { is_base base.now ≡ true }
    // All of what is to be said was written, and no request is left.
    ensures whole { OnOk result (Connection D.Gives seat (R.remaining reader.old) (R.remaining reader.new)
        (W.contents writer.old) (W.contents writer.new) door.old door.new
        (IsFinished (record { base = base.now; piece = piece }) (R.remaining reader.new))) }
    // What was written is a prefix of it.
    ensures front { OnErr result (Connection D.Gives seat (R.remaining reader.old) (R.remaining reader.new)
        (W.contents writer.old) (W.contents writer.new) door.old door.new
        (Quit (record { base = base.now; piece = piece }) (R.remaining reader.new))) }
{
    let Ok(mut session) = Session::new(alloc, seat, base, piece) else {
        return Err(ServeFault::NoMemory);
    };
    let done = rounds(&mut session, reader, writer, door);
    drop(session);
    done
}
