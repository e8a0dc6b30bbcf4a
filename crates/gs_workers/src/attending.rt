//! One connection, whatever becomes of it.
ghost use Rattle.std.specs.Prelude.{◌≡◌, true, OnOk};
ghost use Rattle.gs_model.specs.Bases.{is_base};
ghost use Rattle.gs_session.specs.Connections.{Connection, IsFinished};
ghost use Rattle.gs_workers.specs.Attends.{Attends};

use gs_door::Door;
use gs_session::{ServeFault, serve};
use std::alloc::Global;
use std::io::{Read, Write};

/// Serves one connection until its reader has no more or a reply ends it. The reader of one that gives way
/// has no more.
///
/// # Errors
///
/// Why not all was said that is to be said. What was open is cancelled then, so the seat is idle for the
/// next one.
pub fn attend<I: Read, O: Write, D: Door>(
    alloc: Global,
    seat: u16,
    base: &str,
    piece: u32,
    reader: &mut I,
    writer: &mut O,
    door: &mut D,
) -> Result<(), ServeFault>
    requires { is_base base.now ≡ true }
    ensures served { Attends (record { base = base.now; piece = piece }) D.Gives seat
        (I.remaining reader.old) (I.remaining reader.new) (O.contents writer.old) (O.contents writer.new)
        door.old door.new }
    ensures whole { OnOk result (Connection D.Gives seat
        (I.remaining reader.old) (I.remaining reader.new) (O.contents writer.old) (O.contents writer.new)
        door.old door.new (IsFinished (record { base = base.now; piece = piece }) (I.remaining reader.new))) }
{
    serve(alloc, seat, base, piece, reader, writer, door)
}
