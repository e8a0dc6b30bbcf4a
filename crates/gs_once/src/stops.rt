//! What is said where a run does not end well, and its status.
ghost use Rattle.std.specs.Prelude.{◌≡◌};
ghost use Rattle.gs_once.specs.Stops.{AppendsFront, said_line, exit_status};

use gs_arguments::Stop;
use gs_session::write_text;
use std::io::Write;

fn line(stop: Stop) -> &'static str
    ensures { result.now ≡ said_line stop }
{
    match stop {
        Stop::BadArguments => "gsd: bad arguments\n",
        Stop::CannotListen => "gsd: cannot listen\n",
        Stop::NoMemory => "gsd: no memory\n",
        Stop::ReadFailed => "gsd: read failed\n",
        Stop::WriteFailed => "gsd: write failed\n",
    }
}

fn status(stop: Stop) -> u8
    ensures { result ≡ exit_status stop }
{
    match stop {
        Stop::ReadFailed | Stop::WriteFailed => 1,
        Stop::BadArguments => 2,
        Stop::CannotListen => 3,
        Stop::NoMemory => 4,
    }
}

/// Says on `err` why a run ends, and gives its status. Where that cannot be written, or not whole,
/// the status is the same: nothing is left on which it could be said.
pub fn report<E: Write>(err: &mut E, stop: Stop) -> u8
    ensures status { result ≡ exit_status stop }
    ensures said { AppendsFront (E.contents err.old) (E.contents err.new) (said_line stop) }
{
    write_text(err, line(stop).as_bytes());
    status(stop)
}
