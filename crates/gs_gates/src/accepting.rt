//! The accept loop.
ghost use Rattle.std.specs.Prelude.{◌≡◌, ◌-◌, ◌^◌, MatchOption};

use crate::gates::{Failure, Gate};
use crate::limits::accept_pause;
use crossbeam_channel::Sender;
use std::net::{OpenListener, TcpStream};
use std::sync::Wait;
use std::thread;
use std::time::Clock;

/// How many times is accepted: as often as the limit says; with none as often as can be counted.
fn accepts(limit: Option<u64>) -> u64
    ensures { MatchOption limit (result ≡ 2 ^ 64 - 1) (λ n. result ≡ n) }
{
    limit.unwrap_or(u64::MAX)
}

/// Accepts so many times, and hands each connection to the workers. An accept that failed counts, the gate
/// is told of it, and a rest follows, so that where none can be had the loop does not use up a processor. It waits while
/// all workers are busy and enough connections wait. One that no worker can take is dropped.
pub fn accept_all<L: OpenListener<Stream = TcpStream>, G: Gate, R: Wait + Clock>(
    rt: &R,
    listener: &L,
    limit: Option<u64>,
    gate: &G,
    to_workers: Sender<TcpStream>,
) {
    for _ in 0..accepts(limit) {
        match listener.accept() {
            Ok((stream, _)) => {
                let _ = to_workers.send(rt, stream);
            }
            Err(_) => {
                gate.failed(Failure::Accept);
                thread::sleep(rt, accept_pause());
            }
        }
    }
}
