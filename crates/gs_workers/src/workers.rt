//! A worker: it serves one connection after the other, through its own pass.
ghost use Rattle.std.specs.Prelude.{ℕ};
ghost use Rattle.gs_workers.specs.Attends.{ServesOne, ServesMany};
ghost use Rattle.gs_workers.specs.Served.{ServedOn};

use crate::attending::attend;
use crate::lines::Line;
use crate::plans::ServicePlan;
use crate::queues::{Queue, Waiting};
use crate::states::State;
use crate::ways::{Way, read_wait};
use crossbeam_channel::Sender;
use gs_door::Door;
use gs_gates::{Failure, Gate, GateDoor, Note, NoteDoor, TurnDoor, linger};
use gs_session::ServeFault;
use gs_shared::{Pass, PassDoor, Room, SharedStore};
use std::io;
use std::net::TcpStream;
use std::sync::ledger::Ledger;
use std::sync::{Mutex, Wait};
use std::time::{Clock, Duration, Instant};

/// Gives a connection its limits: a read of the system waits for a second at most, since others that wait
/// are looked for then. Small replies go out at once.
pub fn limit_waits(stream: &TcpStream, patience: Duration) -> io::Result<()> {
    stream.set_nodelay(true)?;
    stream.set_read_timeout(Some(read_wait(patience)))?;
    stream.set_write_timeout(Some(patience))
}

/// Serves one connection while it may be served, and says why not all was said then that is to be said.
fn serve_line<'x, D: Door, K: Clock>(
    clock: &'x K,
    plan: ServicePlan<'_>,
    seat: u16,
    stream: &'x TcpStream,
    others: &'x Queue,
    state: &'x State,
    door: &mut D,
) -> Result<(), ServeFault>
    ensures { ServesOne (record { base = plan.entry.base.now; piece = plan.entry.piece })
        D.Gives seat door.old door.new }
{
    let (patience, whole) = (plan.patience, plan.whole);
    let mut reader = Line {
        clock,
        stream,
        others,
        state,
        patience,
        whole,
    };
    let mut writer = Line {
        clock,
        stream,
        others,
        state,
        patience,
        whole,
    };
    attend(
        plan.alloc,
        seat,
        plan.base,
        plan.piece,
        &mut reader,
        &mut writer,
        door,
    )
}

/// Tells the gate of a connection that was served so, where memory was wanting.
fn tell<G: Gate>(gate: &G, served: Result<(), ServeFault>, state: &State) {
    if state.is_refused.get() {
        gate.failed(Failure::Request);
    } else if matches!(served, Err(ServeFault::NoMemory)) {
        gate.failed(Failure::Connection);
    }
}

/// Serves one connection, and lets its client hear the end. One that takes no limits is dropped
/// unserved. One that gives way between two requests comes back. The gate is told what failed.
fn serve_stream<D: Door, G: Gate, K: Clock>(
    clock: &K,
    plan: ServicePlan<'_>,
    seat: u16,
    waiting: Waiting,
    others: &Queue,
    gate: &G,
    door: &mut D,
) -> Option<Waiting>
    ensures { (n : ℕ) × ServesMany (record { base = plan.entry.base.now; piece = plan.entry.piece })
        D.Gives seat n door.old door.new }
{
    let Waiting { stream, since } = waiting;
    if limit_waits(&stream, plan.patience).is_err() {
        gate.failed(Failure::Connection);
        return None;
    }
    let state = State::new(clock, since, plan.patience);
    let served = serve_line(clock, plan, seat, &stream, others, &state, door);
    tell(gate, served, &state);
    if served.is_err() {
        return None;
    }
    let since = state.idle_since();
    match state.way() {
        Way::Over => {
            let _ = linger(clock, &stream, plan.patience, others);
            None
        }
        Way::Waits => Some(Waiting { stream, since }),
        Way::Idle => None,
    }
}

/// Serves each connection that comes, until no more can come.
pub(crate) fn serve_streams<D: Door, G: Gate, R: Wait + Clock>(
    rt: &R,
    plan: ServicePlan<'_>,
    seat: u16,
    queue: Queue,
    gate: &G,
    door: &mut D,
)
    ensures { (n : ℕ) × ServesMany (record { base = plan.entry.base.now; piece = plan.entry.piece })
        D.Gives seat n door.old door.new }
{
    let mut is_for_accepted = true;
    for _ in rt.forever() {
        let Some(waiting) = queue.take(rt, plan.patience, is_for_accepted) else {
            break;
        };
        is_for_accepted = !is_for_accepted;
        if let Some(back) = serve_stream(rt, plan, seat, waiting, &queue, gate, door) {
            queue.keep(rt, back, plan.patience);
            is_for_accepted = false;
        }
    }
}

/// The whole run of a worker: its pass comes back. The turn is that of the long reads of all workers.
pub fn work<C: Ledger, T: Ledger, B: Room, G: Gate, R: Wait + Clock>(
    rt: &R,
    plan: ServicePlan<'_>,
    store: &SharedStore<C, T, B>,
    gate: &G,
    turn: &Mutex<()>,
    queue: Queue,
    notes: Sender<Note>,
    pass: Pass<C, T, B>,
) -> Pass<C, T, B>
    ensures served { ServedOn (record { base = plan.entry.base.now; piece = plan.entry.piece })
        pass.record result.record }
{
    let seat = pass.seat();
    let mut door = NoteDoor {
        rt,
        notes,
        door: GateDoor {
            gate,
            seat,
            door: TurnDoor {
                rt,
                turn,
                is_reading: false,
                door: PassDoor::new(rt, store, pass),
            },
        },
    };
    serve_streams(rt, plan, seat, queue, gate, &mut door);
    let NoteDoor {
        rt: _,
        notes: _,
        door,
    } = door;
    let GateDoor {
        gate: _,
        seat: _,
        door,
    } = door;
    let TurnDoor {
        rt: _,
        turn: _,
        is_reading: _,
        door,
    } = door;
    door.into_pass()
}
