//! A conversation that is held, and how it ended.
use crate::cases::Case;
use crate::clients::Client;
use crate::manners::Manner;
use crate::probes::{BASE, Probe, State, new_store};
use crate::receivers::Receiver;
use gs_core::Refusal;
use gs_session::{ServeFault, serve};
use std::alloc::Global;
use std::cell::Cell;

/// How a conversation ended.
#[derive(Drop)]
pub struct Ending {
    pub result: Result<(), ServeFault>,
    /// A read has failed.
    pub has_failed: bool,
    /// How many bytes of the input have come.
    pub sent: usize,
    pub written: Vec<u8>,
    /// How many writes there were.
    pub writes: usize,
    /// How many of these bytes were flushed.
    pub flushed: usize,
    /// What is seen of the store, if its seat is idle.
    pub state: Option<State>,
}

/// Holds a conversation over a store of its own, with a line a piece in reads.
pub fn hold(
    alloc: Global,
    probe: &Probe,
    case: &Case<'_>,
    manner: Manner,
) -> Result<Ending, Refusal> {
    let mut store = new_store(alloc, case.numbers)?;
    let flushed = Cell::new(0usize);
    let mut client = Client::new(case, manner, &flushed);
    let mut receiver = Receiver::new(alloc, manner, &flushed);
    let result = serve(alloc, 0, BASE, 1, &mut client, &mut receiver, &mut store);
    let state = probe.state_of(&mut store);
    Ok(Ending {
        result,
        has_failed: client.has_failed,
        sent: client.sent,
        written: receiver.bytes,
        writes: receiver.writes,
        flushed: flushed.get(),
        state,
    })
}
