//! The channels of a server.
use crossbeam_channel::{Receiver, Sender, bounded};
use gs_gates::{Note, WAITING_NOTES, WAITING_PLACES, WAITING_STREAMS};
use gs_workers::{Queue, Waiting};
use std::alloc::Global;
use std::net::TcpStream;

/// The ends that each worker has: what brings it connections, those that gave way too, and its notes away.
#[derive(Drop)]
pub(crate) struct Ends {
    streams: Receiver<TcpStream>,
    to_places: Sender<Waiting>,
    places: Receiver<Waiting>,
    to_reclaimer: Sender<Note>,
}

impl Ends {
    /// Those of one more worker; `None` where they cannot be had.
    pub(crate) fn for_worker(&self) -> Option<(Queue, Sender<Note>)> {
        let queue = Queue {
            streams: self.streams.clone().ok()?,
            to_places: self.to_places.clone().ok()?,
            places: self.places.clone().ok()?,
        };
        let notes = self.to_reclaimer.clone().ok()?;
        Some((queue, notes))
    }
}

/// The ends of workers, that of the accept loop and that of the reclaimer; `None` where memory is wanting.
pub(crate) fn channels(alloc: Global) -> Option<(Ends, Sender<TcpStream>, Receiver<Note>)> {
    let (to_workers, streams) = bounded(alloc, WAITING_STREAMS).ok()?;
    let (to_places, places) = bounded(alloc, WAITING_PLACES).ok()?;
    let (to_reclaimer, notes) = bounded(alloc, WAITING_NOTES).ok()?;
    let ends = Ends {
        streams,
        to_places,
        places,
        to_reclaimer,
    };
    Some((ends, to_workers, notes))
}
