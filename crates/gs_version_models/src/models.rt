//! The plain model of a store: graphs as sets, seats, and versions that ended.
use crate::books::Books;
use crate::outcomes::{Outcome, Said};
use crate::phases::{Phase, Read, Turn, Upload};
use crate::rules::Lie;
use crate::versions::{Pins, SEATS};
use gs_drawn_events::{Ask, Place};
use gs_event::Limits;
use gs_graph_models::Set;
use gs_model::Refusal;
use std::alloc::{AllocError, Global};

/// The model.
#[derive(Drop)]
pub struct Model {
    books: Books,
    phases: [Phase; SEATS],
}

impl Model {
    /// A store without graphs, whose last commit has this number.
    pub fn new(alloc: Global, start: u64, most: Limits, lie: Lie) -> Model {
        Model {
            books: Books::new(alloc, start, most, lie),
            phases: [Phase::Idle; SEATS],
        }
    }

    /// What a seat is doing. A seat that is not there does nothing.
    pub fn phase(&self, seat: u16) -> Phase {
        match self.phases.get(usize::from(seat)) {
            Some(phase) => *phase,
            None => Phase::Idle,
        }
    }

    /// The names that the store made up, and whose graphs are there.
    pub fn made(&self, alloc: Global) -> Result<Vec<Place>, AllocError> {
        self.books.graphs.made(alloc)
    }

    /// The number of the last commit.
    pub fn commit(&self) -> u64 {
        self.books.commit
    }

    /// How many triples all graphs have.
    pub fn triples(&self) -> u64 {
        self.books.graphs.count()
    }

    /// How many nodes and records the graphs and all seats have: a node for each triple of a graph and of an
    /// open upload, and the records of graphs and of open uploads and patches.
    pub fn nodes(&self) -> u64 {
        let mut nodes = self.triples().saturating_add(self.books.graphs.records());
        for phase in &self.phases {
            nodes = nodes.saturating_add(phase.held());
        }
        nodes
    }

    /// The pins of all reads.
    pub fn pins(&self) -> Pins {
        let mut pins = [None; SEATS];
        for (pin, phase) in pins.iter_mut().zip(self.phases.iter()) {
            if let Phase::Reading(read) = phase
                && self.books.needs_versions(read)
            {
                *pin = Some(read.pin);
            }
        }
        pins
    }

    /// Whether there is a read.
    pub fn has_pin(&self) -> bool {
        self.phases
            .iter()
            .any(|phase| matches!(phase, Phase::Reading(_)))
    }

    /// Whether a seat's read has other lines than its graph has now, or than all have.
    pub fn is_stale(&self, seat: u16) -> bool {
        match self.phase(seat) {
            Phase::Reading(read) => self.books.is_stale(&read),
            _ => false,
        }
    }

    /// How many nodes and records a Reclaim of so many frees, where each commit gives a graph a tree of its
    /// own.
    pub fn reclaim(&mut self, most: u64) -> u64 {
        let pins = self.pins();
        self.books.free(most, &pins)
    }

    /// What a seat that is asked this answers.
    pub fn step(&mut self, seat: u16, ask: &Ask) -> Result<Outcome, AllocError> {
        let place = usize::from(seat);
        let Some(phase) = self.phases.get(place).copied() else {
            return Ok(Outcome::refused(Refusal::BadSeat));
        };
        let turn = match phase {
            Phase::Idle => self.begin(ask)?,
            Phase::Writing(upload) => self.write(upload, ask)?,
            Phase::Patching(target, since) => self.patch(target, since, ask)?,
            Phase::Reading(read) => self.read(read, ask)?,
        };
        let Turn { phase, outcome } = turn;
        if let Some(held) = self.phases.get_mut(place) {
            *held = phase;
        }
        Ok(outcome)
    }

    /// An idle seat.
    fn begin(&mut self, ask: &Ask) -> Result<Turn, AllocError> {
        match ask {
            Ask::Open(kind, since) => {
                let request = self.books.next_request();
                let upload = Upload {
                    kind: *kind,
                    since: self.books.kept_since_of(*kind, *since),
                    request,
                    triples: Set::none(),
                };
                Ok(Turn::opened(Phase::Writing(upload), request))
            }
            Ask::OpenPatch(place, since) => {
                let request = self.books.next_request();
                let kept = self.books.kept_since(*place, *since);
                Ok(Turn::opened(Phase::Patching(*place, kept), request))
            }
            Ask::Delete(place, since) => self.books.delete(*place, *since),
            Ask::Head(scope) => Ok(self.books.head(*scope)),
            Ask::Pin(scope) => Ok(self.books.pin(*scope)),
            _ => Ok(Turn::refused(Phase::Idle)),
        }
    }

    /// A seat with an upload.
    fn write(&mut self, upload: Upload, ask: &Ask) -> Result<Turn, AllocError> {
        match ask {
            Ask::Stage(numbers) => Ok(self.books.stage(upload, numbers.as_slice())),
            Ask::Commit => self.books.commit_upload(upload),
            Ask::Cancel => Ok(self.books.cancel(upload.triples.count())),
            _ => Ok(Turn::refused(Phase::Writing(upload))),
        }
    }

    /// A seat with a patch.
    fn patch(&mut self, place: Place, since: Option<u64>, ask: &Ask) -> Result<Turn, AllocError> {
        match ask {
            Ask::Patch(edits) => self.books.commit_patch(place, since, edits.as_slice()),
            Ask::Cancel => Ok(self.books.cancel(0)),
            _ => Ok(Turn::refused(Phase::Patching(place, since))),
        }
    }

    /// A seat with a read.
    fn read(&self, read: Read, ask: &Ask) -> Result<Turn, AllocError> {
        match ask {
            Ask::Piece(0) => Ok(Turn::refused(Phase::Reading(read))),
            Ask::Piece(count) => self.books.piece(read, u64::from(*count)),
            Ask::Cancel => Ok(Turn::to(Phase::Idle, Said::Cancelled)),
            _ => Ok(Turn::refused(Phase::Reading(read))),
        }
    }
}
