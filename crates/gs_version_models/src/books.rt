//! What events do to graphs and versions.
use crate::outcomes::{Outcome, Said};
use crate::phases::{Phase, Read, Turn, Upload};
use crate::rules::Lie;
use crate::versions::{Pins, Versions};
use gs_drawn_events::{Edit, Kind, Place, Scope};
use gs_event::Limits;
use gs_graph_models::{Cut, Graphs, Set, edited};
use std::alloc::{AllocError, Global};

/// Graphs, versions that ended, and numbers of requests and commits.
#[derive(Drop)]
pub struct Books {
    alloc: Global,
    lie: Lie,
    most: Limits,
    request: u64,
    /// The number of the last commit, and of that before the first.
    pub commit: u64,
    start: u64,
    pub graphs: Graphs,
    versions: Versions,
}

impl Books {
    /// Those of a store without graphs, whose last commit has this number.
    pub fn new(alloc: Global, start: u64, most: Limits, lie: Lie) -> Books {
        Books {
            alloc,
            lie,
            most,
            request: 0,
            commit: start,
            start,
            graphs: Graphs::new(alloc, start, lie == Lie::BareNames),
            versions: Versions::new(alloc),
        }
    }

    /// How many nodes and records a Reclaim of so many frees under these pins.
    pub fn free(&mut self, most: u64, pins: &Pins) -> u64 {
        self.versions.free(most, pins, self.lie)
    }

    /// An upload of so many nodes, or a patch, is given up.
    pub fn cancel(&mut self, nodes: u64) -> Turn {
        self.give_up(Outcome::of(Said::Cancelled), nodes)
    }

    /// An upload or a patch ends without effect: so many of its nodes and its record are of no version.
    fn give_up(&mut self, outcome: Outcome, nodes: u64) -> Turn {
        let unreached = nodes.saturating_add(1);
        self.versions.add_loose(unreached);
        Turn {
            phase: Phase::Idle,
            outcome: outcome.with_unreached(unreached),
        }
    }

    /// A write gives a graph these triples. Its record is of no version where this is the default graph and
    /// has no triple then.
    fn write(&mut self, place: Place, triples: Set, outcome: Outcome) -> Result<Turn, AllocError> {
        self.set_graph(place, Some(triples))?;
        let unused = u64::from(!self.graphs.get(place).has_record());
        self.versions.add_loose(unused);
        Ok(Turn {
            phase: Phase::Idle,
            outcome: outcome.with_unreached(unused),
        })
    }

    /// The number of the next request.
    pub fn next_request(&mut self) -> u64 {
        self.request = self.request.saturating_add(1);
        self.request
    }

    /// The number of the next commit.
    fn next_commit(&self) -> u64 {
        self.commit.saturating_add(1)
    }

    /// A status that is said with the number of the last commit.
    fn said(&self, status: u16) -> Said {
        Said::Status(status, self.commit)
    }

    /// The status of a write, with the number of its own commit where it takes effect.
    fn said_of_write(&self, status: u16) -> Said {
        if status == 507 {
            return self.said(status);
        }
        Said::Status(status, self.next_commit())
    }

    /// The commit number of the last write on a graph.
    fn last_write(&self, place: Place) -> u64 {
        if self.lie == Lie::DeletesForgotten && self.graphs.triples(place).is_none() {
            return self.start;
        }
        self.graphs.last_write(place)
    }

    /// Whether a write comes too late: its graph was written since the commit of this number.
    fn is_late(&self, place: Place, since: Option<u64>) -> bool {
        match since {
            None => false,
            Some(commit) => self.lie != Lie::NeverLate && commit < self.last_write(place),
        }
    }

    /// The condition that is asked at the commit.
    pub fn kept_since(&self, place: Place, since: Option<u64>) -> Option<u64> {
        if self.lie == Lie::LateByOpen && !self.is_late(place, since) {
            return None;
        }
        since
    }

    /// The same of an upload: that of a new graph has none.
    pub fn kept_since_of(&self, kind: Kind, since: Option<u64>) -> Option<u64> {
        match kind {
            Kind::Put(place) | Kind::Post(place) => self.kept_since(place, since),
            Kind::New => None,
        }
    }

    /// A write comes too late, which changes nothing.
    fn late(&mut self, place: Place) -> Outcome {
        if self.lie == Lie::LateCounts {
            self.commit = self.commit.saturating_add(1);
        }
        Outcome::of(Said::Status(412, self.last_write(place)))
    }

    /// Whether there is such a graph. All graphs together are always there.
    fn is_there(&self, scope: Scope) -> bool {
        match scope {
            Scope::One(place) => self.graphs.triples(place).is_some(),
            Scope::All => true,
        }
    }

    /// A question is asked.
    pub fn head(&self, scope: Scope) -> Turn {
        let status = if self.is_there(scope) { 200 } else { 404 };
        Turn::to(Phase::Idle, self.said(status))
    }

    /// A read begins.
    pub fn pin(&self, scope: Scope) -> Turn {
        if !self.is_there(scope) {
            return Turn::to(Phase::Idle, Said::Pinned(404, self.commit));
        }
        let read = Read {
            scope,
            given: 0,
            pin: self.commit,
        };
        Turn::to(Phase::Reading(read), Said::Pinned(200, self.commit))
    }

    /// Whether a read needs the versions at its pin.
    pub fn needs_versions(&self, read: &Read) -> bool {
        self.lie != Lie::AllNeedNothing || !matches!(read.scope, Scope::All)
    }

    /// Whether what a read is about is otherwise now than at its pin.
    pub fn is_stale(&self, read: &Read) -> bool {
        match read.scope {
            Scope::One(place) => {
                self.graphs.triples(place) != self.graphs.triples_at(place, read.pin)
            }
            Scope::All => !self.graphs.are_as_at(read.pin),
        }
    }

    /// A graph is taken away.
    pub fn delete(&mut self, place: Place, since: Option<u64>) -> Result<Turn, AllocError> {
        if self.graphs.triples(place).is_none() {
            return Ok(Turn::to(Phase::Idle, self.said(404)));
        }
        if self.is_late(place, since) {
            let outcome = self.late(place);
            return Ok(Turn {
                phase: Phase::Idle,
                outcome,
            });
        }
        self.end_version(place)?;
        let left = match place {
            Place::Default => Some(Set::none()),
            _ => None,
        };
        self.set_graph(place, left)?;
        Ok(Turn::to(Phase::Idle, self.said(204)))
    }

    /// Triples are staged.
    pub fn stage(&self, upload: Upload, numbers: &[usize]) -> Turn {
        let mut more = upload;
        more.triples = upload.triples.with(Set::of(numbers));
        let new = if self.lie == Lie::RepeatsTakeNodes {
            numbers.len() as u64
        } else {
            more.triples.count().saturating_sub(upload.triples.count())
        };
        Turn {
            phase: Phase::Writing(more),
            outcome: Outcome::staged(new),
        }
    }

    /// Gives a graph these triples, or takes it away, by the next commit.
    fn set_graph(&mut self, place: Place, triples: Option<Set>) -> Result<(), AllocError> {
        self.commit = self.next_commit();
        self.graphs.set(place, triples, self.commit)
    }

    /// The tree and the record that a graph has end by the next commit.
    fn end_version(&mut self, place: Place) -> Result<(), AllocError> {
        let graph = self.graphs.get(place);
        let Some(triples) = graph.triples else {
            return Ok(());
        };
        let death = self.next_commit();
        let records = u64::from(graph.has_record());
        let size = triples.count().saturating_add(records);
        self.versions.end(graph.birth, death, size)
    }

    /// The status of a write that gives a graph these triples, and makes it where there is none.
    fn status(&self, place: Place, triples: Set) -> u16 {
        let old = self.graphs.triples(place);
        let others = match old {
            None => self.graphs.count(),
            Some(replaced) => self.graphs.count().saturating_sub(replaced.count()),
        };
        let new_names = u64::from(old.is_none());
        if self.most.triples < others.saturating_add(triples.count())
            || self.most.names < self.graphs.names().saturating_add(new_names)
        {
            return 507;
        }
        if old.is_some() { 204 } else { 201 }
    }

    /// An upload is committed.
    pub fn commit_upload(&mut self, upload: Upload) -> Result<Turn, AllocError> {
        match upload.kind {
            Kind::Put(place) | Kind::Post(place) if self.is_late(place, upload.since) => {
                Ok(self.late_upload(place, upload))
            }
            Kind::Put(place) => self.commit_put(place, upload.triples),
            Kind::Post(place) => self.commit_post(place, upload.triples),
            Kind::New => self.commit_new(upload),
        }
    }

    /// An upload comes too late, and is given up.
    fn late_upload(&mut self, place: Place, upload: Upload) -> Turn {
        let outcome = self.late(place);
        self.give_up(outcome, upload.triples.count())
    }

    fn commit_put(&mut self, place: Place, triples: Set) -> Result<Turn, AllocError> {
        let status = self.status(place, triples);
        let outcome = Outcome::of(self.said_of_write(status));
        if status == 507 {
            return Ok(self.give_up(outcome, triples.count()));
        }
        if self.lie != Lie::PutLosesTree {
            self.end_version(place)?;
        }
        self.write(place, triples, outcome)
    }

    fn commit_post(&mut self, place: Place, triples: Set) -> Result<Turn, AllocError> {
        let old = self.graphs.triples(place).unwrap_or(Set::none());
        let both = old.with(triples);
        let status = self.status(place, both);
        let said = self.said_of_write(status);
        if status == 507 {
            let outcome = Outcome::given_back(said, triples.count());
            return Ok(self.give_up(outcome, 0));
        }
        let new = both.count().saturating_sub(old.count());
        let outcome = Outcome::exchanged(said, triples.count(), new);
        self.write(place, both, outcome)
    }

    /// The least number whose name for this request is free.
    fn free_number(&self, request: u64) -> u64 {
        let mut number = 0u64;
        for _ in 0..=self.graphs.names() {
            if self.graphs.triples(Place::Made(request, number)).is_some() {
                number = number.saturating_add(1);
            }
        }
        number
    }

    fn commit_new(&mut self, upload: Upload) -> Result<Turn, AllocError> {
        let number = self.free_number(upload.request);
        let place = Place::Made(upload.request, number);
        let staged = upload.triples.count();
        if self.status(place, upload.triples) == 507 {
            return Ok(self.give_up(Outcome::of(self.said(507)), staged));
        }
        let said = Said::Made(upload.request, number, self.next_commit());
        let outcome = Outcome::after_change(said, staged);
        self.write(place, upload.triples, outcome)
    }

    /// Operations are done on a graph.
    pub fn commit_patch(
        &mut self,
        place: Place,
        since: Option<u64>,
        edits: &[Edit],
    ) -> Result<Turn, AllocError> {
        let Some(mut triples) = self.graphs.triples(place) else {
            return Ok(self.give_up(Outcome::of(self.said(404)), 0));
        };
        if self.is_late(place, since) {
            let outcome = self.late(place);
            return Ok(self.give_up(outcome, 0));
        }
        let mut changed = 0u64;
        for edit in edits {
            let after = edited(triples, edit);
            let came = after.without(triples).count();
            let went = triples.without(after).count();
            changed = changed.saturating_add(came).saturating_add(went);
            triples = after;
        }
        if self.status(place, triples) == 507 {
            return Ok(self.give_up(Outcome::of(self.said(507)), 0));
        }
        let outcome = Outcome::after_change(self.said_of_write(204), changed);
        self.write(place, triples, outcome)
    }

    /// A read is given so many lines.
    pub fn piece(&self, read: Read, count: u64) -> Result<Turn, AllocError> {
        match read.scope {
            Scope::One(place) => Ok(self.piece_of_one(read, place, count)),
            Scope::All => self.piece_of_all(read, count),
        }
    }

    /// The same of one graph.
    fn piece_of_one(&self, read: Read, place: Place, count: u64) -> Turn {
        let pinned = self.graphs.triples_at(place, read.pin);
        let triples = pinned.unwrap_or(Set::none());
        let told = if self.lie == Lie::ReadsMoveOn {
            self.graphs.triples(place).unwrap_or(triples)
        } else {
            triples
        };
        let left = told.after(read.given);
        let is_end = left.count() <= count;
        let said = Said::Lines(left.first(count), is_end);
        Turn::to(Books::reading_on(read, count, is_end), said)
    }

    /// The same of all graphs.
    fn piece_of_all(&self, read: Read, count: u64) -> Result<Turn, AllocError> {
        let commit = if self.lie == Lie::ReadsMoveOn {
            self.commit
        } else {
            read.pin
        };
        let sections = self.graphs.sections_at(commit)?;
        let Cut { sections, is_end } = Cut::of(self.alloc, sections.as_slice(), read.given, count)?;
        let phase = Books::reading_on(read, count, is_end);
        Ok(Turn::to(phase, Said::Quads(sections, is_end)))
    }

    /// What a seat does once its read was given so many lines more, which may be the last.
    fn reading_on(read: Read, count: u64, is_end: bool) -> Phase {
        if is_end {
            return Phase::Idle;
        }
        let mut more = read;
        more.given = read.given.saturating_add(count);
        Phase::Reading(more)
    }
}
