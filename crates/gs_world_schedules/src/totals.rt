//! What was done and seen over all schedules.
use gs_drawn_requests::{Deed, Method};
use gs_world_models::{Asked, Reply};
use std::io::{self, Write};

const STATUSES: usize = 13;

/// How often a status was seen.
#[derive(Clone, Copy, Drop)]
struct Tally {
    status: u16,
    count: u64,
}

/// How many requests of each kind were answered, how many of the reads and HEADs were of all graphs, and how many of the
/// writes on condition.
#[derive(Clone, Copy, Drop)]
struct Answered {
    get: u64,
    head: u64,
    put: u64,
    post: u64,
    delete: u64,
    patch: u64,
    denied: u64,
    of_all: u64,
    on_condition: u64,
}

/// What happened once.
#[derive(Clone, Copy, Drop)]
pub enum Happening {
    /// A schedule begins.
    Schedule,
    /// A step of each kind, the last by a connection that is not there.
    Bytes,
    Turn,
    End,
    Drop,
    Reclaim,
    Absent,
    /// A turn after the steps.
    LastTurn,
    /// A turn changed a graph.
    Change,
    /// An upload was open when its connection was dropped, when its input ended, or at the end of the
    /// schedule.
    DropInUpload,
    EndInUpload,
    LastInUpload,
}

/// What was done and seen.
#[derive(Drop)]
pub struct Totals {
    schedules: u64,
    bytes: u64,
    turns: u64,
    ends: u64,
    drops: u64,
    reclaims: u64,
    absents: u64,
    last_turns: u64,
    changes: u64,
    answered: Answered,
    tallies: [Tally; STATUSES],
    drops_in_upload: u64,
    ends_in_upload: u64,
    lasts_in_upload: u64,
    spanning_reads: u64,
    stale_reads: u64,
}

fn add_one(count: &mut u64) {
    *count = count.saturating_add(1);
}

fn new_tally(status: u16) -> Tally {
    Tally { status, count: 0 }
}

fn no_answers() -> Answered {
    Answered {
        get: 0,
        head: 0,
        put: 0,
        post: 0,
        delete: 0,
        patch: 0,
        denied: 0,
        of_all: 0,
        on_condition: 0,
    }
}

impl Totals {
    /// Nothing was done.
    pub fn new() -> Totals {
        Totals {
            schedules: 0,
            bytes: 0,
            turns: 0,
            ends: 0,
            drops: 0,
            reclaims: 0,
            absents: 0,
            last_turns: 0,
            changes: 0,
            answered: no_answers(),
            tallies: [
                new_tally(100),
                new_tally(200),
                new_tally(201),
                new_tally(204),
                new_tally(400),
                new_tally(404),
                new_tally(405),
                new_tally(406),
                new_tally(412),
                new_tally(413),
                new_tally(415),
                new_tally(422),
                new_tally(501),
            ],
            drops_in_upload: 0,
            ends_in_upload: 0,
            lasts_in_upload: 0,
            spanning_reads: 0,
            stale_reads: 0,
        }
    }

    /// A text was written.
    pub fn note_reply(&mut self, reply: &Reply) {
        for tally in &mut self.tallies {
            if tally.status == reply.status {
                add_one(&mut tally.count);
            }
        }
        if reply.spans_write {
            add_one(&mut self.spanning_reads);
        }
        if reply.is_stale {
            add_one(&mut self.stale_reads);
        }
    }

    /// A request was answered.
    pub fn note_request(&mut self, asked: &Asked) {
        let request = &asked.request;
        if matches!(request.deed, Deed::Denied(_, _)) {
            add_one(&mut self.answered.denied);
            return;
        }
        if request.is_of_all {
            add_one(&mut self.answered.of_all);
        }
        if asked.since.is_some() && !matches!(request.deed, Deed::Read | Deed::Look) {
            add_one(&mut self.answered.on_condition);
        }
        match request.method {
            Method::Get => add_one(&mut self.answered.get),
            Method::Head => add_one(&mut self.answered.head),
            Method::Put => add_one(&mut self.answered.put),
            Method::Post => add_one(&mut self.answered.post),
            Method::Delete => add_one(&mut self.answered.delete),
            Method::Patch => add_one(&mut self.answered.patch),
        }
    }

    /// This happened.
    pub fn note(&mut self, happening: Happening) {
        match happening {
            Happening::Schedule => add_one(&mut self.schedules),
            Happening::Bytes => add_one(&mut self.bytes),
            Happening::Turn => add_one(&mut self.turns),
            Happening::End => add_one(&mut self.ends),
            Happening::Drop => add_one(&mut self.drops),
            Happening::Reclaim => add_one(&mut self.reclaims),
            Happening::Absent => add_one(&mut self.absents),
            Happening::LastTurn => add_one(&mut self.last_turns),
            Happening::Change => add_one(&mut self.changes),
            Happening::DropInUpload => add_one(&mut self.drops_in_upload),
            Happening::EndInUpload => add_one(&mut self.ends_in_upload),
            Happening::LastInUpload => add_one(&mut self.lasts_in_upload),
        }
    }

    fn steps(&self) -> u64 {
        self.bytes
            .saturating_add(self.turns)
            .saturating_add(self.ends)
            .saturating_add(self.drops)
            .saturating_add(self.reclaims)
            .saturating_add(self.absents)
    }

    fn print_steps<W: Write>(&self, out: &mut W) -> io::Result<()> {
        writeln!(
            out,
            "{} schedules, {} steps: bytes {}, turns {}, ends {}, drops {}, reclaims {}, of absent connections {}",
            self.schedules,
            self.steps(),
            self.bytes,
            self.turns,
            self.ends,
            self.drops,
            self.reclaims,
            self.absents,
        )?;
        writeln!(
            out,
            "turns after the steps {}, turns that changed a graph {}",
            self.last_turns, self.changes,
        )
    }

    /// Prints the totals.
    pub fn print<W: Write>(&self, out: &mut W) -> io::Result<()> {
        self.print_steps(out)?;
        let it = self.answered;
        writeln!(
            out,
            "answered: GET {}, HEAD {}, PUT {}, POST {}, DELETE {}, PATCH {}, denied by the head {}, of all graphs {}, on condition {}",
            it.get,
            it.head,
            it.put,
            it.post,
            it.delete,
            it.patch,
            it.denied,
            it.of_all,
            it.on_condition,
        )?;
        write!(out, "statuses:")?;
        for tally in &self.tallies {
            write!(out, " {} x {}", tally.status, tally.count)?;
        }
        writeln!(out)?;
        writeln!(
            out,
            "uploads cut: {} by a drop, {} by the end of the input, {} by the end of the schedule",
            self.drops_in_upload, self.ends_in_upload, self.lasts_in_upload,
        )?;
        writeln!(
            out,
            "reads that spanned a change by another connection: {}, of them {} of what is read",
            self.spanning_reads, self.stale_reads,
        )
    }
}
