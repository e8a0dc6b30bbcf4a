//! What is found of a schedule.
use gs_core::Refusal;
use gs_test_texts::other_line;
use std::alloc::{AllocError, Global};
use std::io::{self, Write};

/// What is wrong.
#[derive(Clone, Copy, Drop)]
pub enum Kind {
    /// A text where none is due.
    Undue,
    OtherText,
    /// No text where one is due.
    Missing,
    /// A turn writes and changes a graph.
    ChangesAndWrites,
    /// The graphs are neither as before nor as a write that may take effect makes them.
    OtherGraphs,
    /// A connection writes that had no turn.
    Unmoved,
    /// What a connection wrote before is otherwise now.
    Rewritten,
    /// A request that came whole was not answered.
    Unanswered,
}

impl Kind {
    fn text(self) -> &'static str {
        match self {
            Kind::Undue => "a text where none is due",
            Kind::OtherText => "another text",
            Kind::Missing => "no text where one is due",
            Kind::ChangesAndWrites => "a turn that writes and changes a graph",
            Kind::OtherGraphs => "the graphs are otherwise",
            Kind::Unmoved => "a text without a turn",
            Kind::Rewritten => "what was written is otherwise",
            Kind::Unanswered => "a request without a reply",
        }
    }
}

/// What is found, at which step and of which connection.
#[derive(Drop)]
pub struct Finding {
    pub kind: Kind,
    pub step: usize,
    pub connection: u16,
    pub written: Vec<u8>,
    /// What the model says in its place.
    pub wanted: Vec<u8>,
}

impl Finding {
    /// Prints it, with the first line that is otherwise.
    pub fn print<W: Write>(&self, schedule: u64, out: &mut W) -> io::Result<()> {
        let written = self.written.as_slice();
        let wanted = self.wanted.as_slice();
        writeln!(
            out,
            "schedule {schedule}, step {}, connection {}: {}: [{}], the model says [{}]",
            self.step,
            self.connection,
            self.kind.text(),
            other_line(written, wanted),
            other_line(wanted, written),
        )
    }
}

/// Why a schedule ends early.
#[derive(Drop)]
pub enum Stop {
    NoMemory,
    Found(Finding),
}

impl From<Refusal> for Stop {
    fn from(_: Refusal) -> Stop {
        Stop::NoMemory
    }
}

impl From<AllocError> for Stop {
    fn from(_: AllocError) -> Stop {
        Stop::NoMemory
    }
}

/// A copy of bytes, for a finding.
fn copied(alloc: Global, bytes: &[u8]) -> Result<Vec<u8>, AllocError> {
    let mut copy = Vec::new(alloc);
    copy.extend_from_slice(bytes)?;
    Ok(copy)
}

/// Where a schedule stands.
#[derive(Clone, Copy, Drop)]
pub struct Moment {
    pub alloc: Global,
    pub step: usize,
    pub connection: u16,
}

impl Moment {
    /// This is found here.
    pub fn found(self, kind: Kind, written: &[u8], wanted: &[u8]) -> Stop {
        let (Ok(written), Ok(wanted)) = (copied(self.alloc, written), copied(self.alloc, wanted))
        else {
            return Stop::NoMemory;
        };
        Stop::Found(Finding {
            kind,
            step: self.step,
            connection: self.connection,
            written,
            wanted,
        })
    }
}
