//! What is found of a schedule.
use gs_model::Refusal;
use std::alloc::{AllocError, Global};
use std::io::{self, Write};

/// What is wrong.
#[derive(Clone, Copy, Drop)]
pub enum Kind {
    /// The answer is otherwise than the plain store gives it.
    PlainAnswer,
    /// The answer is otherwise than the model says.
    Answer,
    /// The triples of all graphs are otherwise in number.
    Triples,
    /// The plain store counts other nodes and records of graphs and of open uploads and patches.
    PlainNodes,
    /// There are fewer nodes and records than graphs and open uploads and patches have.
    FewNodes,
    /// Nodes and records did not grow as they may.
    Growth,
    /// A Reclaim answers something else, frees too many, or others are in use then.
    Freed,
    /// It says wrongly whether waste is left.
    Left,
    /// It leaves what it could free.
    TooFewFreed,
    /// It does not free what the versions say.
    VersionsFreed,
    /// After the last Reclaim there is waste.
    Waste,
}

impl Kind {
    fn text(self) -> &'static str {
        match self {
            Kind::PlainAnswer => "the answer is not that of the plain store",
            Kind::Answer => "the answer is otherwise",
            Kind::Triples => "other triples of graphs",
            Kind::PlainNodes => "other nodes of graphs and uploads",
            Kind::FewNodes => "fewer nodes than graphs and uploads have",
            Kind::Growth => "other nodes in use",
            Kind::Freed => "other nodes freed",
            Kind::Left => "waste is left, or none is",
            Kind::TooFewFreed => "too few nodes freed",
            Kind::VersionsFreed => "other nodes freed than versions have",
            Kind::Waste => "waste at the end",
        }
    }
}

/// What is found, at which step and seat.
#[derive(Drop)]
pub struct Finding {
    kind: Kind,
    step: usize,
    seat: u16,
    /// What was asked.
    ask: &'static str,
    got: String,
    /// What is said in its place.
    wanted: String,
}

impl Finding {
    fn print<W: Write>(&self, schedule: u64, out: &mut W) -> io::Result<()> {
        write!(
            out,
            "schedule {schedule}, step {}, seat {}, {}: {}: ",
            self.step,
            self.seat,
            self.ask,
            self.kind.text(),
        )?;
        print_line(self.got.as_str(), out)?;
        write!(out, ", to be ")?;
        print_line(self.wanted.as_str(), out)?;
        writeln!(out)
    }
}

/// Prints a text in one line.
fn print_line<W: Write>(text: &str, out: &mut W) -> io::Result<()> {
    write!(out, "[")?;
    for (number, line) in text.lines().enumerate() {
        let before = if number == 0 { "" } else { " / " };
        write!(out, "{before}{line}")?;
    }
    write!(out, "]")
}

/// Why a schedule ends early.
#[derive(Drop)]
pub enum Stop {
    NoMemory,
    Found(Finding),
}

impl Stop {
    /// Prints it, as it is of this schedule.
    pub fn print<W: Write>(&self, schedule: u64, out: &mut W) -> io::Result<()> {
        match self {
            Stop::NoMemory => writeln!(out, "schedule {schedule}: no memory"),
            Stop::Found(finding) => finding.print(schedule, out),
        }
    }
}

impl From<Refusal> for Stop {
    fn from(_: Refusal) -> Stop {
        Stop::NoMemory
    }
}

impl From<AllocError> for Stop {
    fn from(_: AllocError) -> Stop {
        Stop::NoMemory
    }
}

/// Where a schedule stands.
#[derive(Clone, Copy, Drop)]
pub struct Moment {
    pub alloc: Global,
    pub step: usize,
    pub seat: u16,
    pub ask: &'static str,
}

impl Moment {
    /// This is found here, in the place of what is wanted.
    pub fn found(self, kind: Kind, got: String, wanted: String) -> Stop {
        Stop::Found(Finding {
            kind,
            step: self.step,
            seat: self.seat,
            ask: self.ask,
            got,
            wanted,
        })
    }

    /// Two texts are to be the same.
    pub fn same_texts(self, kind: Kind, got: String, wanted: &str) -> Result<(), Stop> {
        if got.as_str() == wanted {
            return Ok(());
        }
        Err(self.other_texts(kind, got, wanted)?)
    }

    /// One text is found in the place of another.
    pub fn other_texts(self, kind: Kind, got: String, wanted: &str) -> Result<Stop, AllocError> {
        let wanted = String::from_str(self.alloc, wanted)?;
        Ok(self.found(kind, got, wanted))
    }

    /// A number is found in the place of another, before which these words stand.
    fn other_numbers(
        self,
        kind: Kind,
        got: u64,
        words: &str,
        wanted: u64,
    ) -> Result<Stop, AllocError> {
        let got = format!(in self.alloc; "{got}")?;
        let wanted = format!(in self.alloc; "{words}{wanted}")?;
        Ok(self.found(kind, got, wanted))
    }

    /// Two numbers are to be the same.
    pub fn same_numbers(self, kind: Kind, got: u64, wanted: u64) -> Result<(), Stop> {
        if got == wanted {
            return Ok(());
        }
        Err(self.other_numbers(kind, got, "", wanted)?)
    }

    /// A number is to be no more than this.
    pub fn no_more(self, kind: Kind, got: u64, most: u64) -> Result<(), Stop> {
        if got <= most {
            return Ok(());
        }
        Err(self.other_numbers(kind, got, "at most ", most)?)
    }

    /// A number is to be no less than this.
    pub fn no_less(self, kind: Kind, got: u64, least: u64) -> Result<(), Stop> {
        if least <= got {
            return Ok(());
        }
        Err(self.other_numbers(kind, got, "at least ", least)?)
    }
}
