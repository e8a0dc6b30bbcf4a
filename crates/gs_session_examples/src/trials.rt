//! Each conversation, held in each manner.
use crate::cases::Case;
use crate::endings::{Ending, hold};
use crate::findings::{Finding, Prospect};
use crate::manners::Manner;
use crate::probes::Probe;
use gs_core::Refusal;
use gs_test_texts::other_line;
use std::alloc::{AllocError, Global};
use std::io::{self, Write};

/// A conversation whose input is longer is not broken off.
const MAX_BROKEN_BYTES: usize = 600;

/// Why a trial ends: there is no memory, or in this manner this was found.
#[derive(Drop)]
enum Wrong {
    NoMemory,
    Found(Manner, Finding, Ending),
}

impl From<Refusal> for Wrong {
    fn from(_: Refusal) -> Wrong {
        Wrong::NoMemory
    }
}

impl From<AllocError> for Wrong {
    fn from(_: AllocError) -> Wrong {
        Wrong::NoMemory
    }
}

#[derive(Drop)]
struct Trial<'a> {
    alloc: Global,
    probe: &'a Probe,
    prospect: Prospect<'a>,
}

impl<'a> Trial<'a> {
    fn new(alloc: Global, probe: &'a Probe, case: &'a Case<'a>) -> Result<Trial<'a>, Wrong> {
        let mut trial = Trial {
            alloc,
            probe,
            prospect: Prospect {
                case,
                states: Vec::new(alloc),
            },
        };
        trial.add_state(0)?;
        for exchange in &case.exchanges {
            trial.add_state(exchange.sent)?;
        }
        trial.add_state(case.input.len())?;
        Ok(trial)
    }

    fn hold(&self, manner: Manner) -> Result<Ending, Refusal> {
        hold(self.alloc, self.probe, self.prospect.case, manner)
    }

    /// Adds the state after so many bytes of the input.
    fn add_state(&mut self, sent: usize) -> Result<(), Wrong> {
        let ending = self.hold(Manner::EndsAfter(sent))?;
        self.prospect
            .states
            .push(ending.state)
            .map_err(AllocError::from)?;
        Ok(())
    }

    /// Holds the conversation in this manner.
    fn check(&self, manner: Manner) -> Result<(), Wrong> {
        let ending = self.hold(manner)?;
        match self.prospect.found(manner, &ending) {
            Finding::Right => Ok(()),
            finding => Err(Wrong::Found(manner, finding, ending)),
        }
    }

    /// All of the input comes, and all of the output is taken.
    fn check_whole(&self) -> Result<(), Wrong> {
        self.check(Manner::Whole)?;
        for size in [1, 2, 7] {
            self.check(Manner::Pieces(size))?;
        }
        self.check(Manner::Waits)?;
        self.check(Manner::SlowWrites)?;
        self.check(Manner::Interrupted)
    }

    /// The input is broken off at each place.
    fn check_input(&self) -> Result<(), Wrong> {
        let count = self.prospect.case.input.len();
        for sent in 0..count {
            self.check(Manner::EndsAfter(sent))?;
        }
        for reads in 0..(count / 7).saturating_add(2) {
            self.check(Manner::ReadFailsAfter(reads))?;
        }
        Ok(())
    }

    /// The output is broken off at each place.
    fn check_output(&self) -> Result<(), Wrong> {
        for written in 0..self.prospect.case.output.len() {
            self.check(Manner::WriteFailsAfter(written))?;
            self.check(Manner::WriteStopsAfter(written))?;
        }
        Ok(())
    }
}

/// Holds a conversation in each manner.
fn check_case(alloc: Global, probe: &Probe, case: &Case<'_>) -> Result<(), Wrong> {
    let trial = Trial::new(alloc, probe, case)?;
    trial.check_whole()?;
    if MAX_BROKEN_BYTES < case.input.len() {
        return Ok(());
    }
    trial.check_input()?;
    trial.check_output()
}

/// Prints what was found.
fn report<W: Write>(
    case: &Case<'_>,
    finding: Finding,
    ending: &Ending,
    out: &mut W,
) -> io::Result<()> {
    let written = ending.written.as_slice();
    match finding {
        Finding::OtherResult => writeln!(out, "{:?}", ending.result),
        Finding::OtherText if case.output.starts_with(written) => {
            writeln!(out, "{} bytes of the text", written.len())
        }
        Finding::OtherText => writeln!(out, "{}", other_line(written, case.output.as_slice())),
        _ => writeln!(out, "{finding:?}"),
    }
}

/// Holds a conversation in each manner, and prints the first in which it does not end as it says.
pub fn try_case<W: Write>(
    alloc: Global,
    probe: &Probe,
    case: &Case<'_>,
    out: &mut W,
) -> io::Result<()> {
    if let Some(line) = case.bad_line {
        return writeln!(out, "{}: no line of a conversation: {line}", case.name);
    }
    match check_case(alloc, probe, case) {
        Ok(()) => Ok(()),
        Err(Wrong::NoMemory) => writeln!(out, "{}: no memory", case.name),
        Err(Wrong::Found(manner, finding, ending)) => {
            write!(out, "{}: {manner:?}: ", case.name)?;
            report(case, finding, &ending, out)
        }
    }
}
