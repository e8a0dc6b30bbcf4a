//! Each case, played in each way.
use crate::cases::{Case, When};
use crate::findings::Finding;
use crate::plays::{Ending, Insertion, Place, play_with};
use crate::rounds::{Manner, Order, Talks, connection_of};
use crate::shows::show_case;
use gs_world::WorldStep;
use std::alloc::AllocError;
use std::io::{self, Write};

/// In which way a case was played.
#[derive(Clone, Copy, Drop)]
enum Way {
    AsItStands,
    /// With the step of this number put in.
    Inserted(usize, Place),
    Held(Manner),
}

/// What was found, and in which way the case was played.
#[derive(Drop)]
struct Wrong {
    way: Way,
    finding: Finding,
}

/// What was found where the case was played in this way.
fn in_way(way: Way, found: Result<(), Finding>) -> Result<(), Wrong> {
    match found {
        Ok(()) => Ok(()),
        Err(finding) => Err(Wrong { way, finding }),
    }
}

/// What is to be seen of a change.
#[derive(Clone, Copy, Drop, PartialEq)]
enum Wanted {
    Change,
    NoChange,
    Either,
}

/// Whether a change is to be seen that is not, or is seen and is not to be.
fn judge(ending: Ending, wanted: Wanted) -> Result<(), Finding> {
    if wanted == Wanted::Change && !ending.is_changed {
        return Err(Finding::NoChange);
    }
    if wanted == Wanted::NoChange && !ending.is_unchanged {
        return Err(Finding::Change);
    }
    Ok(())
}

/// Plays a case as it stands.
fn check_as_it_stands(case: &Case<'_>) -> Result<(), Finding> {
    let insertion = Insertion {
        steps: &[],
        place: Place::Nowhere,
        broken: None,
        is_drop: false,
    };
    judge(play_with(case, insertion)?, Wanted::Change)
}

/// The trial of one step that is put after each of the others.
#[derive(Drop)]
struct Trial<'a> {
    case: &'a Case<'a>,
    /// The number of the step that is put in.
    number: usize,
    /// The change was made with the step at an earlier place.
    was_changed: bool,
}

impl<'a> Trial<'a> {
    fn steps(&self) -> &'a [WorldStep] {
        let end = self.number.saturating_add(1);
        let steps = self.case.insertions.get(self.number..end);
        steps.unwrap_or_default()
    }

    /// Whether the connection is given bytes after so many steps.
    fn is_given_later(&self, connection: u16, steps: usize) -> bool {
        for step in self.case.steps.get(steps..).unwrap_or_default() {
            if let WorldStep::Bytes(number, _) = step {
                if *number == connection {
                    return true;
                }
            }
        }
        false
    }

    /// What is put in after so many steps.
    fn insertion(&self, steps: usize) -> Insertion<'a> {
        let mut broken = None;
        let mut is_drop = false;
        for step in self.steps() {
            let Some(connection) = connection_of(step) else {
                continue;
            };
            if self.case.connections <= connection {
                continue;
            }
            is_drop = matches!(step, WorldStep::Drop(_));
            let is_end = matches!(step, WorldStep::End(_));
            if is_drop || is_end && self.is_given_later(connection, steps) {
                broken = Some(connection);
            }
        }
        Insertion {
            steps: self.steps(),
            place: Place::After(steps),
            broken,
            is_drop,
        }
    }

    /// What is to be seen with the step put in after so many steps.
    fn wanted(&self, insertion: Insertion<'a>, steps: usize) -> Wanted {
        match (self.case.change, insertion.broken) {
            (Some(change), Some(connection)) if change.connection == connection => {
                if steps <= change.steps {
                    Wanted::NoChange
                } else if self.was_changed {
                    Wanted::Change
                } else {
                    Wanted::Either
                }
            }
            _ => Wanted::Change,
        }
    }

    /// Puts the step in after so many steps.
    fn check_at(&mut self, steps: usize) -> Result<(), Finding> {
        let insertion = self.insertion(steps);
        let wanted = self.wanted(insertion, steps);
        let ending = play_with(self.case, insertion)?;
        judge(ending, wanted)?;
        if wanted == Wanted::Either {
            if ending.is_whole {
                judge(ending, Wanted::Change)?;
            }
            self.was_changed = ending.is_changed;
        }
        Ok(())
    }

    /// Puts the step in everywhere at once, if it breaks nothing off.
    fn check_everywhere(&self) -> Result<(), Finding> {
        let mut insertion = self.insertion(0);
        if insertion.is_drop || insertion.broken.is_some() {
            return Ok(());
        }
        insertion.place = Place::Everywhere;
        judge(play_with(self.case, insertion)?, Wanted::Change)
    }
}

/// Plays a schedule with the step of this number put in, at each place and everywhere.
fn check_insertion(case: &Case<'_>, number: usize) -> Result<(), Wrong> {
    let mut trial = Trial {
        case: &*case,
        number,
        was_changed: false,
    };
    for steps in 0..=case.steps.len() {
        let way = Way::Inserted(number, Place::After(steps));
        in_way(way, trial.check_at(steps))?;
    }
    let way = Way::Inserted(number, Place::Everywhere);
    in_way(way, trial.check_everywhere())
}

/// Plays a schedule as it stands, and with each of the steps that are put in.
fn check_schedule(case: &Case<'_>) -> Result<(), Wrong> {
    in_way(Way::AsItStands, check_as_it_stands(case))?;
    for number in 0..case.insertions.len() {
        check_insertion(case, number)?;
    }
    Ok(())
}

/// Holds conversations in this manner.
fn check_manner(talks: &Talks<'_>, manner: Manner) -> Result<(), Wrong> {
    in_way(Way::Held(manner), talks.hold(manner))
}

/// Holds these conversations in each manner.
fn check_talks(case: &Case<'_>, talks: &Talks<'_>) -> Result<(), Wrong> {
    for connection in 0..case.connections {
        check_manner(talks, Manner::Alone(connection))?;
    }
    for size in talks.sizes() {
        for order in [Order::Forwards, Order::Backwards, Order::Rotating] {
            check_manner(talks, Manner::Together(size, order))?;
        }
    }
    Ok(())
}

/// Holds conversations side by side in each manner, and then each alone.
fn check_side_by_side(case: &Case<'_>) -> Result<(), Wrong> {
    match Talks::new(case) {
        Ok(talks) => check_talks(case, &talks),
        Err(error) => in_way(Way::AsItStands, Err(Finding::from(error))),
    }
}

/// Whether what is said is said of connections that are there.
fn check_connections(case: &Case<'_>) -> Result<(), Finding> {
    for saying in &case.sayings {
        if case.connections <= saying.connection {
            return Err(Finding::NoConnection(saying.connection));
        }
    }
    match case.change {
        Some(change) if case.connections <= change.connection => {
            Err(Finding::NoConnection(change.connection))
        }
        _ => Ok(()),
    }
}

/// Whether all that is said is asked: a step that is put in and a change are asked in schedules alone,
/// and nothing that is written where it is only shown.
fn check_kind(case: &Case<'_>) -> Result<(), Finding> {
    if !case.is_side_by_side && !case.is_shown {
        return Ok(());
    }
    if case.is_side_by_side && case.is_shown {
        return Err(Finding::NotAsked);
    }
    if case.change.is_some() || !case.insertions.is_empty() {
        return Err(Finding::NotAsked);
    }
    for saying in &case.sayings {
        if case.is_shown || saying.when != When::Always {
            return Err(Finding::NotAsked);
        }
    }
    Ok(())
}

/// Whether all that is said is asked, of connections that are there.
fn check_lines(case: &Case<'_>) -> Result<(), Finding> {
    check_kind(case)?;
    check_connections(case)
}

/// Plays a case in each way, if it is not only shown.
fn check_case(case: &Case<'_>) -> Result<(), Wrong> {
    in_way(Way::AsItStands, check_lines(case))?;
    if case.is_shown {
        return Ok(());
    }
    if case.is_side_by_side {
        check_side_by_side(case)
    } else {
        check_schedule(case)
    }
}

/// Prints in which way a case was played.
fn report_way<W: Write>(case: &Case<'_>, way: Way, out: &mut W) -> io::Result<()> {
    match way {
        Way::AsItStands => Ok(()),
        Way::Held(manner) => write!(out, "{manner:?}: "),
        Way::Inserted(number, place) => match case.insertions.get(number) {
            Some(step) => write!(out, "{step:?}, {place:?}: "),
            None => Ok(()),
        },
    }
}

/// Plays a case in each way, and prints the first in which it does not go as it says.
pub fn try_case<W: Write>(case: &Case<'_>, out: &mut W) -> io::Result<()> {
    if let Some(line) = case.bad_line {
        return writeln!(out, "{}: no line of a case: {line}", case.name);
    }
    match check_case(case) {
        Ok(()) if case.is_shown => show_case(case, out),
        Ok(()) => Ok(()),
        Err(wrong) => {
            write!(out, "{}: ", case.name)?;
            report_way(case, wrong.way, out)?;
            wrong.finding.report(out)
        }
    }
}
