//! Conversations that are held side by side.
use crate::cases::{Case, When};
use crate::findings::Finding;
use crate::numbers::without_numbers;
use crate::worlds::new_world;
use gs_core::Refusal;
use gs_world::{World, WorldStep};
use std::alloc::AllocError;
use std::ops::Range;

/// In which order the connections come in a round.
#[derive(Clone, Copy, Debug, Drop)]
pub enum Order {
    Forwards,
    Backwards,
    /// Each round begins with the next connection.
    Rotating,
}

/// How conversations are held.
#[derive(Clone, Copy, Debug, Drop)]
pub enum Manner {
    /// This connection is the only one.
    Alone(u16),
    /// Each connection is given so many bytes a round.
    Together(usize, Order),
}

impl Manner {
    /// Whether this connection is there.
    fn has(self, connection: u16) -> bool {
        match self {
            Manner::Alone(only) => only == connection,
            Manner::Together(_, _) => true,
        }
    }

    /// How many bytes are given in a round.
    fn piece(self) -> usize {
        match self {
            Manner::Alone(_) => usize::MAX,
            Manner::Together(size, _) => size,
        }
    }

    /// The connection at this place of a round, if there are so many.
    fn connection(self, round: usize, place: usize, count: usize) -> usize {
        match self {
            Manner::Together(_, Order::Backwards) => count.saturating_sub(place.saturating_add(1)),
            Manner::Together(_, Order::Rotating) => {
                let sum = round.saturating_add(place);
                sum.checked_rem(count).unwrap_or(0)
            }
            _ => place,
        }
    }
}

/// After all was given there are so many rounds more, and then so many after the end.
const LAST_ROUNDS: usize = 100;

const ROUNDS_AFTER_END: usize = 9;

/// Where a connection is given more, it is given more at a time, as each turn looks for the end of a
/// head.
const MAX_SMALL_PIECES_BYTES: usize = 2_000;

/// What one connection is given in the rounds, and what is written on it at the end.
#[derive(Drop)]
struct Speaker {
    input: Vec<u8>,
    output: Vec<u8>,
}

/// The conversations of a case.
#[derive(Drop)]
pub struct Talks<'a> {
    case: &'a Case<'a>,
    /// How many steps come before the rounds.
    opening: usize,
    speakers: Vec<Speaker>,
    /// The most bytes that a connection is given in the rounds.
    longest: usize,
}

/// How many steps there are up to the last turn.
fn opening_of(case: &Case<'_>) -> usize {
    let mut opening = 0usize;
    for (at, step) in case.steps.iter().enumerate() {
        if matches!(step, WorldStep::Turn(_)) {
            opening = at.saturating_add(1);
        }
    }
    opening
}

/// The connection of a step.
pub fn connection_of(step: &WorldStep) -> Option<u16> {
    match step {
        WorldStep::Bytes(connection, _)
        | WorldStep::Turn(connection)
        | WorldStep::End(connection)
        | WorldStep::Drop(connection) => Some(*connection),
        WorldStep::Reclaim(_) => None,
    }
}

impl<'a> Talks<'a> {
    /// What each connection of a case is given, and what is written on it.
    pub fn new(case: &'a Case<'a>) -> Result<Talks<'a>, AllocError> {
        let mut talks = Talks {
            case,
            opening: opening_of(case),
            speakers: Vec::new(case.alloc),
            longest: 0,
        };
        for connection in 0..case.connections {
            let speaker = talks.speaker(connection)?;
            talks.longest = talks.longest.max(speaker.input.len());
            talks.speakers.push(speaker)?;
        }
        Ok(talks)
    }

    /// What this connection is given in the rounds, and what is written on it.
    fn speaker(&self, connection: u16) -> Result<Speaker, AllocError> {
        let mut input = Vec::new(self.case.alloc);
        for step in self.case.steps.get(self.opening..).unwrap_or_default() {
            if let WorldStep::Bytes(number, bytes) = step {
                if *number == connection {
                    input.extend_from_slice(bytes.as_slice())?;
                }
            }
        }
        let mut output = Vec::new(self.case.alloc);
        for saying in &self.case.sayings {
            if saying.connection == connection && saying.when != When::Unchanged {
                output.extend_from_slice(saying.bytes.as_slice())?;
            }
        }
        Ok(Speaker { input, output })
    }

    /// Takes the steps before the rounds.
    fn open(&self, world: &mut World, manner: Manner) -> Result<(), Refusal> {
        for at in 0..self.opening {
            let step = self.case.steps.get(at..at.saturating_add(1));
            let step = step.unwrap_or_default();
            for one in step {
                match connection_of(one) {
                    Some(connection) if !manner.has(connection) => {}
                    _ => world.run(step)?,
                }
            }
        }
        Ok(())
    }

    /// Adds a round's steps of one connection.
    fn push_steps(
        &self,
        steps: &mut Vec<WorldStep>,
        manner: Manner,
        round: usize,
        connection: u16,
    ) -> Result<(), AllocError> {
        let Some(speaker) = self.speakers.get(connection as usize) else {
            return Ok(());
        };
        let start = round.saturating_mul(manner.piece());
        let left = speaker.input.get(start..).unwrap_or_default();
        let (bytes, _) = left.split_at(left.len().min(manner.piece()));
        if !bytes.is_empty() {
            let bytes = Vec::from_slice(self.case.alloc, bytes)?;
            steps.push(WorldStep::Bytes(connection, bytes))?;
        }
        steps.push(WorldStep::Turn(connection))?;
        Ok(())
    }

    /// The steps of a round: each connection is given its next bytes and takes a turn.
    fn steps_of(&self, manner: Manner, round: usize) -> Result<Vec<WorldStep>, AllocError> {
        let mut steps = Vec::new(self.case.alloc);
        let count = self.speakers.len();
        for place in 0..count {
            let number = manner.connection(round, place, count);
            let connection = u16::try_from(number).unwrap_or(u16::MAX);
            if manner.has(connection) {
                self.push_steps(&mut steps, manner, round, connection)?;
            }
        }
        Ok(steps)
    }

    /// Whether this is written where that is to be written, beside what others do, without the numbers of commits.
    fn compare_beside(
        &self,
        connection: u16,
        written: &[u8],
        output: &[u8],
    ) -> Result<(), Finding> {
        let alloc = self.case.alloc;
        let written = without_numbers(alloc, written)?;
        let output = without_numbers(alloc, output)?;
        if written.as_slice() == output.as_slice() {
            return Ok(());
        }
        Err(Finding::of_texts(alloc, connection, written.as_slice(), output.as_slice()))
    }

    /// Compares what is written with what is to be written. What is said is said of a connection that is alone.
    fn compare(&self, world: &World, manner: Manner) -> Result<(), Finding> {
        for connection in 0..self.case.connections {
            let Some(speaker) = self.speakers.get(connection as usize) else {
                continue;
            };
            if !manner.has(connection) {
                continue;
            }
            let written = world.written(connection);
            let output = speaker.output.as_slice();
            if written == output {
                continue;
            }
            if let Manner::Alone(_) = manner {
                let alloc = self.case.alloc;
                return Err(Finding::of_texts(alloc, connection, written, output));
            }
            self.compare_beside(connection, written, output)?;
        }
        Ok(())
    }

    /// The bytes that a connection is given at a time.
    pub fn sizes(&self) -> [usize; 4] {
        if MAX_SMALL_PIECES_BYTES < self.longest {
            [61, 127, 509, usize::MAX]
        } else {
            [1, 2, 7, usize::MAX]
        }
    }

    /// No more bytes come to any connection.
    fn end(&self, world: &mut World, manner: Manner) -> Result<(), Finding> {
        let mut steps = Vec::new(self.case.alloc);
        for connection in 0..self.case.connections {
            if manner.has(connection) {
                steps
                    .push(WorldStep::End(connection))
                    .map_err(AllocError::from)?;
            }
        }
        world.run(steps.as_slice())?;
        Ok(())
    }

    /// Takes these rounds.
    fn take_rounds(
        &self,
        world: &mut World,
        manner: Manner,
        rounds: Range<usize>,
    ) -> Result<(), Refusal> {
        for round in rounds {
            let steps = self.steps_of(manner, round)?;
            world.run(steps.as_slice())?;
        }
        Ok(())
    }

    /// Holds them in this manner, in a fresh world.
    fn hold_in(&self, world: &mut World, manner: Manner) -> Result<(), Finding> {
        self.open(world, manner)?;
        let given = self.longest.checked_div(manner.piece()).unwrap_or(0);
        let rounds = given.saturating_add(LAST_ROUNDS);
        self.take_rounds(world, manner, 0..rounds)?;
        self.compare(world, manner)?;
        self.end(world, manner)?;
        let after_end = rounds..rounds.saturating_add(ROUNDS_AFTER_END);
        self.take_rounds(world, manner, after_end)?;
        self.compare(world, manner)
    }

    /// Holds them in this manner.
    pub fn hold(&self, manner: Manner) -> Result<(), Finding> {
        let mut world = new_world(self.case)?;
        let held = self.hold_in(&mut world, manner);
        drop(world);
        held
    }
}
