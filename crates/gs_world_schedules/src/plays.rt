//! One schedule, drawn step by step.
use crate::conditions::Conditions;
use crate::findings::Stop;
use crate::judging::Judge;
use crate::totals::{Happening, Totals};
use crate::wires::Wire;
use gs_core::Refusal;
use gs_drawn_requests::Draws;
use gs_world::WorldStep;
use gs_world_models::{Lie, Rules};
use std::alloc::Global;

/// The steps of a schedule.
const STEPS: usize = 200;

/// The most rounds of turns after them.
const MAX_LAST_ROUNDS: usize = 400;

/// How many rounds of turns all connections have when nothing more is to be said.
const IDLE_ROUNDS: usize = 3;

const MAX_CONNECTIONS: usize = 6;

/// From this number on some requests have conditions.
const FIRST_ON_CONDITION: u64 = 501;

/// What is added to the number of a schedule for the seed of its conditions.
const SECOND: u64 = 1_000_000;

/// A schedule as it is played.
#[derive(Drop)]
struct Play {
    judge: Judge,
    draws: Draws,
    conditions: Conditions,
    wires: Vec<Wire>,
    /// A piece is all that is left at one chance of so many.
    hurry: usize,
}

fn drawn_piece(draws: &mut Draws) -> u32 {
    match draws.below(5) {
        0 | 1 => 1,
        2 => 2,
        3 => 3,
        _ => 256,
    }
}

fn drawn_count(draws: &mut Draws) -> u64 {
    match draws.below(5) {
        0 => 0,
        1 => 1,
        2 => 5,
        3 => 4_096,
        _ => u64::MAX,
    }
}

fn drawn_hurry(draws: &mut Draws) -> usize {
    match draws.below(4) {
        0 => 2,
        1 => 5,
        2 => 12,
        _ => 40,
    }
}

/// The connections beside the witness.
fn drawn_connections(draws: &mut Draws) -> u16 {
    let number = draws.below(MAX_CONNECTIONS).saturating_add(1);
    u16::try_from(number).unwrap_or(1)
}

/// The seed of the conditions of a schedule, if it has any.
fn conditions_seed(number: u64) -> Option<u64> {
    if FIRST_ON_CONDITION <= number {
        Some(number.saturating_add(SECOND))
    } else {
        None
    }
}

impl Play {
    fn new(alloc: Global, number: u64, lie: Lie) -> Result<Play, Refusal> {
        let mut draws = Draws::new(number);
        let connections = drawn_connections(&mut draws);
        let rules = Rules {
            alloc,
            piece: drawn_piece(&mut draws),
            lie,
        };
        let mut wires = Vec::new(alloc);
        for _ in 0..connections {
            wires.push(Wire::new(alloc))?;
        }
        Ok(Play {
            judge: Judge::new(rules, connections)?,
            hurry: drawn_hurry(&mut draws),
            draws,
            conditions: Conditions::new(conditions_seed(number), lie),
            wires,
        })
    }

    fn give(&mut self, connection: u16, totals: &mut Totals) -> Result<(), Stop> {
        totals.note(Happening::Bytes);
        let alloc = self.judge.rules.alloc;
        self.conditions.commit = self.judge.commit();
        let Some(wire) = self.wires.get_mut(usize::from(connection)) else {
            return Ok(());
        };
        let Some(client) = self.judge.client(connection) else {
            return Ok(());
        };
        let piece = wire.next_piece(
            alloc,
            &mut self.draws,
            &mut self.conditions,
            self.hurry,
            client,
        )?;
        self.judge.give(connection, piece)
    }

    fn turn(&mut self, connection: u16, totals: &mut Totals) -> Result<(), Stop> {
        totals.note(Happening::Turn);
        self.judge.turn(connection, totals)
    }

    /// This connection where its upload is open or no other one's is, else the last whose is.
    fn uploading_or(&self, connection: u16) -> u16 {
        let mut found = connection;
        for number in 0..self.judge.connections {
            if self.judge.is_uploading(number) && !self.judge.is_uploading(connection) {
                found = number;
            }
        }
        found
    }

    /// A connection ends or is dropped, mostly one whose upload is open.
    fn cut(&mut self, connection: u16, totals: &mut Totals) -> Result<(), Stop> {
        let number = self.uploading_or(connection);
        if !self.judge.is_uploading(number) && !self.draws.is_one_in(5) {
            return self.turn(number, totals);
        }
        if self.draws.is_one_in(2) {
            totals.note(Happening::End);
            self.judge.end(number, totals)
        } else {
            totals.note(Happening::Drop);
            self.judge.leave(number, totals)
        }
    }

    fn reclaim(&mut self, totals: &mut Totals) -> Result<(), Stop> {
        totals.note(Happening::Reclaim);
        let count = drawn_count(&mut self.draws);
        let witness = self.judge.connections;
        self.judge.pass(witness, WorldStep::Reclaim(count))
    }

    /// A step of a connection that is not there.
    fn step_aside(&mut self, totals: &mut Totals) -> Result<(), Stop> {
        totals.note(Happening::Absent);
        let number = self.draws.below(3).saturating_add(1);
        let more = u16::try_from(number).unwrap_or(1);
        let absent = if self.draws.is_one_in(4) {
            u16::MAX
        } else {
            self.judge.connections.saturating_add(more)
        };
        let mut bytes = Vec::new(self.judge.rules.alloc);
        bytes.extend_from_slice(b"PUT /graphs/a HTTP/1.1\r\nHost: a\r\n\r\n")?;
        let step = match self.draws.below(4) {
            0 => WorldStep::Bytes(absent, bytes),
            1 => WorldStep::End(absent),
            2 => WorldStep::Drop(absent),
            _ => WorldStep::Turn(absent),
        };
        self.judge.pass(absent, step)
    }

    fn take_step(&mut self, totals: &mut Totals) -> Result<(), Stop> {
        let number = self.draws.below(usize::from(self.judge.connections));
        let connection = u16::try_from(number).unwrap_or_default();
        match self.draws.below(100) {
            0..43 => self.give(connection, totals),
            43..91 => self.turn(connection, totals),
            91..93 => self.cut(connection, totals),
            93..97 => self.reclaim(totals),
            _ => self.step_aside(totals),
        }
    }

    /// A turn for each connection that has something to say; whether there is one.
    fn play_round(&mut self, totals: &mut Totals) -> Result<bool, Stop> {
        let mut moves = false;
        for connection in 0..self.judge.connections {
            if !self.judge.is_quiet(connection) {
                moves = true;
                totals.note(Happening::LastTurn);
                self.judge.turn(connection, totals)?;
            }
        }
        Ok(moves)
    }

    /// Turns until nothing moves, and then some.
    fn play_last(&mut self, totals: &mut Totals) -> Result<(), Stop> {
        for _ in 0..MAX_LAST_ROUNDS {
            if !self.play_round(totals)? {
                break;
            }
        }
        for _ in 0..IDLE_ROUNDS {
            for connection in 0..self.judge.connections {
                totals.note(Happening::LastTurn);
                self.judge.turn(connection, totals)?;
            }
        }
        Ok(())
    }

    fn play(&mut self, totals: &mut Totals) -> Result<(), Stop> {
        for step in 1..=STEPS {
            self.judge.step = step;
            self.take_step(totals)?;
        }
        self.judge.step = STEPS.saturating_add(1);
        self.play_last(totals)?;
        self.judge.check_end(totals)
    }
}

/// Plays the schedule with this number.
pub fn play_schedule(
    alloc: Global,
    number: u64,
    lie: Lie,
    totals: &mut Totals,
) -> Result<(), Stop> {
    let mut play = Play::new(alloc, number, lie)?;
    totals.note(Happening::Schedule);
    play.play(totals)
}
