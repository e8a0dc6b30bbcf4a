//! One schedule, played event by event on a store and on a plain store.
use crate::effects::{Counts, Effect, Effects};
use crate::findings::Stop;
use crate::judging::Judge;
use crate::scripts::{Script, seats};
use crate::totals::Totals;
use gs_drawn_events::{Ask, event};
use gs_event::{Answer, Event, Limits};
use gs_version_models::{Lie, put_together};
use std::alloc::Global;

/// The events of a schedule, the Reclaims after them and what ends it aside.
const EVENTS: usize = 300;

/// From this number on schedules ask and read all graphs too.
const FIRST_WIDE: u64 = 201;

/// From this number on some writes have conditions too, and stores begin after a commit.
const FIRST_ON_CONDITION: u64 = 301;

/// The number of that commit.
const START: u64 = 7;

/// How many nodes and records the Reclaim after each event may free.
const FEW: u64 = 3;

/// The commit number that the stores of the schedule with this number begin with.
pub fn start_of(number: u64) -> u64 {
    if FIRST_ON_CONDITION <= number {
        START
    } else {
        0
    }
}

/// A store that takes events.
pub trait Subject {
    /// Takes one.
    fn step(&mut self, event: &Event) -> Answer;

    /// What it counts.
    fn counts(&self) -> Counts;
}

/// A store takes an event.
pub fn effect<S: Subject>(store: &mut S, event: &Event) -> Effect {
    let before = store.counts();
    let answer = put_together(store.step(event));
    Effect {
        answer,
        before,
        after: store.counts(),
    }
}

/// Both stores take an event.
pub fn on_both<S: Subject, P: Subject>(store: &mut S, plain: &mut P, event: &Event) -> Effects {
    Effects {
        judged: effect(store, event),
        plain: effect(plain, event),
    }
}

/// What a schedule is made and judged by.
#[derive(Drop)]
pub struct Play {
    alloc: Global,
    judge: Judge,
    script: Script,
}

impl Play {
    /// The schedule with this number. Every second one is exact, those from `FIRST_WIDE` on are wide, and those
    /// from `FIRST_ON_CONDITION` on have conditions.
    pub fn new(alloc: Global, number: u64, limits: Limits, lie: Lie) -> Play {
        let is_exact = number % 2 == 0;
        let has_conditions = FIRST_ON_CONDITION <= number;
        Play {
            alloc,
            judge: Judge::new(alloc, is_exact, start_of(number), limits, lie),
            script: Script::new(
                alloc,
                number,
                is_exact,
                FIRST_WIDE <= number,
                has_conditions,
            ),
        }
    }

    /// Both stores are asked this.
    fn ask<S: Subject, P: Subject>(
        &mut self,
        store: &mut S,
        plain: &mut P,
        seat: u16,
        ask: &Ask,
        totals: &mut Totals,
    ) -> Result<(), Stop> {
        let event = event(self.alloc, seat, ask)?;
        let effects = on_both(store, plain, &event);
        self.judge.take(seat, ask, &effects, totals)
    }

    /// An event, and a few nodes and records are freed.
    fn step<S: Subject, P: Subject>(
        &mut self,
        store: &mut S,
        plain: &mut P,
        totals: &mut Totals,
    ) -> Result<(), Stop> {
        let (seat, ask) = self.script.next(&self.judge.model)?;
        self.ask(store, plain, seat, &ask, totals)?;
        let effects = on_both(store, plain, &Event::Reclaim(FEW));
        self.judge.reclaim(FEW, &effects, totals)
    }

    /// All seats are cancelled, and all waste is freed.
    fn finish<S: Subject, P: Subject>(
        &mut self,
        store: &mut S,
        plain: &mut P,
        totals: &mut Totals,
    ) -> Result<(), Stop> {
        for seat in 0..seats() {
            self.ask(store, plain, seat, &Ask::Cancel, totals)?;
        }
        let effects = on_both(store, plain, &Event::Reclaim(u64::MAX));
        self.judge.finish(&effects, totals)
    }

    /// Plays it on a new store and a new plain store.
    pub fn play<S: Subject, P: Subject>(
        &mut self,
        store: &mut S,
        plain: &mut P,
        totals: &mut Totals,
    ) -> Result<(), Stop> {
        totals.begin();
        for step in 1..=EVENTS {
            self.judge.step = step;
            self.step(store, plain, totals)?;
        }
        self.judge.step = EVENTS.saturating_add(1);
        self.finish(store, plain, totals)
    }
}
