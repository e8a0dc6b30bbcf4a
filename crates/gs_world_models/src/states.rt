//! The graphs of a store, its last commit, and the last writes on each graph.
use crate::datasets::Dataset;
use crate::rules::{Lie, Rules};
use gs_drawn_requests::{DEFAULT, GRAPHS, Request, Write};

/// A request, and the commit number since which its graph must not have been written, if there is one.
#[derive(Clone, Copy, Drop)]
pub struct Asked {
    pub request: Request,
    pub since: Option<u64>,
}

/// What a store has.
#[derive(Clone, Copy, Drop, PartialEq)]
pub struct State {
    pub dataset: Dataset,
    /// The number of the last commit: how many writes took effect.
    pub commit: u64,
    /// The commit numbers of the last writes on each graph that took effect.
    writes: [u64; GRAPHS],
    /// That of the last DELETE of a name.
    removed: u64,
}

/// What a write makes of a store, its status, and the commit number that is said with it.
#[derive(Clone, Copy, Drop)]
pub struct Effect {
    pub state: State,
    pub status: u16,
    pub number: u64,
}

impl State {
    /// An empty store.
    pub fn new() -> State {
        State {
            dataset: Dataset::new(),
            commit: 0,
            writes: [0; GRAPHS],
            removed: 0,
        }
    }

    /// The commit number of the last write on a graph; of one that is missing that of the last DELETE of any name.
    fn last_write(&self, number: usize) -> u64 {
        if self.dataset.graph(number).is_none() {
            return self.removed;
        }
        self.writes.get(number).copied().unwrap_or_default()
    }

    /// Whether a write comes too late: its graph was written since.
    fn is_late(&self, rules: &Rules, asked: &Asked) -> bool {
        match asked.since {
            None => false,
            Some(_) if rules.lie == Lie::NeverLate => false,
            Some(commit) => commit < self.last_write(asked.request.graph),
        }
    }

    /// Nothing is changed, with this status and this number.
    fn kept(&self, status: u16, number: u64) -> Effect {
        Effect {
            state: *self,
            status,
            number,
        }
    }

    /// What a request's write makes of it. A DELETE or a PATCH of what is missing is 404 before it comes too late.
    pub fn after(&self, rules: &Rules, asked: &Asked, write: Write) -> Effect {
        let request = &asked.request;
        let outcome = self.dataset.after(rules, request, write);
        if outcome.status == 404 {
            return self.kept(404, self.commit);
        }
        if self.is_late(rules, asked) {
            return self.kept(412, self.last_write(request.graph));
        }
        let number = self.commit.saturating_add(1);
        let mut state = *self;
        state.dataset = outcome.dataset;
        state.commit = number;
        if let Some(last) = state.writes.get_mut(request.graph) {
            *last = number;
        }
        if matches!(write, Write::Remove) && request.graph != DEFAULT {
            state.removed = number;
        }
        Effect {
            state,
            status: outcome.status,
            number,
        }
    }
}
