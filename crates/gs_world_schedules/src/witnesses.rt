//! A connection that reads each graph, and all together, between the steps of the others.
use gs_core::Refusal;
use gs_world::{World, WorldStep};
use gs_world_models::{Dataset, Rules, Showing, Shown, State, push_read, read_turns};
use std::alloc::AllocError;

/// A read of each graph, and one of all.
const READS: &[u8] = b"GET /store?default HTTP/1.1\r\nHost: w\r\n\r\n\
GET /graphs/a HTTP/1.1\r\nHost: w\r\n\r\n\
GET /store?graph=http://e/b HTTP/1.1\r\nHost: w\r\n\r\n\
GET /store?graph=http://e/c%23d HTTP/1.1\r\nHost: w\r\n\r\n\
GET /store HTTP/1.1\r\nHost: w\r\n\r\n";

/// What these reads show.
fn shown_in(dataset: &Dataset) -> [Shown; 5] {
    [
        dataset.one(0),
        dataset.one(1),
        dataset.one(2),
        dataset.one(3),
        Shown::All(*dataset),
    ]
}

/// The witness.
#[derive(Drop)]
pub struct Witness {
    seat: u16,
    /// How many bytes of what it wrote were judged.
    judged: usize,
}

/// What the witness saw.
#[derive(Drop)]
pub enum Sight {
    /// The graphs are these, after this commit.
    Graphs(State),
    /// They are none of those that were looked for: what it wrote, and what it writes if nothing has
    /// changed.
    Others(Vec<u8>, Vec<u8>),
}

/// What the witness writes where the graphs are these.
fn text_of(rules: &Rules, state: &State) -> Result<Vec<u8>, AllocError> {
    let mut text = Vec::new(rules.alloc);
    for shown in &shown_in(&state.dataset) {
        let showing = Showing {
            shown: *shown,
            commit: state.commit,
            is_turtle: false,
            closes: false,
        };
        push_read(&mut text, rules, &showing)?;
    }
    Ok(text)
}

/// How many turns that takes.
fn turns_of(rules: &Rules, state: &State) -> usize {
    let mut turns = 0usize;
    for shown in &shown_in(&state.dataset) {
        let made = read_turns(rules, *shown);
        turns = turns.saturating_add(made).saturating_add(1);
    }
    turns
}

impl Witness {
    /// The witness at this seat, which has read nothing.
    pub fn new(seat: u16) -> Witness {
        Witness { seat, judged: 0 }
    }

    /// Reads all graphs: whether they are as before, or these others.
    pub fn look(
        &mut self,
        world: &mut World,
        rules: &Rules,
        before: &State,
        other: &Option<State>,
    ) -> Result<Sight, Refusal> {
        let mut turns = turns_of(rules, before);
        if let Some(state) = other {
            turns = turns.max(turns_of(rules, state));
        }
        self.read(world, rules, turns)?;
        let written = world.written(self.seat);
        let text = written.get(self.judged..).unwrap_or_default();
        self.judged = written.len();
        let wanted = text_of(rules, before)?;
        if text == wanted.as_slice() {
            return Ok(Sight::Graphs(*before));
        }
        if let Some(state) = other {
            if text == text_of(rules, state)?.as_slice() {
                return Ok(Sight::Graphs(*state));
            }
        }
        let mut copy = Vec::new(rules.alloc);
        copy.extend_from_slice(text)?;
        Ok(Sight::Others(copy, wanted))
    }

    fn read(&self, world: &mut World, rules: &Rules, turns: usize) -> Result<(), Refusal> {
        let mut bytes = Vec::new(rules.alloc);
        bytes.extend_from_slice(READS)?;
        let given = [WorldStep::Bytes(self.seat, bytes)];
        world.run(&given)?;
        let turn = [WorldStep::Turn(self.seat)];
        for _ in 0..turns {
            world.run(&turn)?;
        }
        Ok(())
    }
}
