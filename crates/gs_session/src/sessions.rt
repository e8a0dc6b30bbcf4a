//! One connection.
ghost use Rattle.std.specs.Prelude.{◌≡◌, ◌<◌, ℕ, List, [], length, true, false, IfOk, OnOk, OnErr};
ghost use Rattle.gs_model.specs.Bases.{is_base};
ghost use Rattle.gs_talk.specs.Seats.{Deeds};
ghost use Rattle.gs_session.specs.Steps.{server_of};
ghost use Rattle.gs_session.specs.Turns.{setup_of, seat_of, is_input_ended, bytes_due, IsSessionOver, Leads, IsKept, MakesTurn, RestsRightly, Quits, joined_input, taken, waiting, turn_at, has_opened as has_opened_at};

use crate::bodies::send;
use crate::buffers::Buffer;
use crate::outcomes::Next;
use crate::phases::{Phase, Work};
use crate::setups::Setup;
use crate::sites::Site;
use crate::steps::Step;
use crate::works::step;
use gs_door::Door;
use gs_event::Action;
use std::alloc::{AllocError, Global};
use std::mem;

/// A text that is shorter waits for the next piece of its read, so that a small reply is one write, and a
/// large one takes few.
const SHORT_BYTES: usize = 131_072;

/// What a turn did.
#[derive(Drop)]
pub enum Turn {
    /// Nothing: more input is wanted.
    NeedInput,
    /// One event.
    Made,
    /// These bytes are to be written, all of them and before any others.
    Output(Vec<u8>),
    /// Nothing: the connection has ended.
    Over,
}

/// A connection, from its first byte on.
#[derive(Drop)]
pub struct Session {
    setup: Setup,
    input: Buffer,
    ended: bool,
    /// What was said and not written yet.
    due: Vec<u8>,
    phase: Phase,
}

impl Session {
    /// A connection that uses a seat of a store with this base, and whose reads have pieces of so many
    /// lines. `gs_core::is_base` tests a base.
    pub fn new(alloc: Global, seat: u16, base: &str, piece: u32) -> Result<Session, AllocError>
        requires { is_base base.now ≡ true }
        ensures leads { IfOk result (λ s. Leads s [] [] []) }
        ensures server { IfOk result
            (λ s. server_of (setup_of s) ≡ record { base = base.now; piece = piece }) }
        ensures seat { IfOk result (λ s. seat_of s ≡ seat) }
        ensures goes { IfOk result (λ s. is_input_ended s ≡ false) }
    {
        let site = Site::new(alloc, base)?;
        Ok(Session {
            setup: Setup {
                alloc,
                seat,
                piece,
                site,
            },
            input: Buffer::new(alloc),
            ended: false,
            due: Vec::new(alloc),
            phase: Phase::Between,
        })
    }

    /// The next bytes come. After the end of the input they are dropped.
    pub fn give(&mut self, piece: &[u8]) -> Result<(), AllocError>
        ensures given { OnOk result ((x : List ℕ) (h : Deeds) (w : List ℕ) → Leads self.old x h w
            → Leads self.new (joined_input (is_input_ended self.old) x piece.now) h w) }
        ensures refused { OnErr result (self.new ≡ self.old) }
        ensures setup { setup_of self.new ≡ setup_of self.old }
        ensures ended { is_input_ended self.new ≡ is_input_ended self.old }
    {
        if self.ended {
            return Ok(());
        }
        self.input.push(piece)
    }

    /// No more bytes come.
    pub fn end_of_input(&mut self)
        ensures leads { IsKept self.old self.new }
        ensures setup { setup_of self.new ≡ setup_of self.old }
        ensures ended { is_input_ended self.new ≡ true }
    {
        self.ended = true;
    }

    /// What a step leads to comes next.
    fn take(&mut self, next: Next)
        ensures { self.new ≡ taken self.old next }
    {
        self.set_phase(next.phase);
        self.due = next.said;
    }

    /// What a turn tells that showed nothing.
    fn rest(&self) -> Turn
        ensures { result ≡ turn_at self.now.phase self.now.ended }
    {
        match self.phase {
            Phase::Over => Turn::Over,
            _ => {
                if self.ended {
                    Turn::Over
                } else {
                    Turn::NeedInput
                }
            }
        }
    }

    /// From now on the phase is this.
    fn set_phase(&mut self, phase: Phase)
        ensures { self.new ≡ waiting self.old phase }
    {
        drop(mem::replace(&mut self.phase, phase));
    }

    /// Nothing can be done before more comes.
    fn wait(&mut self, phase: Phase) -> Turn
        ensures state { self.new ≡ waiting self.old phase }
        ensures told { result ≡ turn_at phase self.old.ended }
    {
        self.set_phase(phase);
        self.rest()
    }

    /// In a read the next piece joins what is due, which is short; whether this is one.
    fn gather<D: Door>(&mut self, door: &mut D) -> bool
        requires { length self.old.due.items < 131072 }
        ensures turns { result ≡ true
            → MakesTurn D.Gives self.old door.old Turn.Made self.new door.new }
        ensures stays { result ≡ false → (self.new ≡ self.old) × (door.new ≡ door.old) }
        ensures setup { setup_of self.new ≡ setup_of self.old }
        ensures ended { is_input_ended self.new ≡ is_input_ended self.old }
    {
        match mem::replace(&mut self.phase, Phase::Over) {
            Phase::Serving(asked, Work::Sending) => {
                let due = mem::replace(&mut self.due, Vec::new(self.setup.alloc));
                let next = send(&self.setup, asked, due, door);
                self.take(next);
                true
            }
            phase => {
                self.set_phase(phase);
                false
            }
        }
    }

    /// Whether something is due, and short.
    fn is_short(&self) -> bool
        ensures { result ≡ true → length self.now.due.items < 131072 }
    {
        !self.due.is_empty() && self.due.len() < SHORT_BYTES
    }

    /// The next thing that the connection does: one event, a text to be written, or nothing before more
    /// input comes. The caller writes a text before the next turn.
    pub fn turn<D: Door>(&mut self, door: &mut D) -> Turn
        ensures turns { MakesTurn D.Gives self.old door.old result self.new door.new }
        ensures rests { RestsRightly result self.new }
        ensures setup { setup_of self.new ≡ setup_of self.old }
        ensures ended { is_input_ended self.new ≡ is_input_ended self.old }
    {
        if self.is_short() && self.gather(door) {
            return Turn::Made;
        }
        while self.due.is_empty() {
            let phase = mem::replace(&mut self.phase, Phase::Over);
            match step(&self.setup, &mut self.input, self.ended, phase, door) {
                Step::Silent(next) => self.take(next),
                Step::Made(next) => {
                    self.take(next);
                    return Turn::Made;
                }
                Step::Wait(phase) => return self.wait(phase),
            }
        }
        Turn::Output(mem::replace(&mut self.due, Vec::new(self.setup.alloc)))
    }

    /// The connection is given up: what is open at the store is cancelled, and what was not written is
    /// dropped. Afterwards the session does nothing more.
    pub fn abandon<D: Door>(&mut self, door: &mut D)
        ensures quits { Quits D.Gives self.old door.old door.new }
        ensures over { IsSessionOver self.new }
        ensures nothing_due { bytes_due self.new ≡ [] }
        ensures setup { setup_of self.new ≡ setup_of self.old }
        ensures ended { is_input_ended self.new ≡ is_input_ended self.old }
    {
        if let Phase::Serving(_, work) = &self.phase {
            if has_opened(work) {
                self.setup.act(Action::Cancel, door);
            }
        }
        self.set_phase(Phase::Over);
        self.due.clear();
    }
}

/// Whether something is open at the store.
fn has_opened(work: &Work) -> bool
    ensures { result ≡ has_opened_at work.now }
{
    match work {
        Work::Opening | Work::Skipping(_) => false,
        _ => true,
    }
}
