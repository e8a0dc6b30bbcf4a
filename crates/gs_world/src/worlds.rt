//! Many connections on one store.
ghost use Rattle.std.specs.Prelude.{◌≡◌, ◌≤◌, ℕ, true, [], IfOk, IfErr, IsErr, OnOk, OnErr};
ghost use Rattle.gs_model.specs.Bases.{is_base};
ghost use Rattle.gs_model.specs.Limits.{max_seats};
ghost use Rattle.gs_event.specs.Births.{no_births};
ghost use Rattle.gs_world.specs.Walks.{store_of, Apart, ChangesOne, Gets, InputEnds, MovesOn, LeavesSeat, FreesNodes, Walks, IsLive, HasText, IsGivenUp, RefusesStep};
ghost use Rattle.gs_world.specs.Worlds.{AreFresh, LeadsToWorld, RunsSteps, IsCutAt, written_on};

use crate::connections::Connection;
use crate::steps::WorldStep;
use gs_core::{Event, Refusal, Store};
use std::alloc::{AllocError, Global};

/// A store, and connections to it, each at a seat of its own.
#[derive(Drop)]
pub struct World {
    store: Store,
    connections: Vec<Connection>,
}

impl World {
    /// A fresh store with this base, and so many fresh connections, 1 to 512, whose reads have pieces of
    /// so many lines, 1 to 4,096. Connection `c` has seat `c`. `gs_core::is_base` tests a base.
    ///
    /// # Errors
    ///
    /// `NoMemory`.
    pub fn new(alloc: Global, connections: u16, base: &str, piece: u32) -> Result<World, Refusal>
        requires some { 1 ≤ connections }
        requires few { connections ≤ max_seats }
        requires base { is_base base.now ≡ true }
        requires lines { 1 ≤ piece }
        requires short { piece ≤ 4096 }
        ensures stands { IfOk result
            (λ w. LeadsToWorld (record { base = base.now; piece = piece }) connections w [] []) }
        ensures waste { IfOk result (λ w. (store_of w).waste ≡ []) }
        ensures births { IfOk result (λ w. (store_of w).births ≡ no_births connections) }
        ensures refused { IfErr result (λ refusal. refusal ≡ Refusal.NoMemory) }
    {
        let store = Store::new(alloc, connections, base)?;
        match connect(alloc, connections, base, piece) {
            Ok(list) => Ok(World {
                store,
                connections: list,
            }),
            Err(_) => Err(Refusal::NoMemory),
        }
    }

    /// What was written on the connection, nothing where there is none.
    pub fn written(&self, connection: u16) -> &[u8]
        ensures { result.now ≡ written_on self.now connection }
    {
        match self.connections.get(connection as usize) {
            Some(it) => it.written(),
            None => &[],
        }
    }

    /// Bytes come to a connection.
    fn give(&mut self, connection: u16, bytes: &[u8]) -> Result<(), AllocError>
        ensures ok { OnOk result (ChangesOne connection self.old self.new (Apart (Gets bytes.now))) }
        ensures err { OnErr result (IsGivenUp connection self.old self.new IsLive) }
    {
        match self.connections.get_mut(connection as usize) {
            Some(it) => match it.give(bytes) {
                Ok(()) => Ok(()),
                Err(error) => give_up(it, &mut self.store, error),
            },
            None => Ok(()),
        }
    }

    /// A connection takes its next turn.
    fn turn(&mut self, connection: u16) -> Result<(), AllocError>
        ensures ok { OnOk result (ChangesOne connection self.old self.new MovesOn) }
        ensures err { OnErr result (IsGivenUp connection self.old self.new HasText) }
    {
        match self.connections.get_mut(connection as usize) {
            Some(it) => match it.turn(&mut self.store) {
                Ok(()) => Ok(()),
                Err(error) => give_up(it, &mut self.store, error),
            },
            None => Ok(()),
        }
    }

    /// No more bytes come to a connection.
    fn end(&mut self, connection: u16)
        ensures { ChangesOne connection self.old self.new (Apart InputEnds) }
    {
        if let Some(it) = self.connections.get_mut(connection as usize) {
            it.end();
        }
    }

    /// A connection is given up.
    fn leave(&mut self, connection: u16)
        ensures { ChangesOne connection self.old self.new LeavesSeat }
    {
        if let Some(it) = self.connections.get_mut(connection as usize) {
            it.leave(&mut self.store);
        }
    }

    /// The store frees nodes and records.
    fn reclaim(&mut self, count: u64)
        ensures { FreesNodes count self.old self.new }
    {
        self.store.step(&Event::Reclaim(count));
    }

    /// One step. Where it is refused, its connection is given up.
    fn step(&mut self, step: &WorldStep) -> Result<(), AllocError>
        ensures ok { OnOk result (Walks self.old step.now self.new) }
        ensures err { OnErr result ((c : ℕ) × RefusesStep c self.old step.now self.new) }
    {
        match step {
            WorldStep::Bytes(connection, bytes) => self.give(*connection, bytes.as_slice()),
            WorldStep::Turn(connection) => self.turn(*connection),
            WorldStep::End(connection) => {
                self.end(*connection);
                Ok(())
            }
            WorldStep::Drop(connection) => {
                self.leave(*connection);
                Ok(())
            }
            WorldStep::Reclaim(count) => {
                self.reclaim(*count);
                Ok(())
            }
        }
    }

    /// Takes these steps, one after another. A step for a connection that is not there does nothing. In
    /// any order of the steps, all events and their answers are one legal history of the store, and each
    /// connection is served as if it were the only one: what was written on it is a prefix of what is to be
    /// said to its bytes.
    ///
    /// # Errors
    ///
    /// `NoMemory`, where there was none for bytes that came or for a text that was to be written. The
    /// steps before that one were taken, and its connection was given up, as by a Drop.
    pub fn run(&mut self, steps: &[WorldStep]) -> Result<(), Refusal>
        ensures ok { OnOk result (RunsSteps self.old steps.now self.new) }
        ensures err { OnErr result (IsCutAt self.old steps.now self.new) }
        ensures refused { IfErr result (λ refusal. refusal ≡ Refusal.NoMemory) }
    {
        for step in steps {
            match self.step(step) {
                Ok(()) => {}
                Err(_) => return Err(Refusal::NoMemory),
            }
        }
        Ok(())
    }
}

/// Gives a connection up that cannot go on, and passes its error on.
fn give_up(it: &mut Connection, store: &mut Store, error: AllocError) -> Result<(), AllocError>
    ensures left { LeavesSeat it.old store.old it.new store.new }
    ensures err { IsErr result }
{
    it.leave(store);
    Err(error)
}

/// So many connections, each at the seat of its number.
fn connect(alloc: Global, count: u16, base: &str, piece: u32) -> Result<Vec<Connection>, AllocError>
    requires { is_base base.now ≡ true }
    ensures { IfOk result (λ list. AreFresh (record { base = base.now; piece = piece }) count list.items) }
{
    let mut list = Vec::new(alloc);
    for seat in 0..count {
        let connection = Connection::new(alloc, seat, base, piece)?;
        list.push(connection)?;
    }
    Ok(list)
}
