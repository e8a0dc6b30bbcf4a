//! One of many connections on a store.
ghost use Rattle.std.specs.Prelude.{◌≡◌, [], true, IfOk, OnOk, OnErr, Some};
ghost use Rattle.gs_model.specs.Bases.{is_base};
ghost use Rattle.gs_session.specs.declared.sessions.Session.{Session as ASession};
ghost use Rattle.gs_world.specs.Happenings.{no_input};
ghost use Rattle.gs_world.specs.Worlds.{HoldsTo};
ghost use Rattle.gs_world.specs.Walks.{session_of, bytes_written, Gets, InputEnds, MovesOn, CannotWrite, LeavesSeat};

use gs_core::Store;
use gs_session::{Session, Turn};
use std::alloc::{AllocError, Global};

/// One of many connections on a store.
#[derive(Drop)]
pub struct Connection {
    /// None after it was given up.
    session: Option<Session>,
    written: Vec<u8>,
}

impl Connection {
    /// A connection that uses this seat of a store with this base.
    pub fn new(alloc: Global, seat: u16, base: &str, piece: u32) -> Result<Connection, AllocError>
        requires { is_base base.now ≡ true }
        ensures { IfOk result (HoldsTo (record { base = base.now; piece = piece }) seat no_input []) }
    {
        let session = Session::new(alloc, seat, base, piece)?;
        Ok(Connection {
            session: Some(session),
            written: Vec::new(alloc),
        })
    }

    /// What was written.
    pub fn written(&self) -> &[u8]
        ensures { result.now ≡ bytes_written self.now }
    {
        self.written.as_slice()
    }

    /// The next bytes come.
    pub fn give(&mut self, bytes: &[u8]) -> Result<(), AllocError>
        ensures given { OnOk result (Gets bytes.now self.old self.new) }
        ensures refused { OnErr result (self.new ≡ self.old) }
        ensures live { OnErr result ((s : ASession) × (session_of self.old ≡ Some s)) }
    {
        match &mut self.session {
            Some(session) => session.give(bytes),
            None => Ok(()),
        }
    }

    /// No more bytes come.
    pub fn end(&mut self)
        ensures { InputEnds self.old self.new }
    {
        if let Some(session) = &mut self.session {
            session.end_of_input();
        }
    }

    /// The next turn, whose text is written.
    pub fn turn(&mut self, store: &mut Store) -> Result<(), AllocError>
        ensures moved { OnOk result (MovesOn self.old store.old self.new store.new) }
        ensures refused { OnErr result (CannotWrite self.old store.old self.new store.new) }
    {
        match &mut self.session {
            Some(session) => match session.turn(store) {
                Turn::Output(text) => self.written.extend_from_slice(text.as_slice()),
                _ => Ok(()),
            },
            None => Ok(()),
        }
    }

    /// The connection is given up.
    pub fn leave(&mut self, store: &mut Store)
        ensures { LeavesSeat self.old store.old self.new store.new }
    {
        if let Some(session) = &mut self.session {
            session.abandon(store);
        }
        drop(self.session.take());
    }
}
