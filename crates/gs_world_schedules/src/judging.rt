//! A world whose steps are judged by the model, one after another.
use crate::clients::{Client, found};
use crate::findings::{Kind, Moment, Stop};
use crate::totals::{Happening, Totals};
use crate::witnesses::{Sight, Witness};
use gs_core::Refusal;
use gs_drawn_requests::{Deed, Write};
use gs_world::{World, WorldStep};
use gs_world_models::{Asked, Due, Lie, Rules, State};
use std::alloc::{AllocError, Global};

const BASE: &str = "http://localhost";

/// A world, and what the model knows of it.
#[derive(Drop)]
pub struct Judge {
    pub rules: Rules,
    world: World,
    clients: Vec<Client>,
    /// How many connections there are beside the witness, which comes after them.
    pub connections: u16,
    witness: Witness,
    /// What the graphs are, and the numbers of the last writes on them.
    state: State,
    /// The number of the step at hand.
    pub step: usize,
}

/// So many connections to which nothing came.
fn new_clients(alloc: Global, connections: u16) -> Result<Vec<Client>, AllocError> {
    let mut clients = Vec::new(alloc);
    for _ in 0..connections {
        clients.push(Client::new(alloc))?;
    }
    Ok(clients)
}

impl Judge {
    /// A new world with one connection at least, and a witness.
    pub fn new(rules: Rules, connections: u16) -> Result<Judge, Refusal> {
        let alloc = rules.alloc;
        let all = connections.saturating_add(1).clamp(2, 512);
        let clients = new_clients(alloc, connections)?;
        Ok(Judge {
            rules,
            world: World::new(alloc, all, BASE, rules.piece.clamp(1, 4_096))?,
            clients,
            connections,
            witness: Witness::new(connections),
            state: State::new(),
            step: 0,
        })
    }

    /// The number of the last commit.
    pub fn commit(&self) -> u64 {
        self.state.commit
    }

    /// What the model knows of a connection.
    pub fn client(&mut self, connection: u16) -> Option<&mut Client> {
        self.clients.get_mut(usize::from(connection))
    }

    fn moment(&self, connection: u16) -> Moment {
        Moment {
            alloc: self.rules.alloc,
            step: self.step,
            connection,
        }
    }

    fn run(&mut self, step: WorldStep) -> Result<(), Stop> {
        let steps = [step];
        self.world.run(&steps)?;
        Ok(())
    }

    /// The witness reads all graphs, which are as before or these others.
    fn look(&mut self, connection: u16, other: &Option<State>) -> Result<(), Stop> {
        let before = self.state;
        let moment = self.moment(connection);
        match self
            .witness
            .look(&mut self.world, &self.rules, &before, other)?
        {
            Sight::Graphs(state) => {
                self.state = state;
                Ok(())
            }
            Sight::Others(written, wanted) => {
                Err(moment.found(Kind::OtherGraphs, written.as_slice(), wanted.as_slice()))
            }
        }
    }

    /// No connection has written what was not judged.
    fn check_unmoved(&self) -> Result<(), Stop> {
        for connection in 0..self.connections {
            let written = self.world.written(connection);
            if let Some(client) = self.clients.get(usize::from(connection)) {
                let said = client.said.len();
                if written.len() != said {
                    let text = written.get(said..).unwrap_or_default();
                    return Err(self.moment(connection).found(Kind::Unmoved, text, b""));
                }
            }
        }
        Ok(())
    }

    /// Nothing was written and no graph was changed.
    fn check_still(&mut self, connection: u16) -> Result<(), Stop> {
        self.look(connection, &None)?;
        self.check_unmoved()
    }

    /// The connection whose text is judged.
    fn speaker(&self, connection: u16) -> u16 {
        if self.rules.lie == Lie::NeighboursAnswer {
            let next = connection.saturating_add(1);
            return if next == self.connections { 0 } else { next };
        }
        connection
    }

    /// A request was answered.
    fn note_answer(&mut self, asked: &Asked, totals: &mut Totals) {
        totals.note_request(asked);
        if self.rules.lie == Lie::FaultsRemove && matches!(asked.request.deed, Deed::Fault(_)) {
            let effect = self.state.after(&self.rules, asked, Write::Remove);
            self.state = effect.state;
        }
    }

    /// What a turn wrote is judged.
    fn judge_text(
        &mut self,
        connection: u16,
        due: &Due,
        before: State,
        totals: &mut Totals,
    ) -> Result<(), Stop> {
        let speaker = self.speaker(connection);
        let moment = self.moment(connection);
        let Some(client) = self.clients.get_mut(usize::from(connection)) else {
            return Ok(());
        };
        let written = self.world.written(speaker);
        let text = written.get(client.said.len()..).unwrap_or_default();
        let has_changed = before != self.state;
        if let Some(kind) = found(due, text, has_changed) {
            return Err(moment.found(kind, text, due.text()));
        }
        match due.reply() {
            Some(reply) if !text.is_empty() => {
                totals.note_reply(reply);
                if let Some(asked) = client.take(reply)? {
                    self.note_answer(&asked, totals);
                }
            }
            _ => {
                if before.dataset != self.state.dataset {
                    totals.note(Happening::Change);
                }
                client.rest(before, self.state)?;
            }
        }
        Ok(())
    }

    /// A connection takes a turn.
    pub fn turn(&mut self, connection: u16, totals: &mut Totals) -> Result<(), Stop> {
        let Some(client) = self.clients.get(usize::from(connection)) else {
            return Ok(());
        };
        let due = client.due(&self.rules, &self.state)?;
        let effect = match &due {
            Due::Must(_) => None,
            _ => client.effect(&self.rules, &self.state),
        };
        let before = self.state;
        self.run(WorldStep::Turn(connection))?;
        self.look(connection, &effect)?;
        self.judge_text(connection, &due, before, totals)?;
        self.check_unmoved()
    }

    /// Bytes come to a connection: nothing is written. The graphs are read after the next step.
    pub fn give(&mut self, connection: u16, bytes: Vec<u8>) -> Result<(), Stop> {
        self.run(WorldStep::Bytes(connection, bytes))?;
        self.check_unmoved()
    }

    /// The store frees nodes, or a connection that is not there takes a step: nothing is written, and no
    /// graph is changed.
    pub fn pass(&mut self, connection: u16, step: WorldStep) -> Result<(), Stop> {
        self.run(step)?;
        self.check_still(connection)?;
        if self.connections < connection {
            let text = self.world.written(connection);
            if !text.is_empty() {
                return Err(self.moment(connection).found(Kind::Unmoved, text, b""));
            }
        }
        Ok(())
    }

    /// No more bytes come to a connection.
    pub fn end(&mut self, connection: u16, totals: &mut Totals) -> Result<(), Stop> {
        if let Some(client) = self.clients.get_mut(usize::from(connection)) {
            if client.is_uploading() {
                totals.note(Happening::EndInUpload);
            }
            client.end();
        }
        self.run(WorldStep::End(connection))?;
        self.check_still(connection)
    }

    /// A connection is dropped.
    pub fn leave(&mut self, connection: u16, totals: &mut Totals) -> Result<(), Stop> {
        if let Some(client) = self.clients.get_mut(usize::from(connection)) {
            if client.is_uploading() {
                totals.note(Happening::DropInUpload);
                if self.rules.lie == Lie::DroppedUploadsCount {
                    let effect = client.effect_of_cut(&self.rules, &self.state);
                    self.state = effect.unwrap_or(self.state);
                }
            }
            client.leave();
        }
        self.run(WorldStep::Drop(connection))?;
        self.check_still(connection)
    }

    /// The body of an upload is open and has not come whole.
    pub fn is_uploading(&self, connection: u16) -> bool {
        match self.clients.get(usize::from(connection)) {
            Some(client) => client.is_uploading(),
            None => false,
        }
    }

    /// Nothing is to be said before more bytes come.
    pub fn is_quiet(&self, connection: u16) -> bool {
        match self.clients.get(usize::from(connection)) {
            Some(client) => client.is_quiet(),
            None => true,
        }
    }

    /// All that is to be said was written, and nothing else.
    pub fn check_end(&self, totals: &mut Totals) -> Result<(), Stop> {
        for connection in 0..self.connections {
            if let Some(client) = self.clients.get(usize::from(connection)) {
                let moment = self.moment(connection);
                let written = self.world.written(connection);
                let said = client.said.as_slice();
                if !client.is_quiet() {
                    return Err(moment.found(Kind::Unanswered, b"", b""));
                }
                if written != said {
                    return Err(moment.found(Kind::Rewritten, written, said));
                }
                if client.is_uploading() {
                    totals.note(Happening::LastInUpload);
                }
            }
        }
        Ok(())
    }
}
