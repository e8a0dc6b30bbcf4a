//! A case: what happens in a world, and what is written on its connections.
use gs_test_texts::push_bytes;
use gs_world::WorldStep;
use std::alloc::{AllocError, Global};

/// Where a text is written.
#[derive(Clone, Copy, Drop, PartialEq)]
pub enum When {
    Always,
    /// Only where the change of the case was made.
    Changed,
    /// Only where it was not made.
    Unchanged,
}

/// What is written on a connection between two steps.
#[derive(Drop)]
pub struct Saying {
    /// How many steps come before.
    pub steps: usize,
    pub connection: u16,
    pub when: When,
    pub bytes: Vec<u8>,
}

/// What one connection changes and others see.
#[derive(Clone, Copy, Drop)]
pub struct Change {
    pub connection: u16,
    /// After how many steps it is not made yet.
    pub steps: usize,
}

/// A case under a name, once all its lines were taken.
#[derive(Drop)]
pub struct Case<'a> {
    pub alloc: Global,
    pub name: &'a str,
    /// Whether a line gave the name.
    is_named: bool,
    /// The first line that says nothing.
    pub bad_line: Option<&'a str>,
    pub connections: u16,
    /// How many lines a piece of a read has.
    pub piece: u32,
    pub is_side_by_side: bool,
    /// Whether what is written is only shown.
    pub is_shown: bool,
    pub steps: Vec<WorldStep>,
    pub sayings: Vec<Saying>,
    /// Each of these is put after each of the steps.
    pub insertions: Vec<WorldStep>,
    pub change: Option<Change>,
}

/// The step that a line says, with turns one by one.
fn step_of(alloc: Global, line: &str) -> Result<Option<WorldStep>, AllocError> {
    let Some((first, rest)) = line.split_once(' ') else {
        return Ok(None);
    };
    if first == "reclaim" {
        return Ok(match rest.parse::<u64>() {
            Ok(count) => Some(WorldStep::Reclaim(count)),
            Err(_) => None,
        });
    }
    let Ok(connection) = first.parse::<u16>() else {
        return Ok(None);
    };
    if let Some(sent) = rest.strip_prefix(">") {
        let mut bytes = Vec::new(alloc);
        if !push_bytes(&mut bytes, sent)? {
            return Ok(None);
        }
        return Ok(Some(WorldStep::Bytes(connection, bytes)));
    }
    Ok(match rest {
        "turn" => Some(WorldStep::Turn(connection)),
        "end" => Some(WorldStep::End(connection)),
        "drop" => Some(WorldStep::Drop(connection)),
        _ => None,
    })
}

/// The connection of a line, and what comes after its number.
fn numbered(line: &str) -> Option<(u16, &str)> {
    let (number, rest) = line.split_once(' ')?;
    match number.parse::<u16>() {
        Ok(connection) => Some((connection, rest)),
        Err(_) => None,
    }
}

impl<'a> Case<'a> {
    /// A case without a line.
    pub fn new(alloc: Global) -> Case<'a> {
        Case {
            alloc,
            name: "a case without a name",
            is_named: false,
            bad_line: None,
            connections: 2,
            piece: 256,
            is_side_by_side: false,
            is_shown: false,
            steps: Vec::new(alloc),
            sayings: Vec::new(alloc),
            insertions: Vec::new(alloc),
            change: None,
        }
    }

    /// Takes what is said of the world; whether the line says such a thing.
    fn set(&mut self, line: &str) -> bool {
        if line == "side by side" {
            self.is_side_by_side = true;
            return true;
        }
        if line == "shown" {
            self.is_shown = true;
            return true;
        }
        let Some((number, what)) = line.split_once(' ') else {
            return false;
        };
        match (what, number.parse::<u16>()) {
            ("connections", Ok(connections)) => self.connections = connections,
            ("lines a piece", Ok(piece)) => self.piece = u32::from(piece),
            _ => return false,
        }
        true
    }

    /// Takes what is written on a connection, after the sign `<`; whether it is bytes.
    fn say(&mut self, connection: u16, said: &str) -> Result<bool, AllocError> {
        let mut when = When::Always;
        let mut text = said;
        if let Some(rest) = said.strip_prefix("=") {
            when = When::Changed;
            text = rest;
        } else if let Some(rest) = said.strip_prefix("!") {
            when = When::Unchanged;
            text = rest;
        }
        let mut bytes = Vec::new(self.alloc);
        if !push_bytes(&mut bytes, text)? {
            return Ok(false);
        }
        self.sayings.push(Saying {
            steps: self.steps.len(),
            connection,
            when,
            bytes,
        })?;
        Ok(true)
    }

    /// Takes that the last bytes of the change have come on this connection; whether it is the first.
    fn mark(&mut self, connection: u16) -> bool {
        if self.change.is_some() {
            return false;
        }
        self.change = Some(Change {
            connection,
            steps: self.steps.len(),
        });
        true
    }

    /// Takes so many turns, after the word; whether it is a number.
    fn turn(&mut self, connection: u16, count: &str) -> Result<bool, AllocError> {
        let Ok(count) = count.parse::<u16>() else {
            return Ok(false);
        };
        for _ in 0..count {
            self.steps.push(WorldStep::Turn(connection))?;
        }
        Ok(true)
    }

    /// Takes what happens on a connection and is no single step; whether it is such a thing.
    fn act(&mut self, connection: u16, line: &str) -> Result<bool, AllocError> {
        if let Some(said) = line.strip_prefix("<") {
            return self.say(connection, said);
        }
        if line == "changes" {
            return Ok(self.mark(connection));
        }
        match line.strip_prefix("turn ") {
            Some(count) => self.turn(connection, count),
            None => Ok(false),
        }
    }

    /// Takes a line of what happens; whether it is one.
    fn happen(&mut self, line: &str) -> Result<bool, AllocError> {
        if let Some(inserted) = line.strip_prefix("each ") {
            let Some(step) = step_of(self.alloc, inserted)? else {
                return Ok(false);
            };
            self.insertions.push(step)?;
            return Ok(true);
        }
        if let Some(step) = step_of(self.alloc, line)? {
            self.steps.push(step)?;
            return Ok(true);
        }
        match numbered(line) {
            Some((connection, rest)) => self.act(connection, rest),
            None => Ok(false),
        }
    }

    /// Takes the name; whether it is the first.
    fn call(&mut self, name: &'a str) -> bool {
        if self.is_named {
            return false;
        }
        self.is_named = true;
        self.name = name;
        true
    }

    /// Takes a line that should say something; whether it does, which it can only after the name.
    fn read(&mut self, line: &'a str) -> Result<bool, AllocError> {
        if let Some(name) = line.strip_prefix("= ") {
            return Ok(self.call(name));
        }
        if !self.is_named {
            return Ok(false);
        }
        match line.strip_prefix("! ") {
            Some(said) => Ok(self.set(said)),
            None => self.happen(line),
        }
    }

    /// The next line of the input, without its line feed.
    pub fn take(&mut self, line: &'a str) -> Result<(), AllocError> {
        if line.starts_with('#') {
            return Ok(());
        }
        let is_good = self.read(line)?;
        if !is_good && self.bad_line.is_none() {
            self.bad_line = Some(line);
        }
        Ok(())
    }

    /// Whether a line was taken that says something, or should.
    pub fn is_begun(&self) -> bool {
        self.is_named || self.bad_line.is_some()
    }
}
