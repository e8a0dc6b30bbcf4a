//! A schedule that is played once, as it stands or with a step put in.
use crate::cases::{Case, When};
use crate::findings::Finding;
use crate::worlds::new_world;
use gs_world::{World, WorldStep};
use std::alloc::{AllocError, Global};

/// Where a step is put in.
#[derive(Clone, Copy, Debug, Drop)]
pub enum Place {
    Nowhere,
    /// After so many steps.
    After(usize),
    /// Before all steps, and after each.
    Everywhere,
}

impl Place {
    fn is_after(self, steps: usize) -> bool {
        match self {
            Place::Nowhere => false,
            Place::After(count) => count == steps,
            Place::Everywhere => true,
        }
    }
}

/// What is put in.
#[derive(Clone, Copy, Drop)]
pub struct Insertion<'a> {
    pub steps: &'a [WorldStep],
    pub place: Place,
    /// The connection that is broken off by it.
    pub broken: Option<u16>,
    /// Nothing is written on that connection afterwards.
    pub is_drop: bool,
}

/// How a play ended.
#[derive(Clone, Copy, Drop)]
pub struct Ending {
    /// All is written that is to be written where the change was made.
    pub is_changed: bool,
    /// All is written that is to be written where the change was not made.
    pub is_unchanged: bool,
    /// All is written on the connection that was broken off.
    pub is_whole: bool,
}

/// What is to be written on a connection so far.
#[derive(Drop)]
struct Text {
    changed: Vec<u8>,
    unchanged: Vec<u8>,
}

/// Nothing is to be written yet on so many connections.
fn no_texts(alloc: Global, connections: u16) -> Result<Vec<Text>, AllocError> {
    let mut texts = Vec::new(alloc);
    for _ in 0..connections {
        texts.push(Text {
            changed: Vec::new(alloc),
            unchanged: Vec::new(alloc),
        })?;
    }
    Ok(texts)
}

/// How what is written on connections stands to what is to be.
#[derive(Clone, Copy, Drop)]
struct Sight {
    is_changed: bool,
    is_unchanged: bool,
    /// The first connection on which something else is written than where the change was made.
    other: Option<u16>,
}

impl Sight {
    fn add(&mut self, connection: u16, written: &[u8], changed: &[u8], unchanged: &[u8]) {
        let is_changed = written == changed;
        if self.other.is_none() && !is_changed {
            self.other = Some(connection);
        }
        self.is_changed = self.is_changed && is_changed;
        self.is_unchanged = self.is_unchanged && written == unchanged;
    }
}

/// A case that is played.
#[derive(Drop)]
struct Play<'a> {
    case: &'a Case<'a>,
    insertion: Insertion<'a>,
    world: World,
    texts: Vec<Text>,
    /// The connection that was broken off so far, and how much was written on it then.
    broken: Option<(u16, usize)>,
    is_changed: bool,
    is_unchanged: bool,
}

impl<'a> Play<'a> {
    fn new(case: &'a Case<'a>, insertion: Insertion<'a>) -> Result<Play<'a>, Finding> {
        let texts = no_texts(case.alloc, case.connections)?;
        Ok(Play {
            case,
            insertion,
            world: new_world(case)?,
            texts,
            broken: None,
            is_changed: true,
            is_unchanged: true,
        })
    }

    /// Adds what is to be written after so many steps; whether there is anything.
    fn hear(&mut self, steps: usize) -> Result<bool, AllocError> {
        let mut is_any = false;
        for saying in &self.case.sayings {
            if saying.steps != steps {
                continue;
            }
            is_any = true;
            let Some(text) = self.texts.get_mut(saying.connection as usize) else {
                continue;
            };
            if saying.when != When::Unchanged {
                text.changed.extend_from_slice(saying.bytes.as_slice())?;
            }
            if saying.when != When::Changed {
                text.unchanged.extend_from_slice(saying.bytes.as_slice())?;
            }
        }
        Ok(is_any)
    }

    fn is_broken(&self, connection: u16) -> bool {
        match self.broken {
            Some((broken, _)) => broken == connection,
            None => false,
        }
    }

    /// How what is written on the connections that go on stands to what is to be.
    fn sight(&self) -> Sight {
        let mut sight = Sight {
            is_changed: true,
            is_unchanged: true,
            other: None,
        };
        for missing in [self.case.connections, u16::MAX] {
            sight.add(missing, self.world.written(missing), &[], &[]);
        }
        for connection in 0..self.case.connections {
            let Some(text) = self.texts.get(connection as usize) else {
                continue;
            };
            if !self.is_broken(connection) {
                let written = self.world.written(connection);
                let changed = text.changed.as_slice();
                sight.add(connection, written, changed, text.unchanged.as_slice());
            }
        }
        sight
    }

    /// Compares what is written on the connections that go on with what is to be.
    fn compare(&mut self) -> Result<(), Finding> {
        let sight = self.sight();
        self.is_changed = self.is_changed && sight.is_changed;
        self.is_unchanged = self.is_unchanged && sight.is_unchanged;
        match sight.other {
            Some(connection) if !self.is_changed && !self.is_unchanged => {
                Err(self.difference(connection))
            }
            _ => Ok(()),
        }
    }

    fn difference(&self, connection: u16) -> Finding {
        let text = match self.texts.get(connection as usize) {
            Some(text) => text.changed.as_slice(),
            None => &[],
        };
        let written = self.world.written(connection);
        Finding::of_texts(self.case.alloc, connection, written, text)
    }

    /// Takes what is put in.
    fn insert(&mut self) -> Result<(), Finding> {
        self.world.run(self.insertion.steps)?;
        if let Some(connection) = self.insertion.broken {
            let count = self.world.written(connection).len();
            self.broken = Some((connection, count));
        }
        Ok(())
    }

    /// Takes all steps.
    fn run(&mut self) -> Result<(), Finding> {
        for at in 0..=self.case.steps.len() {
            if self.hear(at)? {
                self.compare()?;
            }
            if self.insertion.place.is_after(at) {
                self.insert()?;
            }
            let step = self.case.steps.get(at..at.saturating_add(1));
            self.world.run(step.unwrap_or_default())?;
        }
        self.compare()
    }

    /// Takes all steps: how it ended.
    fn run_to_end(&mut self) -> Result<Ending, Finding> {
        self.run()?;
        self.end()
    }

    /// How it ended.
    fn end(&self) -> Result<Ending, Finding> {
        let mut is_whole = false;
        if let Some((connection, count)) = self.broken {
            let written = self.world.written(connection);
            if self.insertion.is_drop && written.len() != count {
                return Err(Finding::Later);
            }
            let Some(text) = self.texts.get(connection as usize) else {
                return Err(Finding::Later);
            };
            if !text.changed.starts_with(written) {
                return Err(self.difference(connection));
            }
            is_whole = !written.is_empty() && written == text.changed.as_slice();
        }
        Ok(Ending {
            is_changed: self.is_changed,
            is_unchanged: self.is_unchanged,
            is_whole,
        })
    }
}

/// Plays a case with a step put in.
pub fn play_with<'a>(case: &'a Case<'a>, insertion: Insertion<'a>) -> Result<Ending, Finding> {
    let mut play = Play::new(case, insertion)?;
    let ended = play.run_to_end();
    drop(play);
    ended
}
