//! What is wrong with a case.
use gs_core::Refusal;
use gs_test_texts::other_line;
use std::alloc::{AllocError, Global};
use std::io::{self, Write};

/// What was written on a connection, and what was to be written.
#[derive(Drop)]
pub struct Difference {
    connection: u16,
    written: Vec<u8>,
    text: Vec<u8>,
}

impl Difference {
    /// Prints how many bytes of the text were written, or the first line that is otherwise.
    fn report<W: Write>(&self, out: &mut W) -> io::Result<()> {
        let written = self.written.as_slice();
        let text = self.text.as_slice();
        write!(out, "connection {}: ", self.connection)?;
        if text.starts_with(written) {
            return writeln!(out, "{} bytes of the text", written.len());
        }
        writeln!(out, "{}", other_line(written, text))
    }
}

/// What is found first.
#[derive(Drop)]
pub enum Finding {
    NoMemory,
    /// There is no world with so many connections, or so many lines a piece.
    NoWorld,
    /// Something is said of a connection that is not there.
    NoConnection(u16),
    /// Something is said that is not asked in a case of this kind.
    NotAsked,
    Difference(Difference),
    /// The change was made where it could not be.
    Change,
    /// The change was not made where it had to be.
    NoChange,
    /// A connection wrote after it was dropped.
    Later,
}

impl From<Refusal> for Finding {
    fn from(_: Refusal) -> Finding {
        Finding::NoMemory
    }
}

impl From<AllocError> for Finding {
    fn from(_: AllocError) -> Finding {
        Finding::NoMemory
    }
}

impl Finding {
    /// This was written on a connection, and that was to be written.
    pub fn of_texts(alloc: Global, connection: u16, written: &[u8], text: &[u8]) -> Finding {
        match (
            Vec::from_slice(alloc, written),
            Vec::from_slice(alloc, text),
        ) {
            (Ok(written), Ok(text)) => Finding::Difference(Difference {
                connection,
                written,
                text,
            }),
            _ => Finding::NoMemory,
        }
    }

    /// What is found, in words. A difference has none.
    fn text(&self) -> &'static str {
        match self {
            Finding::NoMemory => "no memory",
            Finding::NoWorld => "no such world",
            Finding::NoConnection(_) => "there is no connection",
            Finding::NotAsked => "something is said that is not asked",
            Finding::Difference(_) => "",
            Finding::Change => "the change was made",
            Finding::NoChange => "the change was not made",
            Finding::Later => "bytes after the drop",
        }
    }

    /// Prints it.
    pub fn report<W: Write>(&self, out: &mut W) -> io::Result<()> {
        match self {
            Finding::Difference(it) => it.report(out),
            Finding::NoConnection(connection) => writeln!(out, "{} {connection}", self.text()),
            _ => writeln!(out, "{}", self.text()),
        }
    }
}
