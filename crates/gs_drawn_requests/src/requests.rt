//! What the generator asks for. Nothing here was read from bytes.
use crate::triples::Triples;

/// The graph that is there always; the others, to `GRAPHS`, have names.
pub const DEFAULT: usize = 0;

/// How many graphs schedules speak of.
pub const GRAPHS: usize = 4;

#[derive(Clone, Copy, Drop, PartialEq)]
pub enum Method {
    Get,
    Head,
    Put,
    Post,
    Delete,
    Patch,
}

/// An operation of a patch.
#[derive(Clone, Copy, Drop)]
pub struct Edit {
    /// It inserts the triples, and does not delete them.
    pub inserts: bool,
    pub triples: Triples,
}

/// What a request does to its graph.
#[derive(Clone, Copy, Drop)]
pub enum Write {
    Replace(Triples),
    Add(Triples),
    Change(Edit, Edit),
    Remove,
}

/// What a request comes to.
#[derive(Clone, Copy, Drop)]
pub enum Deed {
    Read,
    Look,
    Write(Write),
    /// Its body has a fault, with this status.
    Fault(u16),
    /// Its head is denied with this status and, where there is one, this field Allow.
    Denied(u16, &'static str),
}

/// A request.
#[derive(Clone, Copy, Drop)]
pub struct Request {
    pub method: Method,
    pub graph: usize,
    /// It reads or looks at all graphs, in place of the one.
    pub is_of_all: bool,
    pub deed: Deed,
    /// Turtle is asked for.
    pub is_turtle: bool,
    /// The connection ends with its reply.
    pub closes: bool,
    /// It awaits `100 Continue`.
    pub awaits: bool,
    /// How many bytes of the connection there are to the end of its head.
    pub head_end: usize,
    /// How many there are to its end.
    pub end: usize,
}

impl Request {
    /// Something is opened at the store before its body is read.
    pub fn opens(&self) -> bool {
        match self.deed {
            Deed::Write(write) => !matches!(write, Write::Remove),
            Deed::Fault(_) => true,
            _ => false,
        }
    }
}
