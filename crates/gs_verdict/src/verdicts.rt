//! What a head asks for, or how it is denied.
use crate::methods::{Allow, Method};
use gs_http::Framing;
use gs_names::{Media, ReplyType};
use gs_term::Target;

/// The reply to a head that is not served.
#[derive(Clone, Copy, Debug, PartialEq)]
pub struct Denial {
    pub status: u16,
    /// The field Allow, of a 405 alone.
    pub allow: Option<Allow>,
    /// The connection ends after the reply.
    pub closes: bool,
}

/// What a head asks for.
#[derive(Debug, Drop)]
pub struct Asked {
    pub method: Method,
    /// The graph, or none for the store itself.
    pub graph: Option<Target>,
    /// The type of the body; N-Triples where none is given.
    pub body: Media,
    /// The type of the reply's lines; N-Triples where it has none.
    pub reply: ReplyType,
    pub framing: Framing,
    /// The condition of a write: the number of the commit after which the graph must not have been
    /// written.
    pub since: Option<u64>,
    /// The client waits for `100 Continue` before it sends the body.
    pub awaits_continue: bool,
    /// The connection ends after the reply.
    pub closes: bool,
}

/// What a head asks for, or how it is denied.
#[derive(Debug, Drop)]
pub enum Verdict {
    Deny(Denial),
    Ask(Asked),
}
