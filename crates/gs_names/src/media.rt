//! Types of bodies and replies.

/// The media type of a body.
#[derive(Clone, Copy, Debug, PartialEq)]
pub enum Media {
    /// `text/turtle`
    Turtle,
    /// `application/n-triples`
    NTriples,
    /// `application/sparql-update`
    Update,
}

/// The media type of a reply with lines.
#[derive(Clone, Copy, Debug, PartialEq)]
pub enum ReplyType {
    /// `application/n-triples`
    NTriples,
    /// `text/turtle`
    Turtle,
    /// `application/n-quads`
    NQuads,
}

/// What Content-Type says.
#[derive(Clone, Copy, Debug, PartialEq)]
pub enum BodyType {
    /// There is no such field.
    Absent,
    Known(Media),
    /// Another type or charset, or several fields.
    Refused,
}
