//! Where a parser stands.

/// Between two statements, within a directive, within the triples of a statement, or at a fault of
/// the grammar outside them.
#[derive(Clone, Copy)]
pub enum Place {
    Between,
    /// After `@prefix`, and then a dot ends the directive, or after `PREFIX`.
    InPrefix(bool),
    /// After the prefix.
    InPrefixIri(bool),
    InBase(bool),
    AtDot,
    Within,
    Lost,
}
