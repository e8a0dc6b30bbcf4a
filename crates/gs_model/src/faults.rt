//! What is wrong with a text.

/// The first fault of a text.
#[derive(Clone, Copy, Debug, PartialEq, Eq, Drop)]
pub enum Fault {
    /// The text breaks its grammar there.
    Syntax,
    /// A term's canonical text is longer than any term may be.
    TermTooLong,
}
