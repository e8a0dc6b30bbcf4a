//! The languages of texts.

/// The language of a text that is uploaded.
#[derive(Clone, Copy, Debug, PartialEq, Eq)]
pub enum Language {
    /// N-Triples (25 February 2014).
    NTriples,
    /// Turtle (25 February 2014).
    Turtle,
}
