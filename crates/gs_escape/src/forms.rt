//! The forms of text that have escapes.

/// What a text without its delimiters is, by the names of the productions.
#[derive(Clone, Copy, Debug)]
pub enum Form {
    IriRef,
    StringLiteralQuote,
    StringLiteralSingleQuote,
    StringLiteralLongQuote,
    StringLiteralLongSingleQuote,
    /// The local part of a prefixed name.
    Local,
}
