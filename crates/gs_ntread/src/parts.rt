//! What was read of a line so far.
use gs_model::Fault;
use gs_ntterm::Name;
use gs_term::TermText;

/// A subject, where a blank node still is its label.
#[derive(Drop)]
pub enum Subject {
    Iri(Name),
    Label(String),
}

/// An object, where a blank node still is its label.
#[derive(Drop)]
pub enum Object {
    Term(TermText),
    Label(String),
}

/// A triple whose blank nodes are not numbered yet, and the number of bytes up to its end.
#[derive(Drop)]
pub struct Parts {
    pub subject: Subject,
    pub predicate: Name,
    pub object: Object,
    pub end: u64,
}

/// Which part of a line comes, with what was read of the line.
#[derive(Drop)]
pub enum Place {
    Subject,
    Predicate(Subject),
    Object(Subject, Name),
    Suffix(Subject, Name),
    Datatype(Subject, Name),
    Dot(Subject, Name, Object),
    End,
}

/// Between two tokens, or within which. A tag's first part has letters alone, the later ones digits
/// too.
#[derive(Clone, Copy)]
pub enum Within {
    Between,
    Comment,
    Iri,
    IriEscape,
    IriDigits,
    Quoted,
    QuotedEscape,
    QuotedDigits,
    Underscore,
    Colon,
    Label,
    Dots,
    Caret,
    AtSign,
    Tag,
    TagPart,
    Hyphen,
    Faulty(Fault),
}
