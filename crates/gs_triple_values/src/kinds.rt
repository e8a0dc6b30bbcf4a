//! Terms by what they may be in a triple.
ghost use Rattle.std.specs.Prelude.{◌≡◌, true};
ghost use Rattle.gs_model.specs.Triples.{is_iri, is_subject};

use gs_term::TermText;

/// An IRI or a blank node.
#[derive(Drop)]
pub struct Subject {
    pub term: TermText,
    ghost kind: { is_subject term ≡ true },
}

/// An IRI.
#[derive(Drop)]
pub struct Verb {
    pub term: TermText,
    ghost kind: { is_iri term ≡ true },
}
