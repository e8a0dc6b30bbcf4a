//! Terms that are IRIs.
ghost use Rattle.std.specs.Prelude.{◌≡◌, true};
ghost use Rattle.gs_model.specs.Triples.{is_iri};

use gs_term::TermText;

/// An IRI.
#[derive(Drop)]
pub struct Name {
    pub term: TermText,
    pub ghost iri: { is_iri term ≡ true },
}
