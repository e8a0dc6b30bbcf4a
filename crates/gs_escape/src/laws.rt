//! Laws of the definitions, proved: the body is empty, and the contract is the law.
ghost use Rattle.std.specs.Prelude.{◌≡◌, ℕ, List, Some, true};
ghost use Rattle.std.specs.List.{list_all};
ghost use Rattle.gs_model.specs.Characters.{is_iri_char};
ghost use Rattle.gs_escape.specs.Tokens.{iri_of};

/// What a token means as an IRI has IRI characters alone, so that it can be resolved under an
/// absolute base.
pub fn iri_has_iri_characters()
    ensures { (text iri : List ℕ) → iri_of text ≡ Some iri → list_all is_iri_char iri ≡ true }
{}
