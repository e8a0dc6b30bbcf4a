//! Laws of absolute IRIs and of references, proved: each body is empty, and the contract is the law.
ghost use Rattle.std.specs.Prelude.{◌≡◌, ℕ, List, true, ◌↔◌};
ghost use Rattle.std.specs.Str.{all_scalars, encode_utf8_all};
ghost use Rattle.gs_model.specs.Iris.{is_absolute as absolute, IsAbsolute};
ghost use Rattle.gs_iri.specs.References.{parts_of};
ghost use Rattle.gs_iri.specs.Resolving.{recomposed, StaysAbsolute};

/// The test says what the definition says.
pub fn absolute_is()
    ensures { (text : List ℕ) → (absolute text ≡ true) ↔ IsAbsolute text }
{}

/// The test on bytes is the test on characters.
pub fn absolute_by_characters()
    ensures { (cs : List ℕ) → all_scalars cs ≡ true → absolute (encode_utf8_all cs) ≡ absolute cs }
{}

/// The parts of a text, joined again, are the text.
pub fn parts_rejoin()
    ensures { (text : List ℕ) → recomposed (parts_of text) ≡ text }
{}

/// The IRI that a reference of IRI characters means under an absolute base is absolute.
pub fn resolved_is_absolute()
    ensures { (base reference : List ℕ) → StaysAbsolute base reference }
{}
