//! The names of RDF and of the XML Schema datatypes.
ghost use Rattle.std.specs.Prelude.{◌≡◌, IfOk, codes};
ghost use Rattle.gs_model.specs.Terms.{Typed};
ghost use Rattle.gs_model.specs.Texts.{kind_of};
ghost use Rattle.gs_triples.specs.Meanings.{rdf};
ghost use Rattle.gs_token_terms.specs.Datatypes.{datatype_iri};
ghost use Rattle.gs_token_terms.specs.Plain.{IsAfter};

use gs_term::TermText;
use std::alloc::{AllocError, Global};

/// The datatypes of numbers and booleans.
#[derive(Clone, Copy)]
pub enum Datatype {
    Integer,
    Decimal,
    Double,
    Boolean,
}

impl Datatype {
    /// Its IRI.
    pub fn iri(self) -> &'static str
        ensures { result.now ≡ datatype_iri self }
    {
        match self {
            Datatype::Integer => "http://www.w3.org/2001/XMLSchema#integer",
            Datatype::Decimal => "http://www.w3.org/2001/XMLSchema#decimal",
            Datatype::Double => "http://www.w3.org/2001/XMLSchema#double",
            Datatype::Boolean => "http://www.w3.org/2001/XMLSchema#boolean",
        }
    }

    /// What stands after the closing quote of its literals.
    pub fn after(self) -> &'static [u8]
        ensures after { IsAfter result.now }
        ensures kind { kind_of result.now ≡ Typed (datatype_iri self) }
    {
        match self {
            Datatype::Integer => b"^^<http://www.w3.org/2001/XMLSchema#integer>",
            Datatype::Decimal => b"^^<http://www.w3.org/2001/XMLSchema#decimal>",
            Datatype::Double => b"^^<http://www.w3.org/2001/XMLSchema#double>",
            Datatype::Boolean => b"^^<http://www.w3.org/2001/XMLSchema#boolean>",
        }
    }
}

/// The verb that `a` means.
pub fn rdf_type(alloc: Global) -> Result<TermText, AllocError>
    ensures { IfOk result (λ t. t ≡ rdf (codes "type")) }
{
    TermText::of_canonical(alloc, b"<http://www.w3.org/1999/02/22-rdf-syntax-ns#type>")
}

/// Of a cell, to its object.
pub fn rdf_first(alloc: Global) -> Result<TermText, AllocError>
    ensures { IfOk result (λ t. t ≡ rdf (codes "first")) }
{
    TermText::of_canonical(alloc, b"<http://www.w3.org/1999/02/22-rdf-syntax-ns#first>")
}

/// Of a cell, to what stands after it.
pub fn rdf_rest(alloc: Global) -> Result<TermText, AllocError>
    ensures { IfOk result (λ t. t ≡ rdf (codes "rest")) }
{
    TermText::of_canonical(alloc, b"<http://www.w3.org/1999/02/22-rdf-syntax-ns#rest>")
}

/// The list without a cell.
pub fn rdf_nil(alloc: Global) -> Result<TermText, AllocError>
    ensures { IfOk result (λ t. t ≡ rdf (codes "nil")) }
{
    TermText::of_canonical(alloc, b"<http://www.w3.org/1999/02/22-rdf-syntax-ns#nil>")
}
