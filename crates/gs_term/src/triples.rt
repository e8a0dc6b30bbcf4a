//! Triples, in the order of their lines.
ghost use Rattle.std.specs.Prelude.{◌≡◌, true, ◌&&◌};
ghost use Rattle.gs_model.specs.Triples.{is_iri as is_iri_of, is_subject as is_subject_of};

use crate::terms::TermText;
use std::alloc::AllocError;
use std::marker::Model;

/// A triple of RDF's kinds (RDF 1.1 Concepts, section 3.1). A contract sees its three terms.
#[derive(Debug, PartialEq, Eq, PartialOrd, Ord, Drop)]
pub struct Triple {
    subject: TermText,
    predicate: TermText,
    object: TermText,
}

impl Model for Triple {
    ghost use Rattle.std.specs.Prelude.{◌≡◌, true, ◌&&◌};
    ghost use Rattle.gs_model.specs.Triples.{RdfTriple, is_subject, is_iri};

    ghost Value = { RdfTriple };

    ghost view = { λ t. record { subject = t.subject; predicate = t.predicate; object = t.object } };

    ghost invariant = { λ t. (is_subject t.subject && is_iri t.predicate) ≡ true };

    ghost inverse = { λ t. record { subject = t.subject; predicate = t.predicate; object = t.object } };
}

impl Triple {
    ghost use Rattle.gs_model.specs.Triples.{IsTriple};

    /// The triple of these terms. `TermText::is_subject` and `TermText::is_iri` test the kinds.
    pub fn new(subject: TermText, predicate: TermText, object: TermText) -> Triple
        requires { (is_subject_of subject && is_iri_of predicate) ≡ true }
        ensures { result ≡ record { subject = subject; predicate = predicate; object = object } }
    {
        Triple {
            subject,
            predicate,
            object,
        }
    }

    /// An IRI or a blank node.
    pub fn subject(&self) -> &TermText
        ensures { result.now ≡ self.now.subject }
    {
        &self.subject
    }

    /// An IRI.
    pub fn predicate(&self) -> &TermText
        ensures { result.now ≡ self.now.predicate }
    {
        &self.predicate
    }

    /// A term of any kind.
    pub fn object(&self) -> &TermText
        ensures { result.now ≡ self.now.object }
    {
        &self.object
    }

    /// Its terms, which are taken out: the subject, the predicate and the object.
    pub fn into_terms(self) -> (TermText, TermText, TermText)
        ensures { result ≡ (self.subject, self.predicate, self.object) }
    {
        let Triple {
            subject,
            predicate,
            object,
        } = self;
        (subject, predicate, object)
    }

    /// For proofs: every value is a triple.
    pub fn known(&self)
        ensures { IsTriple self.now }
    {
        let _ = self.subject.as_bytes();
        let _ = self.predicate.as_bytes();
        let _ = self.object.as_bytes();
    }
}

impl Clone for Triple {
    ghost is_clone = { λ s t. t ≡ s };

    fn clone(&self) -> Result<Triple, AllocError> {
        let subject = self.subject.clone()?;
        let predicate = self.predicate.clone()?;
        let object = self.object.clone()?;
        Ok(Triple {
            subject,
            predicate,
            object,
        })
    }
}
