//! Readers of lists of triples.
ghost use Rattle.std.specs.Prelude.{◌≡◌, true};
ghost use Rattle.gs_model.specs.Triples.{has_kinds};
ghost use Rattle.gs_triple_lists.specs.Kept.{AreTriplesIn};

use crate::lists::TripleNumbers;
use gs_term::{TermText, Triple};
use std::alloc::AllocError;

/// A triple of a list, by its terms.
#[derive(Clone, Copy, Debug)]
pub struct ListedTriple<'a> {
    subject: &'a TermText,
    predicate: &'a TermText,
    object: &'a TermText,
    ghost kinds: { has_kinds (record { subject = subject.now; predicate = predicate.now; object = object.now }) ≡ true },
}

/// Reads the triples of a list, the first one first. Takes no memory.
#[derive(Drop)]
pub struct ListedTriples<'a> {
    terms: &'a [TermText],
    numbers: &'a [TripleNumbers],
    ghost known: { AreTriplesIn terms.now numbers.now },
}

impl<'a> ListedTriple<'a> {
    ghost use Rattle.std.specs.Prelude.{◌≡◌, IfOk};
    ghost use Rattle.gs_model.specs.Triples.{IsTriple};
    ghost use Rattle.gs_triple_lists.specs.Kept.{triple_of_numbers, IsTripleIn};
    ghost use Rattle.gs_triple_lists.specs.Readers.{triple_listed};

    /// The triple of three numbers.
    fn new(terms: &'a [TermText], numbers: TripleNumbers) -> ListedTriple<'a>
        requires { IsTripleIn terms.now numbers }
        ensures { triple_listed result ≡ triple_of_numbers terms.now numbers }
    {
        let subject = &terms[numbers.subject as usize];
        let predicate = &terms[numbers.predicate as usize];
        let object = &terms[numbers.object as usize];
        ListedTriple {
            subject,
            predicate,
            object,
        }
    }

    /// The subject.
    pub fn subject(&self) -> &'a TermText
        ensures { result.now ≡ (triple_listed self.now).subject }
    {
        self.subject
    }

    /// The predicate.
    pub fn predicate(&self) -> &'a TermText
        ensures { result.now ≡ (triple_listed self.now).predicate }
    {
        self.predicate
    }

    /// The object.
    pub fn object(&self) -> &'a TermText
        ensures { result.now ≡ (triple_listed self.now).object }
    {
        self.object
    }

    /// For proofs: it is a triple.
    pub fn known(&self)
        ensures { IsTriple (triple_listed self.now) }
    {
        let _ = self.subject.as_bytes();
        let _ = self.predicate.as_bytes();
        let _ = self.object.as_bytes();
    }

    /// The triple, with terms of its own.
    pub fn to_triple(&self) -> Result<Triple, AllocError>
        ensures { IfOk result (λ t. t ≡ triple_listed self.now) }
    {
        let subject = self.subject.clone()?;
        let predicate = self.predicate.clone()?;
        let object = self.object.clone()?;
        Ok(Triple::new(subject, predicate, object))
    }
}

impl<'a> ListedTriples<'a> {
    ghost use Rattle.std.specs.Prelude.{◌≡◌};
    ghost use Rattle.gs_triple_lists.specs.Kept.{AreTriplesIn, triples_of_numbers};
    ghost use Rattle.gs_triple_lists.specs.Readers.{listed_left, GivesListed};

    /// A reader of the triples of these numbers.
    pub(crate) fn new(terms: &'a [TermText], numbers: &'a [TripleNumbers]) -> ListedTriples<'a>
        requires { AreTriplesIn terms.now numbers.now }
        ensures { listed_left result ≡ triples_of_numbers terms.now numbers.now }
    {
        ListedTriples { terms, numbers }
    }

    /// The next triple.
    pub fn next(&mut self) -> Option<ListedTriple<'a>>
        ensures { GivesListed (listed_left self.old) result (listed_left self.new) }
    {
        let (first, rest) = self.numbers.split_first()?;
        let triple = ListedTriple::new(self.terms, *first);
        self.numbers = rest;
        Some(triple)
    }
}
