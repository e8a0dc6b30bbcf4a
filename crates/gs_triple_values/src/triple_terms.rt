//! The language of terms.
ghost use Rattle.std.specs.Prelude.{◌≡◌, IfOk};
ghost use Rattle.gs_triple_values.specs.Sizes.{texts_bytes};

use crate::kinds::{Subject, Verb};
use crate::languages::Language;
use gs_term::{TermText, Triple};
use gs_triple_lists::TripleList;
use std::alloc::{AllocError, Global};

/// The terms and the triples of RDF, without variables: Turtle, and the data of updates.
pub struct Terms;

/// A copy of a term: of its bytes, all at once.
#[inline]
fn copied(alloc: Global, term: &TermText) -> Result<TermText, AllocError>
    ensures { IfOk result (λ t. t ≡ term.now) }
{
    TermText::of_canonical(alloc, term.as_bytes())
}

/// How many bytes the texts of terms have.
fn bytes_of(terms: &[TermText]) -> usize
    ensures { result ≡ texts_bytes terms.now }
{
    let mut bytes = 0usize;
    for term in terms {
        bytes = bytes.saturating_add(term.as_bytes().len());
    }
    bytes
}

/// How many texts a list has.
fn count_texts(list: &TripleList) -> usize {
    list.parts().0.len()
}

/// How many bytes the texts have that a list has beside its first so many.
fn new_bytes(list: &TripleList, known: usize) -> usize {
    match list.parts().0.get(known..) {
        None => 0,
        Some(new) => bytes_of(new),
    }
}

impl Language for Terms {
    ghost use Rattle.gs_triple_values.specs.Typed.{terms};
    ghost use Rattle.gs_triple_values.specs.Sizes.{term_bytes, terms_bytes};

    type Subject = Subject;

    type Verb = Verb;

    type Value = TermText;

    type Triple = Triple;

    type List = TripleList;

    ghost language = { terms };

    ghost value_size = { term_bytes };

    ghost triple_size = { terms_bytes };

    fn value(term: TermText) -> TermText {
        term
    }

    fn subject(term: TermText) -> Subject {
        Subject { term }
    }

    fn verb(term: TermText) -> Verb {
        Verb { term }
    }

    fn variable(_alloc: Global, _name: &[u8]) -> Result<Option<Subject>, AllocError> {
        Ok(None)
    }

    fn verb_variable(_alloc: Global, _name: &[u8]) -> Result<Option<Verb>, AllocError> {
        Ok(None)
    }

    fn subject_value(subject: Subject) -> TermText {
        subject.term
    }

    fn triple(subject: Subject, verb: Verb, object: TermText) -> Triple {
        Triple::new(subject.term, verb.term, object)
    }

    fn next_triple(
        alloc: Global,
        subject: &Subject,
        verb: &Verb,
        object: TermText,
    ) -> Result<Triple, AllocError> {
        let subject = copied(alloc, &subject.term)?;
        let verb = copied(alloc, &verb.term)?;
        Ok(Triple::new(subject, verb, object))
    }

    fn last_triple(
        alloc: Global,
        subject: &Subject,
        verb: Verb,
        object: TermText,
    ) -> Result<Triple, AllocError> {
        let subject = copied(alloc, &subject.term)?;
        Ok(Triple::new(subject, verb.term, object))
    }

    fn value_bytes(value: &TermText) -> usize {
        value.as_bytes().len()
    }

    fn triple_bytes(triple: &Triple) -> usize {
        triple.subject().as_bytes().len()
            + triple.predicate().as_bytes().len()
            + triple.object().as_bytes().len()
    }

    fn no_triples(alloc: Global) -> TripleList {
        TripleList::new(alloc)
    }

    fn count(list: &TripleList) -> usize {
        list.len()
    }

    fn clear(list: &mut TripleList) {
        list.clear();
    }

    fn add_all(triples: &mut Vec<Triple>, list: &mut TripleList) -> Result<usize, AllocError> {
        let known = count_texts(list);
        list.append(triples)?;
        Ok(new_bytes(list, known))
    }

    fn append(from: &mut TripleList, list: &mut TripleList) -> Result<usize, AllocError> {
        let known = count_texts(list);
        list.take_from(from)?;
        Ok(new_bytes(list, known))
    }
}
