//! The language of patterns.
ghost use Rattle.std.specs.Prelude.{◌≡◌, IfOk};
ghost use Rattle.gs_triples.specs.Languages.{of_patterns};
ghost use Rattle.gs_triple_values.specs.Sizes.{part_bytes};

use crate::languages::Language;
use gs_term::{Part, Pattern, TermText, VariableName};
use std::alloc::{AllocError, Global};

/// Terms and variables, as in the patterns of SPARQL.
pub struct Patterns;

/// The same term or variable once more.
fn copied(alloc: Global, part: &Part) -> Result<Part, AllocError>
    ensures { IfOk result (λ p. p ≡ part.now) }
{
    match part {
        Part::Term(term) => Ok(Part::Term(term.clone()?)),
        Part::Variable(name) => { Ok(Part::Variable(VariableName::new(alloc, name.as_str())?)) }
    }
}

/// A variable of this name, where the name is text.
fn variable(alloc: Global, name: &[u8]) -> Result<Option<Part>, AllocError>
    ensures { IfOk result (λ o. o ≡ of_patterns.variable name.now) }
{
    match str::from_utf8(name) {
        Ok(text) => Ok(Some(Part::Variable(VariableName::new(alloc, text)?))),
        Err(_) => Ok(None),
    }
}

/// How many bytes the text of a term has, or the name of a variable.
fn bytes_of(part: &Part) -> usize
    ensures { result ≡ part_bytes part.now }
{
    match part {
        Part::Term(term) => term.as_bytes().len(),
        Part::Variable(name) => name.as_str().len(),
    }
}

impl Language for Patterns {
    ghost use Rattle.gs_triple_values.specs.Typed.{patterns};
    ghost use Rattle.gs_triple_values.specs.Sizes.{part_bytes, parts_bytes};

    type Subject = Part;

    type Verb = Part;

    type Value = Part;

    type Triple = Pattern;

    type List = Vec<Pattern>;

    ghost language = { patterns };

    ghost value_size = { part_bytes };

    ghost triple_size = { parts_bytes };

    fn value(term: TermText) -> Part {
        Part::Term(term)
    }

    fn subject(term: TermText) -> Part {
        Part::Term(term)
    }

    fn verb(term: TermText) -> Part {
        Part::Term(term)
    }

    fn variable(alloc: Global, name: &[u8]) -> Result<Option<Part>, AllocError> {
        variable(alloc, name)
    }

    fn verb_variable(alloc: Global, name: &[u8]) -> Result<Option<Part>, AllocError> {
        variable(alloc, name)
    }

    fn subject_value(subject: Part) -> Part {
        subject
    }

    fn triple(subject: Part, verb: Part, object: Part) -> Pattern {
        Pattern {
            subject,
            predicate: verb,
            object,
        }
    }

    fn next_triple(
        alloc: Global,
        subject: &Part,
        verb: &Part,
        object: Part,
    ) -> Result<Pattern, AllocError> {
        let subject = copied(alloc, subject)?;
        let predicate = copied(alloc, verb)?;
        Ok(Pattern {
            subject,
            predicate,
            object,
        })
    }

    fn last_triple(
        alloc: Global,
        subject: &Part,
        verb: Part,
        object: Part,
    ) -> Result<Pattern, AllocError> {
        let subject = copied(alloc, subject)?;
        Ok(Pattern {
            subject,
            predicate: verb,
            object,
        })
    }

    fn value_bytes(value: &Part) -> usize {
        bytes_of(value)
    }

    fn triple_bytes(triple: &Pattern) -> usize {
        bytes_of(&triple.subject)
            .saturating_add(bytes_of(&triple.predicate))
            .saturating_add(bytes_of(&triple.object))
    }

    fn no_triples(alloc: Global) -> Vec<Pattern> {
        Vec::new(alloc)
    }

    fn count(list: &Vec<Pattern>) -> usize {
        list.len()
    }

    fn clear(list: &mut Vec<Pattern>) {
        list.clear();
    }

    /// A list of patterns knows no text, so all that was counted stays.
    fn add_all(triples: &mut Vec<Pattern>, list: &mut Vec<Pattern>) -> Result<usize, AllocError> {
        list.append(triples)?;
        Ok(usize::MAX)
    }

    fn append(from: &mut Vec<Pattern>, list: &mut Vec<Pattern>) -> Result<usize, AllocError> {
        list.append(from)?;
        Ok(usize::MAX)
    }
}
