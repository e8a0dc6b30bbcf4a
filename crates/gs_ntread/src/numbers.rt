//! Blank nodes get their numbers.
ghost use Rattle.std.specs.Prelude.{◌≡◌, ◌∷◌, [], true, OnOk, OnErr, IfOk, IfErr};
ghost use Rattle.gs_model.specs.Triples.{is_subject};
ghost use Rattle.gs_ntterm.specs.LineTerms.{Labelled};
ghost use Rattle.gs_ntread.specs.Views.{subject_of, object_of};
ghost use Rattle.gs_ntread.specs.Clauses.{AnswersTerm, AnswersTriple};
ghost use Rattle.gs_ntread.specs.LineFronts.{IsWrittenLine, AnswersNode, IsTextAsWritten, AddsLine};

use crate::lines::{Line, Written};
use crate::parts::{Object, Parts, Subject};
use gs_blank::Numbering;
use gs_model::Refusal;
use gs_ntterm::Name;
use gs_term::{TermText, Triple};
use gs_triple_lists::TripleList;
use std::alloc::Global;

/// The blank node of a label.
fn blank(
    alloc: Global,
    request: u64,
    numbering: &mut Numbering,
    label: &str,
) -> Result<TermText, Refusal>
    ensures term { AnswersTerm request numbering.old numbering.new (Labelled label.now) result }
    ensures refused { IfErr result (λ e. e ≡ Refusal.NoMemory) }
{
    let number = numbering.of_label(label)?;
    match TermText::blank(alloc, request, number) {
        Ok(term) => Ok(term),
        Err(_) => Err(Refusal::NoMemory),
    }
}

fn subject_term(
    alloc: Global,
    request: u64,
    numbering: &mut Numbering,
    subject: Subject,
) -> Result<TermText, Refusal>
    ensures term { AnswersTerm request numbering.old numbering.new (subject_of subject) result }
    ensures kind { IfOk result (λ t. is_subject t ≡ true) }
    ensures refused { IfErr result (λ e. e ≡ Refusal.NoMemory) }
{
    match subject {
        Subject::Iri(name) => {
            let Name { term } = name;
            Ok(term)
        }
        Subject::Label(label) => blank(alloc, request, numbering, label.as_str()),
    }
}

fn object_term(
    alloc: Global,
    request: u64,
    numbering: &mut Numbering,
    object: Object,
) -> Result<TermText, Refusal>
    ensures term { AnswersTerm request numbering.old numbering.new (object_of object) result }
    ensures refused { IfErr result (λ e. e ≡ Refusal.NoMemory) }
{
    match object {
        Object::Term(term) => Ok(term),
        Object::Label(label) => blank(alloc, request, numbering, label.as_str()),
    }
}

/// The triple of its parts.
pub fn triple(
    alloc: Global,
    request: u64,
    numbering: &mut Numbering,
    parts: Parts,
) -> Result<Triple, Refusal>
    ensures triple { AnswersTriple request numbering.old numbering.new parts result }
    ensures refused { IfErr result (λ e. e ≡ Refusal.NoMemory) }
{
    let Parts {
        subject,
        predicate,
        object,
        end: _,
    } = parts;
    let Name { term } = predicate;
    let subject = subject_term(alloc, request, numbering, subject)?;
    let object = object_term(alloc, request, numbering, object)?;
    Ok(Triple::new(subject, term, object))
}

/// The blank node of a label, where one is written.
#[inline]
fn node(
    alloc: Global,
    request: u64,
    numbering: &mut Numbering,
    written: Written<'_>,
) -> Result<Option<TermText>, Refusal>
    ensures node { IfOk result (λ o. AnswersNode request numbering.old numbering.new written.entry o) }
    ensures refused { IfErr result (λ e. e ≡ Refusal.NoMemory) }
{
    match written {
        Written::Text(_) => Ok(None),
        Written::Label(label) => Ok(Some(blank(alloc, request, numbering, label)?)),
    }
}

/// The text of a term that is written so, where this is its node.
#[inline]
fn text_of<'a>(written: Written<'a>, node: &'a Option<TermText>) -> &'a [u8]
    ensures { IsTextAsWritten written.entry node.now result.now }
{
    match written {
        Written::Text(text) => text,
        Written::Label(_) => match node {
            Some(node) => node.as_bytes(),
            None => b"",
        },
    }
}

/// Adds the triple of a line to a list.
#[inline]
pub fn push_line(
    alloc: Global,
    request: u64,
    numbering: &mut Numbering,
    line: Line<'_>,
    triples: &mut TripleList,
) -> Result<(), Refusal>
    requires { IsWrittenLine line }
    ensures ok { OnOk result (AddsLine request numbering.old numbering.new triples.old.items
        triples.new.items line.entry) }
    ensures err { OnErr result (triples.new.items ≡ triples.old.items) }
    ensures refused { IfErr result (λ e. e ≡ Refusal.NoMemory) }
{
    let subject = node(alloc, request, numbering, line.subject)?;
    let object = node(alloc, request, numbering, line.object)?;
    triples.push_texts(
        text_of(line.subject, &subject),
        line.predicate,
        text_of(line.object, &object),
    )?;
    Ok(())
}
